// The calls that a list may have: changes, extremes, and axis and bending with a deck that owns its strips.
use crate::parts::deck;
use crate::sort::Sort;
use crate::stop::Stop;
use crate::words::Words;
use kinds::Deck;
use runs::Call;
use std::alloc::Global;

// The call that the words stand for; none where no list may have it.
pub(crate) fn call(
    heap: Global,
    sort: Sort,
    mut words: Words<'_>,
) -> Result<Option<Call<Deck>>, Stop> {
    // told apart by a `match`: each sort reads words of its own
    let call = match sort {
        Sort::Place => Call::Place {
            slot: words.value()?,
            plate: words.plate()?,
        },
        Sort::Lift => Call::Lift {
            slot: words.value()?,
        },
        Sort::Lower => Call::Lower {
            levels: words.value()?,
        },
        Sort::Enter => Call::Enter {
            slot: words.value()?,
            load: words.load()?,
            effect: words.effect()?,
        },
        Sort::Strike => Call::Strike {
            slot: words.value()?,
        },
        Sort::Extremes => Call::Extremes {
            state: words.state()?,
            kind: words.kind()?,
        },
        Sort::Axis => return axis(heap, words),
        Sort::Bending => return bending(heap, words),
        Sort::Shear | Sort::Studs | Sort::Part | Sort::Resultants | Sort::Record => return Ok(None),
    };
    Ok(Some(call))
}

// Twin of `bending`: two lines each; one function of both would take two closures, and is no plainer.
fn axis(heap: Global, mut words: Words<'_>) -> Result<Option<Call<Deck>>, Stop> {
    let sense = words.sense()?;
    Ok(owned(heap, words)?.map(|part| Call::Axis { part, sense }))
}

fn bending(heap: Global, mut words: Words<'_>) -> Result<Option<Call<Deck>>, Stop> {
    let state = words.state()?;
    Ok(owned(heap, words)?.map(|part| Call::Bending { part, state }))
}

// A deck that owns its strips; none where the part is another.
fn owned(heap: Global, mut words: Words<'_>) -> Result<Option<Deck>, Stop> {
    match words.word()? {
        "empty" => Ok(Some(Deck::empty())),
        "deck" => Ok(Some(deck(heap, words)?)),
        _ => Ok(None),
    }
}
