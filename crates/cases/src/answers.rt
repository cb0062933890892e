// Calls made directly, with their answers as text.
use crate::parts::Question;
use crate::records::transcript;
use crate::sort::Sort;
use crate::stop::Stop;
use crate::texts;
use crate::texts::numbers;
use crate::words::Words;
use faults::SheetFault;
use sheet::Sheet;
use std::alloc::Global;

// Makes the call that the words stand for. The heap is a word that is copied from call to call, as the library's own functions take it; a struct
// round it would be no plainer.
pub(crate) fn made(
    heap: Global,
    sheet: &mut Sheet,
    sort: Sort,
    mut words: Words<'_>,
) -> Result<String, Stop> {
    // Told apart by a `match`: each sort reads words of its own. By `runs::answer` the direct calls and the list's would be the same code, and the
    // comparison would show nothing.
    match sort {
        Sort::Place => done(heap, sheet.place(words.value()?, words.plate()?)),
        Sort::Lift => done(heap, sheet.lift(words.value()?)),
        Sort::Lower => done(heap, sheet.lower(words.value()?)),
        Sort::Enter => done(
            heap,
            sheet.enter(words.value()?, words.load()?, words.effect()?),
        ),
        Sort::Strike => done(heap, sheet.strike(words.value()?)),
        Sort::Extremes => extremes(heap, sheet, words),
        Sort::Axis => Question::Axis(words.sense()?).ask(heap, sheet, words),
        Sort::Bending => Question::Bending(words.state()?).ask(heap, sheet, words),
        Sort::Shear => shear(heap, sheet, words),
        Sort::Studs => Question::Studs(words.stud()?).ask(heap, sheet, words),
        Sort::Part => Question::Depth.ask(heap, sheet, words),
        Sort::Resultants => {
            Question::Resultants(words.sense()?, words.value()?).ask(heap, sheet, words)
        }
        Sort::Record => transcript(heap, words),
    }
}

fn done(heap: Global, change: Result<(), SheetFault>) -> Result<String, Stop> {
    change?;
    Ok(String::from_str(heap, "done")?)
}

fn extremes(heap: Global, sheet: &Sheet, mut words: Words<'_>) -> Result<String, Stop> {
    let state = words.state()?;
    let found = questions::extremes(sheet, &state, words.kind()?);
    Ok(texts::extremes(heap, found)?)
}

fn shear(heap: Global, sheet: &Sheet, mut words: Words<'_>) -> Result<String, Stop> {
    let state = words.state()?;
    let found = questions::shear(sheet, words.spacing()?, &state)?;
    let verdict = u64::from(found.verdict.number());
    Ok(numbers(heap, &[found.resistance, verdict])?)
}
