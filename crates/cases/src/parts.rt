// What is asked of a part of any kind.
use crate::stop::Stop;
use crate::texts;
use crate::texts::numbers;
use crate::words::{Words, parsed};
use kinds::{BarLayer, Deck, Shape, Slab};
use loads::LimitState;
use questions::Stud;
use section::{Part, Sense};
use sheet::Sheet;
use std::alloc::Global;

// An enum and no closure: it is asked of parts of several types, and a closure cannot be generic.
#[derive(Clone, Copy)]
pub(crate) enum Question {
    Axis(Sense),
    Bending(LimitState),
    Studs(Stud),
    Depth,
    Resultants(Sense, u16),
}

impl Question {
    // Asks it with the part that the words stand for.
    pub(crate) fn ask(
        self,
        heap: Global,
        sheet: &Sheet,
        mut words: Words<'_>,
    ) -> Result<String, Stop> {
        match words.word()? {
            "empty" => self.answer(heap, sheet, &Deck::empty()),
            "deck" => self.answer(heap, sheet, &deck(heap, words)?),
            "cracked" => self.answer(heap, sheet, &deck(heap, words)?.cracked()),
            "shape" => self.ask_with_shape(heap, sheet, words),
            _ => Err(Stop::Unreadable),
        }
    }

    fn ask_with_shape(
        self,
        heap: Global,
        sheet: &Sheet,
        mut words: Words<'_>,
    ) -> Result<String, Stop> {
        let top = words.value()?;
        let fy = words.value()?;
        let breadths = breadths(heap, words)?;
        let shape = Shape::try_new(top, fy, breadths.as_slice())?;
        self.answer(heap, sheet, &shape)
    }

    fn answer<P: Part>(self, heap: Global, sheet: &Sheet, part: &P) -> Result<String, Stop> {
        match self {
            Question::Axis(sense) => {
                Ok(texts::axis(heap, questions::axis(sheet, part, sense)?)?)
            }
            Question::Bending(state) => {
                Ok(texts::bending(heap, questions::bending(sheet, part, &state)?)?)
            }
            Question::Studs(stud) => {
                let found = questions::studs(sheet, part, stud)?;
                Ok(numbers(heap, &[found.force, found.count])?)
            }
            Question::Depth => Ok(numbers(heap, &[part.depth()])?),
            Question::Resultants(sense, level) => {
                let found = part.resultants(sense, level);
                Ok(numbers(heap, &[found.above, found.below, found.moment])?)
            }
        }
    }
}

pub(crate) fn deck(heap: Global, mut words: Words<'_>) -> Result<Deck, Stop> {
    let slab = Slab {
        top: words.value()?,
        breadth: words.value()?,
        height: words.value()?,
        fc: words.value()?,
    };
    let layers: Vec<BarLayer> = words.rest.map(layer).try_collect(heap)?;
    Ok(Deck::try_new(slab, layers.as_slice())?)
}

// STRIP:AREA:YIELD
fn layer(word: &str) -> Result<BarLayer, Stop> {
    let (strip, rest) = word.split_once(':').ok_or(Stop::Unreadable)?;
    let (area, fy) = rest.split_once(':').ok_or(Stop::Unreadable)?;
    Ok(BarLayer {
        strip: parsed(strip)?,
        area: parsed(area)?,
        fy: parsed(fy)?,
    })
}

fn breadths(heap: Global, words: Words<'_>) -> Result<Vec<u16>, Stop> {
    words.rest.map(parsed).try_collect(heap)
}
