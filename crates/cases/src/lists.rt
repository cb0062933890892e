// The calls of a case made once more, as one list.
use crate::calls::call;
use crate::line::Line;
use crate::stop::Stop;
use crate::tally::{Tally, agrees};
use crate::texts;
use crate::words::Words;
use kinds::Deck;
use runs::{Call, Reply};
use std::alloc::{AllocError, Global};

// The reply that is expected of a call, and the number of its line.
#[derive(Drop)]
struct Expected {
    line: u64,
    reply: String,
}

// Two lists and not one of pairs: `runs::replay` takes the calls as one slice, and a list of pairs would first have to be split into the same two.
#[derive(Drop)]
pub(crate) struct List {
    calls: Vec<Call<Deck>>,
    expected: Vec<Expected>,
}

impl Expected {
    fn compare(
        &self,
        heap: Global,
        rt: &impl Print,
        tally: &mut Tally,
        reply: Reply,
    ) -> anyhow::Result<()> {
        let got = texts::reply(heap, reply)?;
        tally.add_listed(agrees(rt, self.line, self.reply.as_str(), got.as_str())?);
        Ok(())
    }
}

impl List {
    pub(crate) fn new(heap: Global) -> List {
        List {
            calls: Vec::new(heap),
            expected: Vec::new(heap),
        }
    }

    // Puts the call of a line behind the others, where a list may have it.
    pub(crate) fn add(&mut self, heap: Global, line: Line<'_>) -> Result<(), AllocError> {
        match call(heap, line.sort, Words::new(line.operands)) {
            Ok(Some(call)) => self.push(call, line.number, String::from_str(heap, line.expected)?),
            // memory alone is passed on: a call that anything else stops has had that as its direct reply, and is left out
            Err(Stop::NoMemory(error)) => Err(error),
            Ok(None) | Err(_) => Ok(()),
        }
    }

    fn push(&mut self, call: Call<Deck>, line: u64, reply: String) -> Result<(), AllocError> {
        self.calls.push(call)?;
        self.expected.push(Expected { line, reply })?;
        Ok(())
    }

    pub(crate) fn replay(
        &self,
        heap: Global,
        rt: &impl Print,
        tally: &mut Tally,
    ) -> anyhow::Result<()> {
        let (_, replies) = runs::replay(heap, self.calls.as_slice())?;
        for (expected, reply) in self.expected.iter().zip(replies.iter()) {
            expected.compare(heap, rt, tally, *reply)?;
        }
        Ok(())
    }
}
