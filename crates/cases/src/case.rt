// One case: calls on one sheet.
use crate::answers::made;
use crate::line::Line;
use crate::lists::List;
use crate::stop::Stop;
use crate::tally::{Tally, agrees};
use crate::words::Words;
use sheet::Sheet;
use std::alloc::{AllocError, Global};

#[derive(Drop)]
pub(crate) struct Case {
    heap: Global,
    sheet: Sheet,
    list: List,
}

impl Case {
    pub(crate) fn new(heap: Global) -> Case {
        Case {
            heap,
            sheet: Sheet::new(),
            list: List::new(heap),
        }
    }

    // Does what a line says, which is known by its number: starts a new case, compares a call, or nothing.
    // The runtime and the tally are lent to each call and not held beside the heap: a struct of two borrows, which each function takes apart again,
    // would be no plainer.
    pub(crate) fn follow(
        &mut self,
        rt: &impl Print,
        tally: &mut Tally,
        number: u64,
        line: &str,
    ) -> anyhow::Result<()> {
        if line == "case" {
            self.end(rt, tally)?;
        } else if !line.starts_with('#') {
            self.compare(rt, tally, Line::read(number, line)?)?;
        }
        Ok(())
    }

    // Makes the calls once more in a list, and goes on with a new sheet.
    pub(crate) fn end(&mut self, rt: &impl Print, tally: &mut Tally) -> anyhow::Result<()> {
        self.list.replay(self.heap, rt, tally)?;
        self.list = List::new(self.heap);
        self.sheet = Sheet::new();
        Ok(())
    }

    // Makes the call of a line, and holds its reply to the one that stands behind it.
    fn compare(
        &mut self,
        rt: &impl Print,
        tally: &mut Tally,
        line: Line<'_>,
    ) -> anyhow::Result<()> {
        let answer = made(
            self.heap,
            &mut self.sheet,
            line.sort,
            Words::new(line.operands),
        );
        let got = reply(self.heap, answer)?;
        let agrees = agrees(rt, line.number, line.expected, got.as_str())?;
        tally.add(line.sort, agrees);
        self.list.add(self.heap, line)?;
        Ok(())
    }
}

// The answer's text, or that of what there is in its place.
fn reply(heap: Global, answer: Result<String, Stop>) -> Result<String, AllocError> {
    answer.or_else(|stop| match stop {
        Stop::NoMemory(error) => Err(error),
        stop => stop.to_string(heap),
    })
}
