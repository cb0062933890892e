// A line that has a call.
use crate::sort::Sort;
use anyhow::Context;

#[derive(Clone, Copy)]
pub(crate) struct Line<'a> {
    pub(crate) number: u64,
    pub(crate) sort: Sort,
    pub(crate) operands: &'a str,
    // the reply
    pub(crate) expected: &'a str,
}

impl<'a> Line<'a> {
    pub(crate) fn read(number: u64, text: &'a str) -> anyhow::Result<Line<'a>> {
        let (call, expected) = text.split_once(" = ").context("a line without a reply")?;
        let (name, operands) = call.split_once(' ').unwrap_or((call, ""));
        Ok(Line {
            number,
            sort: name.parse()?,
            operands,
            expected,
        })
    }
}
