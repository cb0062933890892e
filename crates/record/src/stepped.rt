// What a step leaves.
use faults::Fault;

#[derive(Clone, Copy, Debug, PartialEq, Eq)]
pub struct Stepped {
    // where the next step starts
    pub place: usize,
    // how much of the buffer the line takes: 0 of a step that writes none, so that `&line[..written]` is what was written in any case
    pub written: usize,
    // beside the rest and no `Result`: a refused step has a next place and mostly a line too
    pub fault: Option<Fault>,
}
