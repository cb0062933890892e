// Answers as text. Functions, since `Display` of the library's answers can stand only in the library, which spells none; a type of our own round each
// would be no plainer.
use crate::stop::Stop;
use itertools::Itertools;
use questions::{Bending, Extremes};
use runs::{Answer, Reply};
use section::Axis;
use std::alloc::{AllocError, Global};
use std::fmt::Display;

// Parted by blanks.
pub(crate) fn numbers<T: Display>(heap: Global, numbers: &[T]) -> Result<String, AllocError> {
    numbers.iter().join(heap, " ")
}

pub(crate) fn bending(heap: Global, found: Bending) -> Result<String, AllocError> {
    let level = u64::from(found.level);
    let verdict = u64::from(found.verdict.number());
    numbers(heap, &[level, found.mp, found.mn, verdict])
}

pub(crate) fn axis(heap: Global, found: Axis) -> Result<String, AllocError> {
    numbers(
        heap,
        &[u64::from(found.level), found.moment, found.imbalance],
    )
}

pub(crate) fn extremes(heap: Global, found: Extremes) -> Result<String, AllocError> {
    numbers(heap, &[found.low, found.high])
}

pub(crate) fn reply(heap: Global, reply: Reply) -> Result<String, AllocError> {
    match reply {
        Ok(Answer::Done) => String::from_str(heap, "done"),
        Ok(Answer::Extremes(found)) => extremes(heap, found),
        Ok(Answer::Axis(found)) => axis(heap, found),
        Ok(Answer::Bending(found)) => bending(heap, found),
        Err(fault) => Stop::from(fault).to_string(heap),
    }
}
