// Records, and the lines that the reader prints of them.
use crate::stop::Stop;
use crate::words::Words;
use itertools::Itertools;
use std::alloc::{AllocError, Global};

// The lines of a record, parted by semicolons.
pub(crate) fn transcript(heap: Global, words: Words<'_>) -> Result<String, Stop> {
    let bytes = bytes(heap, words)?;
    let lines = record::transcript(heap, bytes.as_slice())?;
    let lines = std::str::from_utf8(lines.as_slice()).map_err(|_| Stop::Unreadable)?;
    Ok(joined(heap, lines)?)
}

fn bytes(heap: Global, words: Words<'_>) -> Result<Vec<u8>, Stop> {
    words.rest.map(byte).try_collect(heap)
}

fn byte(word: &str) -> Result<u8, Stop> {
    u8::from_str_radix(word, 16).map_err(|_| Stop::Unreadable)
}

fn joined(heap: Global, lines: &str) -> Result<String, AllocError> {
    if lines.is_empty() {
        return String::from_str(heap, "nothing");
    }
    lines.lines().join(heap, "; ")
}
