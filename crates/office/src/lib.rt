//! The C interface: a record's transcript into a buffer of the caller's, with no heap.
#![tactic(auto)]

mod filling;
mod interface;
#[cfg(test)]
mod tests;

pub use interface::mosvitar_transcript;
