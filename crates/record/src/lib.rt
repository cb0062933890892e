//! The section record: one step runs one command, and a transcript has the lines of all.
#![tactic(auto)]

mod codes;
mod limits;
mod line_writer;
mod lines;
mod reading;
mod running;
mod stepped;
mod stepping;
#[cfg(test)]
mod tests;
mod transcripts;

pub use limits::LONGEST;
pub use reading::Reading;
pub use stepped::Stepped;
pub use stepping::step;
pub use transcripts::{TOO_LONG_LINE, transcript};
