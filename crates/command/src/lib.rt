//! Commands as bytes: the first byte names the command, its operands follow, big end first.
#![tactic(auto)]

mod commands;
mod reading;

pub use commands::Command;
pub use reading::read;
