//! Any list of calls on a new sheet, with the law that holds of every such run.
#![tactic(auto)]

mod call;
mod replays;
mod reply;

pub use call::Call;
pub use replays::{answer, replay, replay_into};
pub use reply::{Answer, CallFault, Reply};
