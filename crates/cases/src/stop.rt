// Why a call has no answer.
use faults::{PartFault, QuestionFault, SheetFault};
use runs::CallFault;
use std::alloc::AllocError;
use thiserror::Error;

#[derive(Clone, Copy, Debug, PartialEq, Eq, Error)]
pub(crate) enum Stop {
    #[error("refused {}", .0.number())]
    Sheet(#[from] SheetFault),
    #[error("refused {}", .0.number())]
    Part(#[from] PartFault),
    #[error("refused {}", .0.number())]
    Question(#[from] QuestionFault),
    // the line is none of a call
    #[error("unreadable")]
    Unreadable,
    #[error("out of memory")]
    NoMemory(#[from(alloc)] AllocError),
}

// By hand: one `From` for two cases, which a derive does not write.
impl From<CallFault> for Stop {
    fn from(fault: CallFault) -> Stop {
        match fault {
            CallFault::Sheet(fault) => Stop::Sheet(fault),
            CallFault::Question(fault) => Stop::Question(fault),
        }
    }
}
