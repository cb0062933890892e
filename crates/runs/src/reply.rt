// The reply to a call.
ghost use Rattle.std.specs.Prelude.{◌≡◌};
ghost use Rattle.runs.specs.declared.reply.CallFault.TheVariants.{Sheet, Question};

use faults::{QuestionFault, SheetFault};
use questions::{Bending, Extremes};
use section::Axis;
use thiserror::Error;

// What a call came to: of a change only that it was done.
#[derive(Clone, Copy, Debug, PartialEq, Eq)]
pub enum Answer {
    Done,
    Extremes(Extremes),
    Axis(Axis),
    Bending(Bending),
}

// Why a call was refused: a change as changes are, a question as questions are.
#[derive(Clone, Copy, Debug, PartialEq, Eq, Error)]
pub enum CallFault {
    #[error(transparent)]
    Sheet(SheetFault),
    #[error(transparent)]
    Question(QuestionFault),
}

// By hand: the `From` that `#[from]` derives has no contract, and what `done` and `answer` promise of a refusal rests on what their `?` makes of it.
impl From<SheetFault> for CallFault {
    ghost from_gives = { λ f r. r ≡ Sheet f };

    fn from(fault: SheetFault) -> CallFault {
        CallFault::Sheet(fault)
    }
}

impl From<QuestionFault> for CallFault {
    ghost from_gives = { λ f r. r ≡ Question f };

    fn from(fault: QuestionFault) -> CallFault {
        CallFault::Question(fault)
    }
}

pub type Reply = Result<Answer, CallFault>;
