// The fault of a record's command: the command's own, or that of the call it makes.
ghost use Rattle.std.specs.Prelude.{◌≡◌};
ghost use Rattle.faults.specs.declared.recorded.RecordFault.TheVariants.{Sheet, Part, Question, Reading};
ghost use Rattle.faults.specs.Numbers as numbers;

use crate::layer::Layer;
use crate::part::PartFault;
use crate::question::QuestionFault;
use crate::reading::ReadFault;
use crate::sheet::SheetFault;
use thiserror::Error;

#[derive(Clone, Copy, Debug, PartialEq, Eq, Error)]
#[error("refused with {}", self.number())]
pub enum RecordFault {
    Sheet(SheetFault),
    Part(PartFault),
    Question(QuestionFault),
    Reading(ReadFault),
}

// These four by hand: clauses name the error that a `?` makes, and a derived `From` promises none.
impl From<SheetFault> for RecordFault {
    ghost from_gives = { λ f r. r ≡ Sheet f };

    fn from(fault: SheetFault) -> RecordFault {
        RecordFault::Sheet(fault)
    }
}

impl From<PartFault> for RecordFault {
    ghost from_gives = { λ f r. r ≡ Part f };

    fn from(fault: PartFault) -> RecordFault {
        RecordFault::Part(fault)
    }
}

impl From<QuestionFault> for RecordFault {
    ghost from_gives = { λ f r. r ≡ Question f };

    fn from(fault: QuestionFault) -> RecordFault {
        RecordFault::Question(fault)
    }
}

impl From<ReadFault> for RecordFault {
    ghost from_gives = { λ f r. r ≡ Reading f };

    fn from(fault: ReadFault) -> RecordFault {
        RecordFault::Reading(fault)
    }
}

impl RecordFault {
    pub fn number(self) -> u8
        ensures { result ≡ numbers.number self }
    {
        match self {
            RecordFault::Sheet(fault) => fault.number(),
            RecordFault::Part(fault) => fault.number(),
            RecordFault::Question(fault) => fault.number(),
            RecordFault::Reading(fault) => fault.number(),
        }
    }

    pub fn layer(self) -> Layer
        ensures { result ≡ numbers.layer self }
    {
        match self {
            RecordFault::Sheet(fault) => fault.layer(),
            RecordFault::Part(_) => Layer::Part,
            RecordFault::Question(_) => Layer::Question,
            RecordFault::Reading(_) => Layer::Record,
        }
    }

    // The slot of the refused call, where it names one.
    pub fn slot(self) -> Option<u8>
        ensures { result ≡ numbers.slot self }
    {
        match self {
            RecordFault::Sheet(fault) => fault.slot,
            _ => None,
        }
    }
}
