// Faults of a load effect's value.
ghost use Rattle.std.specs.Prelude.{◌≡◌};
ghost use Rattle.faults.specs.Numbers.{value_number};

use thiserror::Error;

#[derive(Clone, Copy, Debug, PartialEq, Eq, Error)]
#[error("refused with {}", self.number())]
pub enum ValueFault {
    // no number, or beyond 131,072 in magnitude
    OutOfRange,
    // no multiple of 1/16
    NotSixteenths,
}

impl ValueFault {
    pub fn number(self) -> u8
        ensures { result ≡ value_number self }
    {
        match self {
            ValueFault::OutOfRange => 7,
            ValueFault::NotSixteenths => 8,
        }
    }
}
