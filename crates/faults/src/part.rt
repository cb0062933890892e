// Faults of a deck or a shape.
ghost use Rattle.std.specs.Prelude.{◌≡◌};
ghost use Rattle.faults.specs.Numbers.{part_number};

use thiserror::Error;

#[derive(Clone, Copy, Debug, PartialEq, Eq, Error)]
#[error("refused with {}", self.number())]
pub enum PartFault {
    // a measure outside its limits, a seventh layer, or a total past 2^36
    OutsideLimits,
}

impl PartFault {
    pub fn number(self) -> u8
        ensures { result ≡ part_number self }
    {
        match self {
            PartFault::OutsideLimits => 10,
        }
    }
}
