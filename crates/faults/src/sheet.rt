// Faults of a change to a sheet.
ghost use Rattle.std.specs.Prelude.{◌≡◌, Some, None};
ghost use Rattle.faults.specs.declared.sheet.SheetReason.TheVariants.{Value};
ghost use Rattle.faults.specs.Numbers.{sheet_number, sheet_layer};

use crate::layer::Layer;
use crate::value::ValueFault;
use thiserror::Error;

// Why a change is refused.
#[derive(Clone, Copy, Debug, PartialEq, Eq, Error)]
pub enum SheetReason {
    // a slot past the last
    #[error("no such slot")]
    NoSlot,
    // a full slot that is to be filled
    #[error("the slot is full")]
    SlotFull,
    // an empty slot that is to be emptied
    #[error("the slot is empty")]
    SlotEmpty,
    // a plate's role, measure or yield outside its limits
    #[error("the plate is outside its limits")]
    PlateLimits,
    // a plate whose role stands already
    #[error("the role stands already")]
    RoleStands,
    // plates that would pass 2^36 together
    #[error("the plates would be too strong together")]
    TooStrong,
    // a value that is no number, out of range, or no multiple of 1/16
    #[error("the value is none that can be kept")]
    Value(ValueFault),
    // a lowered plate that would pass level 4,096
    #[error("a plate would go too low")]
    TooLow,
}

// A refused change: the reason, and the slot where the call names one.
#[derive(Clone, Copy, Debug, PartialEq, Eq, Error)]
#[error("refused with {}", self.number())]
pub struct SheetFault {
    pub reason: SheetReason,
    pub slot: Option<u8>,
}

// By hand: clauses name the error that a `?` makes, and a derived `From` promises none.
impl From<ValueFault> for SheetFault {
    ghost from_gives = { λ v r. r ≡ record { reason = Value v; slot = None } };

    fn from(fault: ValueFault) -> SheetFault {
        SheetFault {
            reason: SheetReason::Value(fault),
            slot: None,
        }
    }
}

impl SheetFault {
    // The fault of a call that names no slot, or does not say it yet.
    pub fn new(reason: SheetReason) -> SheetFault
        ensures { result ≡ record { reason = reason; slot = None } }
    {
        SheetFault { reason, slot: None }
    }

    // The same fault, of a call that names this slot.
    pub fn at_slot(self, slot: u8) -> SheetFault
        ensures { result ≡ record { reason = self.reason; slot = Some slot } }
    {
        SheetFault {
            slot: Some(slot),
            ..self
        }
    }

    pub fn number(self) -> u8
        ensures { result ≡ sheet_number self }
    {
        match self.reason {
            SheetReason::NoSlot => 1,
            SheetReason::SlotFull => 2,
            SheetReason::SlotEmpty => 3,
            SheetReason::PlateLimits => 4,
            SheetReason::RoleStands => 5,
            SheetReason::TooStrong => 6,
            SheetReason::Value(fault) => fault.number(),
            SheetReason::TooLow => 9,
        }
    }

    pub fn layer(self) -> Layer
        ensures { result ≡ sheet_layer self }
    {
        match self.reason {
            SheetReason::Value(_) => Layer::Value,
            _ => Layer::Sheet,
        }
    }
}
