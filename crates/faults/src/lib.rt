//! Every refusal: its number, the layer it arose in, the slot of the refused call, and the place of its command.
//!
//! `number`, `layer` and `slot` are methods and no trait, as nothing is generic over faults; `u8::from(fault)` would not say which number it is.
//! Numbers stand in a `match` of each: as discriminants 15 could not stand twice, and none stands beside a case that holds a fault, so that half of
//! the table would have one form and half the other, which is no plainer.
#![tactic(auto)]

mod layer;
mod part;
mod place;
mod question;
mod reading;
mod recorded;
mod sheet;
#[cfg(test)]
mod tests;
mod value;

pub use layer::Layer;
pub use part::PartFault;
pub use place::Fault;
pub use question::QuestionFault;
pub use reading::ReadFault;
pub use recorded::RecordFault;
pub use sheet::{SheetFault, SheetReason};
pub use value::ValueFault;
