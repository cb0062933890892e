//! A sheet: what stands in the slots of one section, the changes to it, and their refusals.
#![tactic(auto)]

mod changes;
mod held;
mod measures;
mod plate;
mod plates;
mod plates_part;
mod role_slots;
mod row;
mod rows;
mod slot;
mod slot_numbers;
mod slots;
mod telling;
#[cfg(test)]
mod tests;

pub use held::Sheet;
pub use plate::{Plate, PlateInput, Role};
pub use row::Row;
