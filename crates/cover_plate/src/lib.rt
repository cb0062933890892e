//! A kind of part of its own: a cover plate that stands on no sheet, beside the section's parts.
#![tactic(auto)]

mod axis;
mod cover;
mod covers;

pub use axis::pair_axis;
pub use cover::CoverPlate;
