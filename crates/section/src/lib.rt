//! The strips of a section's parts, the forces and the plastic moment that they give at a level, and the plastic neutral axis of two parts together.
#![tactic(auto)]

mod axes;
mod axis;
mod block;
mod blocks;
mod forces;
mod limits;
mod part;
mod resultants;
mod sense;
mod side;

pub use axes::plastic_axis;
pub use axis::Axis;
pub use block::Block;
pub use forces::Forces;
pub use limits::{BROADEST, GREATEST_YIELD, LEAST_YIELD, LOWEST, STRONGEST};
pub use part::Part;
pub use resultants::Resultants;
pub use sense::Sense;
pub use side::Side;
