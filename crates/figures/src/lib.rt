//! Worked figures, each as a theorem on the definitions that the contracts cite: the function
//! that carries it does nothing.
#![tactic(auto)]

mod axes;
mod bending_of;
mod girders;
mod load_effects;
mod plates;
mod shear_of;
mod studs_of;

pub use axes::{composite, cracked, thin_plate};
pub use bending_of::bending;
pub use girders::{girder, slab};
pub use load_effects::{dead_and_live, opposed};
pub use plates::strongest_plate;
pub use shear_of::shear;
pub use studs_of::studs;
