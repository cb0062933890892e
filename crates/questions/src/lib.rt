//! Questions asked of a sheet.
#![tactic(auto)]

mod answers;
mod axis_of;
mod bending_of;
mod extremes_of;
mod plates;
mod shear_answer;
mod shear_of;
mod square_root;
mod stud;
mod studs_of;

pub use answers::{Bending, Extremes, Resistance, Verdict};
pub use axis_of::axis;
pub use bending_of::{bending, resistance};
pub use extremes_of::extremes;
pub use shear_answer::ShearAnswer;
pub use shear_of::{shear, shear_resistance, shear_verdict};
pub use square_root::whole_root;
pub use stud::{Stud, StudAnswer};
pub use studs_of::studs;
