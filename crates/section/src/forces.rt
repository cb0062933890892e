// The forces that a part gives at a level.
ghost use Rattle.std.specs.Prelude.{◌≡◌};
ghost use Rattle.section.specs.Adding.{forces_sum};

use crate::resultants::Resultants;
use std::ops::{Add, AddAssign};

#[derive(Clone, Copy, Debug, Default, PartialEq, Eq)]
pub struct Forces {
    // of the strips above the level and of those below it
    pub above: u64,
    pub below: u64,
}

// Total, modulo 2^64; what parts give together is far below.
impl Add for Forces {
    type Output = Forces;

    ghost add_gives = { λ a b r. r ≡ forces_sum a b };

    fn add(self, other: Forces) -> Forces {
        Forces {
            above: self.above.wrapping_add(other.above),
            below: self.below.wrapping_add(other.below),
        }
    }
}

impl AddAssign for Forces {
    ghost add_assign_gives = { λ a b r. r ≡ forces_sum a b };

    fn add_assign(&mut self, other: Forces) {
        *self = *self + other;
    }
}

impl From<Resultants> for Forces {
    ghost from_gives = { λ r f. f ≡ record { above = r.above; below = r.below } };

    fn from(at: Resultants) -> Forces {
        Forces {
            above: at.above,
            below: at.below,
        }
    }
}
