// What a part gives at a level. It holds no `Forces`: `at.forces.above` at each use would be no plainer, for one shorter `+`.
ghost use Rattle.std.specs.Prelude.{◌≡◌};
ghost use Rattle.section.specs.Adding.{resultants_sum};

use std::ops::{Add, AddAssign};

#[derive(Clone, Copy, Debug, Default, PartialEq, Eq)]
pub struct Resultants {
    // the forces of the strips above the level and of those below it
    pub above: u64,
    pub below: u64,
    // the plastic moment, in force units at half a strip
    pub moment: u64,
}

// Total, modulo 2^64; what parts give together is far below.
impl Add for Resultants {
    type Output = Resultants;

    ghost add_gives = { λ a b r. r ≡ resultants_sum a b };

    fn add(self, other: Resultants) -> Resultants {
        Resultants {
            above: self.above.wrapping_add(other.above),
            below: self.below.wrapping_add(other.below),
            moment: self.moment.wrapping_add(other.moment),
        }
    }
}

impl AddAssign for Resultants {
    ghost add_assign_gives = { λ a b r. r ≡ resultants_sum a b };

    fn add_assign(&mut self, other: Resultants) {
        *self = *self + other;
    }
}
