// A part of one of two kinds, so that kinds can stand in one list. An enum of its own: an impl of `Part` for a library's type (`Result`,
// `either::Either`) could stand only in `section`, which knows no kinds; it would be no plainer.
ghost use Rattle.kinds.specs.Eithers.{of_either, either_laws};

use section::{Forces, Part, Resultants, Sense};

#[derive(Clone, Debug, Drop, PartialEq, Eq)]
pub enum Either<P, Q> {
    First(P),
    Second(Q),
}

impl<P: Part, Q: Part> Part for Either<P, Q> {
    ghost pushes = { of_either P.Part.pushes Q.Part.pushes };

    ghost pulls = { of_either P.Part.pulls Q.Part.pulls };

    ghost laws = { either_laws P.Part.laws Q.Part.laws };

    fn depth(&self) -> u16 {
        match self {
            Either::First(part) => part.depth(),
            Either::Second(part) => part.depth(),
        }
    }

    fn resultants(&self, sense: Sense, level: u16) -> Resultants {
        match self {
            Either::First(part) => part.resultants(sense, level),
            Either::Second(part) => part.resultants(sense, level),
        }
    }

    fn forces(&self, sense: Sense, level: u16) -> Forces {
        match self {
            Either::First(part) => part.forces(sense, level),
            Either::Second(part) => part.forces(sense, level),
        }
    }
}
