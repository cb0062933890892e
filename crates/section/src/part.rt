// A part of a section, of any kind: what each of its strips pushes and pulls with.
ghost use Rattle.std.specs.Prelude.{ℕ, min};
ghost use Rattle.section.specs.Parts.{Lawful, IsDepth, IsForces, IsResultants};

use crate::forces::Forces;
use crate::resultants::Resultants;
use crate::sense::Sense;

pub trait Part {
    // the strength in compression of each strip
    ghost pushes: { Self → ℕ → ℕ };

    // the strength in tension of each strip
    ghost pulls: { Self → ℕ → ℕ };

    // what holds of every part
    ghost laws: { Lawful pushes pulls };

    // The least level below which no strip pushes or pulls.
    fn depth(&self) -> u16
        ensures { IsDepth (pushes self.now) (pulls self.now) result };

    // The forces above and below a level and the moment about it; a level past 4,096 is read as 4,096. Each clause says so: a type of levels up to
    // 4,096 would be no plainer, as callers have a `u16` and would make one first.
    fn resultants(&self, sense: Sense, level: u16) -> Resultants
        ensures { IsResultants sense (pushes self.now) (pulls self.now) (min level 4096) result };

    // The forces of `resultants` alone, which a kind may tell faster than with the moment: a search for the axis asks for them at each of its levels,
    // and a bending question takes twice as long where a deck tells them by its resultants (docs/SPEED.md).
    fn forces(&self, sense: Sense, level: u16) -> Forces
        ensures { IsForces sense (pushes self.now) (pulls self.now) (min level 4096) result }
    {
        Forces::from(self.resultants(sense, level))
    }
}
