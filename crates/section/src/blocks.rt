// Making a block, and what it gives at a level, with no loop over its strips.
ghost use Rattle.std.specs.Prelude.{◌≡◌, ◌+◌, ◌*◌, ◌≤◌, min};
ghost use Rattle.section.specs.declared.sense.Sense.{Sense as Senses};
ghost use Rattle.section.specs.Strips.{force_above, force_below};
ghost use Rattle.section.specs.Parts.{IsDepth, IsForces, IsResultants};
ghost use Rattle.section.specs.Blocks.{strips, BlockMade, IsAbove, IsBelow, IsBetween};

use crate::block::Block;
use crate::forces::Forces;
use crate::limits::{LOWEST, STRONGEST};
use crate::resultants::Resultants;
use crate::side::Side;

impl Block {
    // The block; none where it passes level 4,096 or a total force of 2^36.
    pub fn new(top: u16, height: u16, strength: u64) -> Option<Block>
        ensures { BlockMade top height strength result }
    {
        let total = strength.checked_mul(u64::from(height))?;
        if height > LOWEST || top > LOWEST - height || total > STRONGEST {
            return None;
        }
        Some(Block {
            top,
            height,
            strength,
        })
    }

    // A block of no strips.
    pub fn empty() -> Block
        ensures { result.height ≡ 0 }
    {
        Block {
            top: 0,
            height: 0,
            strength: 0,
        }
    }

    // The force of all its strips.
    pub fn total(&self) -> u64
        ensures { result ≡ self.now.strength * self.now.height }
    {
        self.strength * u64::from(self.height)
    }

    // The least level below which no strip has strength.
    pub fn depth(&self) -> u16
        ensures { IsDepth (strips self.now) (strips self.now) result }
    {
        if self.total() == 0 {
            0
        } else {
            self.top + self.height
        }
    }

    // The force and the moment about a level of those of its strips that lie on one side, by the ways from the level to their nearer and their farther end.
    fn between(&self, near: u64, far: u64) -> Side
        requires ordered { near ≤ far }
        requires short { far ≤ near + self.now.height }
        requires shallow { far ≤ 4096 }
        ensures { IsBetween self.now.strength near far (result.force, result.moment) }
    {
        let force = self.strength * (far - near);
        Side {
            force,
            moment: force * (far + near),
        }
    }

    // The force and the moment of its strips above a level; a level past 4,096 is read as 4,096. `below` is its mirror, and one function of
    // both, told by a flag which way to count, would be no plainer. The ways are taken in 64 bits: in 16 the compiler branches at each, and an axis of
    // two cover plates takes 1.6 times as long.
    pub fn above(&self, level: u16) -> Side
        ensures { IsAbove self.now (min level 4096) result }
    {
        let level = u64::from(level.min(LOWEST));
        let top = u64::from(self.top);
        let far = level.saturating_sub(top);
        let near = level.saturating_sub(top + u64::from(self.height));
        self.between(near, far)
    }

    // The force and the moment of its strips below a level; a level past 4,096 is read as 4,096.
    pub fn below(&self, level: u16) -> Side
        ensures { IsBelow self.now (min level 4096) result }
    {
        let level = u64::from(level.min(LOWEST));
        let top = u64::from(self.top);
        let far = (top + u64::from(self.height)).saturating_sub(level);
        let near = top.saturating_sub(level);
        self.between(near, far)
    }

    // The force alone of its strips above a level.
    pub fn force_above(&self, level: u16) -> u64
        ensures { result ≡ force_above (strips self.now) (min level 4096) }
    {
        self.above(level).force
    }

    // The force alone of its strips below a level.
    pub fn force_below(&self, level: u16) -> u64
        ensures { result ≡ force_below 4096 (strips self.now) (min level 4096) }
    {
        self.below(level).force
    }

    // The forces of its strips above and below a level, in either sense, where it pushes and pulls alike.
    pub fn forces(&self, level: u16) -> Forces
        ensures { (sense : Senses) → IsForces sense (strips self.now) (strips self.now) (min level 4096) result }
    {
        Forces {
            above: self.force_above(level),
            below: self.force_below(level),
        }
    }

    // What it gives at a level, in either sense, where it pushes and pulls alike.
    pub fn resultants(&self, level: u16) -> Resultants
        ensures { (sense : Senses) → IsResultants sense (strips self.now) (strips self.now) (min level 4096) result }
    {
        let above = self.above(level);
        let below = self.below(level);
        Resultants {
            above: above.force,
            below: below.force,
            moment: above.moment + below.moment,
        }
    }
}
