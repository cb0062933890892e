// Making a cover plate, and a cover plate as a part.
ghost use Rattle.std.specs.Prelude.{◌≡◌, ◌*◌};
ghost use Rattle.cover_plate.specs.Covers.{cover_strips, CoverMade};
ghost use Rattle.cover_plate.specs.CoverLaws.{cover_laws};

use crate::cover::CoverPlate;
use section::{BROADEST, Block, GREATEST_YIELD, LEAST_YIELD, Part, Resultants, Sense};

impl CoverPlate {
    // The plate of these measures; none where one is outside its limits, or the plate yields at
    // more than 2^36. An `Option`: no fault of the library is a cover plate's.
    pub fn new(top: u16, breadth: u16, height: u16, fy: u32) -> Option<CoverPlate>
        ensures { CoverMade top breadth height fy result }
    {
        if !(1..=BROADEST).contains(&breadth) || height < 1 {
            return None;
        }
        if !(LEAST_YIELD..=GREATEST_YIELD).contains(&fy) {
            return None;
        }
        // its strips end by level 4,096 and yield at 2^36 together at most, as those of every block; the block is made anew where it is asked, since
        // kept beside the measures it would hold each of them twice
        Block::new(top, height, u64::from(breadth) * u64::from(fy))?;
        Some(CoverPlate {
            top,
            breadth,
            height,
            fy,
        })
    }

    // Its strips as a block, each with the force breadth × yield. A sheet's plates make none: they are summed over their measures.
    fn block(&self) -> Block
        ensures top { result.top ≡ self.now.top }
        ensures height { result.height ≡ self.now.height }
        ensures strength { result.strength ≡ self.now.breadth * self.now.fy }
    {
        Block::new(
            self.top,
            self.height,
            u64::from(self.breadth) * u64::from(self.fy),
        )
        .unwrap()
    }
}

impl Part for CoverPlate {
    ghost pushes = { cover_strips };

    ghost pulls = { cover_strips };

    ghost laws = { cover_laws };

    fn depth(&self) -> u16 {
        self.block().depth()
    }

    fn resultants(&self, _sense: Sense, level: u16) -> Resultants {
        self.block().resultants(level)
    }
}
