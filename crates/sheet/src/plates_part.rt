// The plates of a sheet as a part: they push and pull alike, in either sense.
ghost use Rattle.sheet.specs.PlateLaws.{sheet_strips, plates_laws};

use crate::held::Sheet;
use section::{Forces, LOWEST, Part, Resultants, Sense};

impl Part for Sheet {
    ghost pushes = { sheet_strips };

    ghost pulls = { sheet_strips };

    ghost laws = { plates_laws };

    fn depth(&self) -> u16 {
        // every plate has a strip with strength, and ends by level 4,096
        self.plates.foot.unwrap_or(0) as u16
    }

    // Over the measures, as the forces are: with a block made of each standing plate a bending question takes half as long again.
    fn resultants(&self, sense: Sense, level: u16) -> Resultants {
        let forces = self.forces(sense, level);
        let level = level.min(LOWEST);
        let moment = (0..24)
            .map(|slot| self.plates.measures.moment(slot, level))
            .sum();
        Resultants {
            above: forces.above,
            below: forces.below,
            moment,
        }
    }

    // What is not above the level is below it.
    fn forces(&self, _sense: Sense, level: u16) -> Forces {
        // by the slots' indices: a zip of the measures' three arrays would be no plainer
        let above: u64 = (0..24)
            .map(|slot| self.plates.measures.force_above(slot, level))
            .sum();
        Forces {
            above,
            below: self.plates.total_force() - above,
        }
    }
}
