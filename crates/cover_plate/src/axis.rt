// The plastic neutral axis of two cover plates, found as for every pair of parts.
ghost use Rattle.std.specs.Prelude.{◌<◌};
ghost use Rattle.section.specs.Strips.{◌⊕◌};
ghost use Rattle.section.specs.Axis.{IsAxis};
ghost use Rattle.cover_plate.specs.Covers.{cover_strips};

use crate::cover::CoverPlate;
use section::{Axis, Sense, plastic_axis};

// The axis of the two plates together. A plate has some
// strength in its first strip, so that there always is one.
#[tactic(auto, using(crate::proofs::Steel::pair_found))]
pub fn pair_axis(first: &CoverPlate, second: &CoverPlate, sense: Sense) -> Axis
    ensures axis { IsAxis sense (cover_strips first.now ⊕ cover_strips second.now) (cover_strips first.now ⊕ cover_strips second.now) result }
    ensures some { 0 < result.moment }
{
    plastic_axis(first, second, sense).unwrap()
}
