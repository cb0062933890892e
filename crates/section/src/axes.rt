// The search for the plastic neutral axis of two parts together.
ghost use Rattle.std.specs.Prelude.{◌^◌, ◌≤◌, min};
ghost use Rattle.section.specs.Strips.{◌⊕◌};
ghost use Rattle.section.specs.Parts.{IsResultants};
ghost use Rattle.section.specs.Axis.{AxisAnswer, Judged};

use crate::axis::Axis;
use crate::part::Part;
use crate::resultants::Resultants;
use crate::sense::Sense;
use faults::QuestionFault;

// What two parts give together at a level.
fn together<P: Part, Q: Part>(first: &P, second: &Q, sense: Sense, level: u16) -> Resultants
    ensures is { IsResultants sense (P.Part.pushes first.now ⊕ Q.Part.pushes second.now) (P.Part.pulls first.now ⊕ Q.Part.pulls second.now) (min level 4096) result }
    ensures small { (result.above ≤ 2 ^ 37) × (result.below ≤ 2 ^ 37) × (result.moment ≤ 2 ^ 51) }
{
    first.resultants(sense, level) + second.resultants(sense, level)
}

// The answer at the axis; refused with 11 where its moment is 0.
fn judge(level: u16, at: Resultants) -> Result<Axis, QuestionFault>
    ensures { Judged level at result }
{
    if at.moment == 0 {
        return Err(QuestionFault::NoMoment);
    }
    Ok(Axis {
        level,
        moment: at.moment,
        imbalance: at.above.abs_diff(at.below),
    })
}

// The first level with the smallest plastic moment of the two parts together, that moment, and the imbalance there; refused with 11 where the moment is 0.
pub fn plastic_axis<P: Part, Q: Part>(
    first: &P,
    second: &Q,
    sense: Sense,
) -> Result<Axis, QuestionFault>
    ensures { AxisAnswer sense (P.Part.pushes first.now ⊕ Q.Part.pushes second.now) (P.Part.pulls first.now ⊕ Q.Part.pulls second.now) result }
{
    // the moment falls up to the first level with no less force above than below, or to the one before it
    let mut low = 0;
    // at the depth all force is above
    let mut high = first.depth().max(second.depth());
    // the forces at the level before `low`, once there is one
    let mut before = None;
    // a `while`: it halves a range of levels, and no list lies behind them that an iterator could go over
    while low < high {
        let middle = (low + high) / 2;
        let at = first.forces(sense, middle) + second.forces(sense, middle);
        if at.above < at.below {
            low = middle + 1;
            before = Some(at);
        } else {
            high = middle;
        }
    }
    let here = together(first, second, sense, low);
    if let Some(at) = before {
        // from one level to the next the moment changes by the force above less the force below, at both together
        let before = Resultants {
            above: at.above,
            below: at.below,
            moment: here.moment + (here.below + at.below) - (here.above + at.above),
        };
        if before.moment <= here.moment {
            return judge(low - 1, before);
        }
    }
    judge(low, here)
}
