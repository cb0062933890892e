// The plastic neutral axis of a sheet's plates with one further part.
ghost use Rattle.section.specs.Axis.{AxisAnswer};
ghost use Rattle.sheet.specs.Ledger.{ledger};
ghost use Rattle.questions.specs.Together.{with_plates, OnlyAxis};

use faults::QuestionFault;
use section::{Axis, Part, Sense, plastic_axis};
use sheet::Sheet;

// Level, plastic moment and imbalance at the axis; refused with 11 where the smallest plastic
// moment is 0.
pub fn axis<P: Part>(sheet: &Sheet, part: &P, sense: Sense) -> Result<Axis, QuestionFault>
    ensures answer { AxisAnswer sense (with_plates (ledger sheet.now) (P.pushes part.now)) (with_plates (ledger sheet.now) (P.pulls part.now)) result }
    ensures only { OnlyAxis sense (with_plates (ledger sheet.now) (P.pushes part.now)) (with_plates (ledger sheet.now) (P.pulls part.now)) result }
{
    plastic_axis(sheet, part, sense)
}
