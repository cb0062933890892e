// The plates that questions read.
ghost use Rattle.sheet.specs.Ledger.{ledger};
ghost use Rattle.questions.specs.Plates.{PlateAnswer};

use faults::QuestionFault;
use sheet::{Plate, Role, Sheet};

// The standing plate of a role; refused with 12 where there is none.
pub(crate) fn plate_of(sheet: &Sheet, role: Role) -> Result<Plate, QuestionFault>
    ensures { PlateAnswer (ledger sheet.now) role result }
{
    sheet.with_role(role).ok_or(QuestionFault::PlateMissing)
}
