// The number of shear studs.
ghost use Rattle.std.specs.Prelude.{◌≡◌, ◌^◌, ◌≤◌, ◌↔◌, IsTrue};
ghost use Rattle.sheet.specs.Ledger.{ledger};
ghost use Rattle.questions.specs.Studs.{StudFits, IsStudForce, IsCount, interface_force, AnswersStuds};

use crate::square_root::whole_root;
use crate::stud::{Stud, StudAnswer};
use faults::QuestionFault;
use section::{LOWEST, Part, Sense};
use sheet::Sheet;

// The resistance of one stud, and how many carry over the lesser of the part's total push and the
// plates' total pull; refused with 14.
#[tactic(auto, using(crate::proofs::StudCounts::all_above, crate::proofs::StudCounts::all_below))]
pub fn studs<P: Part>(sheet: &Sheet, part: &P, stud: Stud) -> Result<StudAnswer, QuestionFault>
    ensures { AnswersStuds (ledger sheet.now) (P.pushes part.now) stud result }
{
    if !stud.is_lawful() {
        return Err(QuestionFault::StudLimits);
    }
    let force = stud.force();
    // at the lowest level all strips are above, at level 0 all below
    let push = part.forces(Sense::Sagging, LOWEST).above;
    let pull = sheet.forces(Sense::Sagging, 0).below;
    Ok(StudAnswer {
        force,
        count: count(force, push.min(pull)),
    })
}

impl Stud {
    // Whether its measures are within their limits. Public, and so it stays; a type of a judged stud, made and read in `studs` alone, would be no plainer.
    pub fn is_lawful(&self) -> bool
        ensures { IsTrue result ↔ StudFits self.now }
    {
        let sized = (100..=1000).contains(&self.area);
        let steel = (50_000..=80_000).contains(&self.fu);
        let concrete = (2000..=10_000).contains(&self.fc);
        let stiff = (1_000_000..=10_000_000).contains(&self.ec);
        sized && steel && concrete && stiff
    }

    // Q, rounded down to pounds.
    fn force(&self) -> u64
        requires { StudFits self.now }
        ensures force { IsStudForce self.now result }
        ensures some { 1 ≤ result }
        ensures small { result ≤ 80000 }
    {
        let area = u64::from(self.area);
        let root = whole_root(u64::from(self.fc) * u64::from(self.ec));
        (area * root / 2000).min(area * u64::from(self.fu) / 1000)
    }
}

// The least number of studs of a force that carry the force over.
fn count(force: u64, over: u64) -> u64
    requires some { 1 ≤ force }
    requires small { force ≤ 80000 }
    requires light { over ≤ 2 ^ 36 }
    ensures { IsCount force over result }
{
    (100 * over).div_ceil(85 * force * 256)
}
