// Shear of a sheet's web.
ghost use Rattle.std.specs.Prelude.{◌≡◌, ℕ, ◌*◌, ◌/◌, ◌≤◌};
ghost use Rattle.sheet.specs.Ledger.{ledger};
ghost use Rattle.questions.specs.Roots.{IsRoot};
ghost use Rattle.questions.specs.Shear.{BucklingAnswer, WebFits, IsShearForce, ShearResistanceAnswer, JudgesShear, IsShear};

use crate::answers::{Extremes, Verdict};
use crate::extremes_of::extremes;
use crate::plates::plate_of;
use crate::shear_answer::ShearAnswer;
use crate::square_root::whole_root;
use faults::QuestionFault;
use loads::{EffectKind, LimitState};
use sheet::{Plate, Role, Sheet};

// The web's resistance in force units, with or without stiffeners; refused with 12 where the web
// is missing, then with 13 where the spacing is outside its range.
#[tactic(auto, using(crate::proofs::Webs::web_fits))]
pub fn shear_resistance(sheet: &Sheet, spacing: Option<u16>) -> Result<u64, QuestionFault>
    ensures { ShearResistanceAnswer (ledger sheet.now) spacing result }
{
    let web = plate_of(sheet, Role::Web)?;
    let k = buckling(web.height, spacing)?;
    Ok(web_resistance(&web, k))
}

// The same with a verdict for a limit state.
pub fn shear(
    sheet: &Sheet,
    spacing: Option<u16>,
    state: &LimitState,
) -> Result<ShearAnswer, QuestionFault>
    ensures { IsShear (ledger sheet.now) spacing state.now.factors result }
{
    let resistance = shear_resistance(sheet, spacing)?;
    let verdict = shear_verdict(sheet, resistance, state);
    Ok(ShearAnswer {
        resistance,
        verdict,
    })
}

// Whether some choice of load factors exceeds a resistance, either way.
pub fn shear_verdict(sheet: &Sheet, resistance: u64, state: &LimitState) -> Verdict
    ensures { JudgesShear state.now.factors (ledger sheet.now).rows resistance result }
{
    let Extremes { low, high } = extremes(sheet, state, EffectKind::Shear);
    let largest = low.unsigned_abs().max(high.unsigned_abs());
    if u128::from(largest) * 16_000 > 100 * u128::from(resistance) {
        Verdict::TooWeak
    } else {
        Verdict::Carries
    }
}

// The buckling coefficient in hundredths.
fn buckling(height: u16, spacing: Option<u16>) -> Result<u64, QuestionFault>
    requires { 1 ≤ height }
    ensures { BucklingAnswer height spacing result }
{
    let Some(spacing) = spacing else {
        return Ok(500);
    };
    let height = u64::from(height);
    let spacing = u64::from(spacing);
    if height > 4 * spacing || spacing > 3 * height {
        return Err(QuestionFault::SpacingLimits);
    }
    Ok(500 + 500 * (height * height) / (spacing * spacing))
}

fn web_resistance(web: &Plate, k: u64) -> u64
    requires fits { WebFits web.now }
    requires small { k ≤ 8500 }
    ensures { IsShearForce web.now.height web.now.breadth web.now.fy k result }
{
    let height = u64::from(web.height);
    let breadth = u64::from(web.breadth);
    let fy = u64::from(web.fy);
    let slenderness = height * height * fy;
    if slenderness <= 363_776 * k * (breadth * breadth) {
        return 58 * fy * height * breadth / 100;
    }
    if slenderness <= 568_400 * k * (breadth * breadth) {
        let root = whole_root(29_000_000 * k * fy);
        return 6496 * (breadth * breadth) * root / 100_000;
    }
    264_074 * k * (breadth * breadth * breadth) / height
}
