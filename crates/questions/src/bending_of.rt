// Bending of a sheet's plates with one further part, in sagging.
ghost use Rattle.std.specs.Prelude.{◌≡◌, ◌*◌, ◌^◌, ◌<◌, ◌≤◌, not, pos, IfOk, int_lt};
ghost use Rattle.sheet.specs.Ledger.{ledger};
ghost use Rattle.questions.specs.Extremes.{times};
ghost use Rattle.questions.specs.Bending.{nominal_moment, not_compact, brittle, ThreePlates, ResistanceAnswer, Judges, BendingAnswer};

use crate::answers::{Bending, Resistance, Verdict};
use crate::axis_of::axis;
use crate::extremes_of::extremes;
use crate::plates::plate_of;
use faults::QuestionFault;
use loads::{EffectKind, LimitState};
use section::{Axis, Part, Sense};
use sheet::{Plate, Role, Sheet};

// The bending resistance; refused with 11 where the smallest plastic moment is 0, then with 12
// where a flange or the web is missing. The bound is no ghost field of `Resistance`, whose fields are public: there it would be asked of
// whoever makes one.
#[tactic(auto, using(crate::proofs::Depths::axis_small))]
pub fn resistance<P: Part>(sheet: &Sheet, part: &P) -> Result<Resistance, QuestionFault>
    ensures answer { ResistanceAnswer (ledger sheet.now) (P.pushes part.now) (P.pulls part.now) result }
    ensures small { IfOk result (λ x. (x.mp ≤ 2 ^ 38) × (x.mn ≤ 2 ^ 38)) }
{
    let Axis { level, moment, .. } = axis(sheet, part, Sense::Sagging)?;
    let plates = PlateGirder::standing(sheet)?;
    let depth = sheet.depth().max(part.depth());
    let mp = moment / 8192;
    Ok(Resistance {
        level,
        mp,
        mn: nominal_moment(mp, level, depth),
        compact: plates.is_compact(level),
        ductile: is_ductile(level, depth),
    })
}

// The same with a verdict for a limit state.
pub fn bending<P: Part>(
    sheet: &Sheet,
    part: &P,
    state: &LimitState,
) -> Result<Bending, QuestionFault>
    ensures { BendingAnswer (ledger sheet.now) (P.pushes part.now) (P.pulls part.now) state.now.factors result }
{
    let found = resistance(sheet, part)?;
    let verdict = found.verdict(sheet, state);
    Ok(Bending {
        level: found.level,
        mp: found.mp,
        mn: found.mn,
        verdict,
    })
}

impl Resistance {
    // The first verdict that fits under a limit state.
    pub fn verdict(&self, sheet: &Sheet, state: &LimitState) -> Verdict
        ensures { Judges state.now.factors (ledger sheet.now).rows self.now result }
    {
        if !self.compact {
            return Verdict::NotCompact;
        }
        if !self.ductile {
            return Verdict::Brittle;
        }
        let sums = extremes(sheet, state, EffectKind::Moment);
        if exceeds(sums.high, self.mn) {
            Verdict::TooWeak
        } else {
            Verdict::Carries
        }
    }
}

// The plates that bending reads.
#[derive(Clone, Copy)]
struct PlateGirder {
    top: Plate,
    web: Plate,
    bottom: Plate,
}

impl PlateGirder {
    // The standing flanges and web; refused with 12 where one is missing.
    fn standing(sheet: &Sheet) -> Result<PlateGirder, QuestionFault>
        ensures { ThreePlates (ledger sheet.now) result }
    {
        Ok(PlateGirder {
            top: plate_of(sheet, Role::TopFlange)?,
            web: plate_of(sheet, Role::Web)?,
            bottom: plate_of(sheet, Role::BottomFlange)?,
        })
    }

    // Whether it is compact with the axis at a level.
    fn is_compact(&self, dp: u16) -> bool
        ensures { result ≡ not (not_compact self.now.top self.now.web self.now.bottom dp) }
    {
        let PlateGirder { top, web, bottom } = self;
        let strong = top.fy > 70_000 || bottom.fy > 70_000;
        let high = u32::from(web.height) > 150 * u32::from(web.breadth);
        let above = u128::from(dp.saturating_sub(web.top).min(web.height));
        let breadth = u128::from(web.breadth);
        let slender = 4 * (above * above) * u128::from(top.fy) > 409_990_400 * (breadth * breadth);
        !(strong || high || slender)
    }
}

fn nominal_moment(mp: u64, dp: u16, dt: u16) -> u64
    requires small { mp ≤ 2 ^ 38 }
    requires some { 0 < dt }
    ensures value { result ≡ nominal_moment mp dp dt }
    ensures bound { result ≤ mp }
{
    let dp = u64::from(dp);
    let dt = u64::from(dt);
    if 10 * dp <= dt {
        return mp;
    }
    mp * (107 * dt).saturating_sub(70 * dp) / (100 * dt)
}

fn is_ductile(dp: u16, dt: u16) -> bool
    ensures { result ≡ not (brittle dp dt) }
{
    100 * u32::from(dp) <= 42 * u32::from(dt)
}

// Whether a factored sum exceeds the resistance: hundredths of a sixteenth of a kip-foot against
// pound-inches.
fn exceeds(sum: i64, mn: u64) -> bool
    ensures { result ≡ int_lt (pos (100 * mn)) (times 750 sum) }
{
    i128::from(sum) * 750 > 100 * i128::from(mn)
}
