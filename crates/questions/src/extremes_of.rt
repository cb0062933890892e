// The extremes of the factored sum, over all choices of load factors.
ghost use Rattle.std.specs.Prelude.{◌≡◌, ◌^◌, ◌≤◌, ◌+ℤ◌, unsigned_abs};
ghost use Rattle.loads.specs.Factors.{range};
ghost use Rattle.sheet.specs.Ledger.{ledger};
ghost use Rattle.questions.specs.Extremes.{IsExtremes, OnlyExtremes};
ghost use Rattle.questions.specs.Products.{least, greatest, Small};

use crate::answers::Extremes;
use loads::{EffectKind, LimitState, LoadType};
use sheet::Sheet;

// The extremes of the factored sum of the standing moments or shears.
pub fn extremes(sheet: &Sheet, state: &LimitState, kind: EffectKind) -> Extremes
    ensures answer { IsExtremes state.now.factors kind (ledger sheet.now).rows result }
    ensures only { OnlyExtremes state.now.factors kind (ledger sheet.now).rows result }
{
    // A type's factor goes to all its rows, so each type's extremes come from its sum alone. Four calls: a list of the load types beside the sums,
    // to go over both, would be no plainer.
    let [dc, dw, ll, ws] = sheet.type_sums(kind);
    let dc = type_extremes(state, LoadType::Dc, dc);
    let dw = type_extremes(state, LoadType::Dw, dw);
    let ll = type_extremes(state, LoadType::Ll, ll);
    let ws = type_extremes(state, LoadType::Ws, ws);
    Extremes {
        low: dc.low + dw.low + ll.low + ws.low,
        high: dc.high + dw.high + ll.high + ws.high,
    }
}

// The least and the greatest product of a load type's sum with a factor of its range.
fn type_extremes(state: &LimitState, load: LoadType, sum: i64) -> Extremes
    requires { unsigned_abs sum ≤ 2 ^ 37 }
    ensures low { result.low ≡ least (range state.now.factors load) sum }
    ensures high { result.high ≡ greatest (range state.now.factors load) sum }
    ensures small { (Small result.low) × (Small result.high) }
{
    let (low, high) = state.factors(load);
    let at_low = i64::from(low) * sum;
    let at_high = i64::from(high) * sum;
    Extremes {
        low: at_low.min(at_high),
        high: at_low.max(at_high),
    }
}
