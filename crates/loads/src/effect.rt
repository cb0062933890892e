// A load effect at the section, and its value in whole sixteenths.
ghost use Rattle.std.specs.Prelude.{◌≡◌};
ghost use Rattle.loads.specs.Values.{judged, Judges, judged_sixteenths, IsSixteenths};
ghost use Rattle.loads.specs.Kinds.{value_of, kind_of};

use crate::kind::EffectKind;
use faults::ValueFault;
use std::num::saturating_f64_to_i32;

#[derive(Clone, Copy, Debug, PartialEq)]
pub enum Effect {
    // kip-feet
    Moment(f64),
    // kips
    Shear(f64),
}

// `x` in whole sixteenths: both steps are exact for |x| ≤ 131,072.
fn sixteenths(x: f64) -> Result<i32, ValueFault>
    ensures value { result ≡ judged x }
    ensures means { Judges x result }
{
    // Two comparisons, and no range's `contains`, which would be no plainer: here one sees that a NaN passes neither.
    if -131072.0 <= x && x <= 131072.0 {
        let y = x * 16.0;
        let n = saturating_f64_to_i32(y);
        if f64::from(n) == y {
            Ok(n)
        } else {
            Err(ValueFault::NotSixteenths)
        }
    } else {
        Err(ValueFault::OutOfRange)
    }
}

// The float that is `n` sixteenths, exactly.
fn from_sixteenths(n: i32) -> f64
    ensures value { IsSixteenths n result }
    ensures back { judged result ≡ judged_sixteenths n }
{
    f64::from(n) / 16.0
}

impl Effect {
    // The effect of this kind that is `n` sixteenths.
    pub fn from_sixteenths(kind: EffectKind, n: i32) -> Effect
        ensures kind { kind_of result ≡ kind }
        ensures value { IsSixteenths n (value_of result) }
        ensures back { judged (value_of result) ≡ judged_sixteenths n }
    {
        match kind {
            EffectKind::Moment => Effect::Moment(from_sixteenths(n)),
            EffectKind::Shear => Effect::Shear(from_sixteenths(n)),
        }
    }

    pub fn kind(self) -> EffectKind
        ensures { result ≡ kind_of self }
    {
        match self {
            Effect::Moment(_) => EffectKind::Moment,
            Effect::Shear(_) => EffectKind::Shear,
        }
    }

    // The value in whole sixteenths; refused with 7 where it is no number or beyond 131,072 in
    // magnitude, with 8 where it is no multiple of 1/16.
    pub fn sixteenths(self) -> Result<i32, ValueFault>
        ensures value { result ≡ judged (value_of self) }
        ensures means { Judges (value_of self) result }
    {
        match self {
            Effect::Moment(x) | Effect::Shear(x) => sixteenths(x),
        }
    }
}
