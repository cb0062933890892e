// An effect row.
ghost use Rattle.std.specs.Prelude.{◌≡◌, ◌^◌, ◌≤◌, unsigned_abs};
ghost use Rattle.sheet.specs.Totals.{of_kind};

use loads::{EffectKind, LoadType};

#[derive(Clone, Copy, Debug, PartialEq, Eq)]
pub struct Row {
    pub load: LoadType,
    pub kind: EffectKind,
    // of a kip-foot, or of a kip
    pub sixteenths: i32,
}

impl Row {
    // The row's sixteenths where it is of this kind, else 0.
    pub(crate) fn of_kind(&self, kind: EffectKind) -> i64
        ensures value { result ≡ of_kind kind self.now }
        ensures bound { unsigned_abs result ≤ 2 ^ 31 }
    {
        if self.kind == kind {
            i64::from(self.sixteenths)
        } else {
            0
        }
    }
}
