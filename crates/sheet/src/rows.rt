// The effect slots.
ghost use Rattle.std.specs.Prelude.{◌≡◌, ◌^◌, ◌<◌, ◌≤◌, length, pos, Some, None, slice_index_or, slice_set, unsigned_abs};
ghost use Rattle.loads.specs.declared.load_type.LoadType.{LoadType as LoadTypes};
ghost use Rattle.loads.specs.declared.kind.EffectKind.TheVariants.{Moment, Shear};
ghost use Rattle.loads.specs.Factors.{index};
ghost use Rattle.sheet.specs.Slots.{empties};
ghost use Rattle.sheet.specs.Totals.{type_sum, type_sums, Small};

use crate::row::Row;
use crate::slot::Slot;
use crate::slots::Slots;
use loads::EffectKind;

#[derive(Clone, Copy)]
pub struct Rows {
    pub(crate) slots: Slots<Row, 64>,
    // the sums of the standing rows of each kind, for each load type by its index; two fields, since a call asks for one kind's four, and both are added
    // to, one of them 0: a `match` over the kind would be no plainer
    moments: [i64; 4],
    shears: [i64; 4],
    ghost small: { Small slots.items },
    ghost moments_summed: { moments ≡ type_sums Moment slots.items },
    ghost shears_summed: { shears ≡ type_sums Shear slots.items },
}

impl Rows {
    pub(crate) fn new() -> Rows
        ensures { result.slots.items ≡ empties 64 }
    {
        Rows {
            slots: Slots::empty(),
            moments: [0; 4],
            shears: [0; 4],
        }
    }

    // Beside `put` and `take_out` of `Plates`: what they keep differs, and a trait of both tables, for one call in each change, would be no plainer.
    pub(crate) fn put(&mut self, slot: Slot<64>, row: Row)
        ensures { self.new.slots.items ≡ slice_set self.old.slots.items slot.index (Some row) }
    {
        self.take_out(slot);
        let load = usize::from(row.load);
        self.moments[load] += row.of_kind(EffectKind::Moment);
        self.shears[load] += row.of_kind(EffectKind::Shear);
        self.slots.set(slot, Some(row));
    }

    pub(crate) fn take_out(&mut self, slot: Slot<64>)
        ensures { self.new.slots.items ≡ slice_set self.old.slots.items slot.index None }
    {
        if let Some(row) = self.slots.get(slot) {
            let load = usize::from(row.load);
            self.moments[load] -= row.of_kind(EffectKind::Moment);
            self.shears[load] -= row.of_kind(EffectKind::Shear);
            self.slots.set(slot, None);
        }
    }

    // The sums of the standing rows of one kind, for each load type by its index. The bound is told
    // beside them: a struct of the four, for it to stand in, would only wrap the array.
    pub(crate) fn type_sums(&self, kind: EffectKind) -> [i64; 4]
        ensures value { (t : LoadTypes) → slice_index_or result (index t) (pos 0) ≡ type_sum t kind self.now.slots.items }
        ensures bound { (t : LoadTypes) → unsigned_abs (slice_index_or result (index t) (pos 0)) ≤ 2 ^ 37 }
    {
        match kind {
            EffectKind::Moment => self.moments,
            EffectKind::Shear => self.shears,
        }
    }
}
