// What stands in a sheet's slots.
ghost use Rattle.std.specs.Prelude.{◌≡◌, ◌^◌, ◌≤◌, pos, slice_index_or, unsigned_abs};
ghost use Rattle.loads.specs.declared.load_type.LoadType.{LoadType as LoadTypes};
ghost use Rattle.loads.specs.Factors.{index};
ghost use Rattle.sheet.specs.Plates.{standing};
ghost use Rattle.sheet.specs.Totals.{type_sum};
ghost use Rattle.sheet.specs.Ledger.{ledger, Shows};

use crate::held::Sheet;
use crate::plate::{Plate, Role};
use crate::row::Row;
use crate::slot::Slot;
use faults::SheetFault;
use loads::EffectKind;

impl Sheet {
    // What stands in a plate slot; refused with 1.
    pub fn plate(&self, slot: u8) -> Result<Option<Plate>, SheetFault>
        ensures { Shows 24 (ledger self.now).plates slot result }
    {
        Ok(self.plates.slots.get(Slot::new(slot)?))
    }

    // The standing plate of a role, of several the one in the first slot.
    pub fn with_role(&self, role: Role) -> Option<Plate>
        ensures { result ≡ standing role (ledger self.now).plates }
    {
        self.plates.with_role(role)
    }

    // What stands in an effect slot; refused with 1.
    pub fn row(&self, slot: u8) -> Result<Option<Row>, SheetFault>
        ensures { Shows 64 (ledger self.now).rows slot result }
    {
        Ok(self.rows.slots.get(Slot::new(slot)?))
    }

    // The sums of the standing rows of one kind in sixteenths, for each load type by its index. The bound is told
    // beside them: a struct of the four, for it to stand in, would only wrap the array.
    pub fn type_sums(&self, kind: EffectKind) -> [i64; 4]
        ensures value { (t : LoadTypes) → slice_index_or result (index t) (pos 0) ≡ type_sum t kind (ledger self.now).rows }
        ensures bound { (t : LoadTypes) → unsigned_abs (slice_index_or result (index t) (pos 0)) ≤ 2 ^ 37 }
    {
        self.rows.type_sums(kind)
    }
}
