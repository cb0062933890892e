// A new sheet, and the changes to it.
ghost use Rattle.std.specs.Prelude.{◌≡◌};
ghost use Rattle.loads.specs.Values.{judged};
ghost use Rattle.loads.specs.Kinds.{value_of, kind_of};
ghost use Rattle.sheet.specs.Ledger as calls;
ghost use Rattle.sheet.specs.Ledger.{blank, ledger, after, Refuses, Answers};

use crate::held::Sheet;
use crate::plate::{Plate, PlateInput};
use crate::plates::Plates;
use crate::row::Row;
use crate::rows::Rows;
use faults::{SheetFault, SheetReason};
use loads::{Effect, LoadType};
use section::STRONGEST;

impl Sheet {
    pub fn new() -> Sheet
        ensures { ledger result ≡ blank }
    {
        Sheet {
            plates: Plates::new(),
            rows: Rows::new(),
        }
    }

    // Each change has two clauses, its answer and the slots after it: one readable fact each.

    // Puts a plate into a plate slot; refused with 1, 2, 4, 5 or 6.
    pub fn place(&mut self, slot: u8, plate: PlateInput) -> Result<(), SheetFault>
        ensures answer { Answers (ledger self.old) (calls.place slot plate) result }
        ensures slots { ledger self.new ≡ after (ledger self.old) (calls.place slot plate) }
    {
        self.try_place(slot, plate)
            .map_err(|fault| fault.at_slot(slot))
    }

    // Takes the plate out of a plate slot; refused with 1 or 3.
    pub fn lift(&mut self, slot: u8) -> Result<(), SheetFault>
        ensures answer { Answers (ledger self.old) (calls.lift slot) result }
        ensures slots { ledger self.new ≡ after (ledger self.old) (calls.lift slot) }
    {
        let slot = self.plates.slots.full(slot)?;
        self.plates.take_out(slot);
        Ok(())
    }

    // Adds n to the top of every standing plate; refused with 9.
    pub fn lower(&mut self, n: u16) -> Result<(), SheetFault>
        ensures answer { Answers (ledger self.old) (calls.lower n) result }
        ensures slots { ledger self.new ≡ after (ledger self.old) (calls.lower n) }
    {
        if self.plates.would_pass(n) {
            return Err(SheetFault::new(SheetReason::TooLow));
        }
        self.plates.lower(n);
        Ok(())
    }

    // Puts a row into an effect slot; refused with 1, 2, 7 or 8.
    pub fn enter(&mut self, slot: u8, load: LoadType, effect: Effect) -> Result<(), SheetFault>
        ensures answer { Answers (ledger self.old) (calls.enter slot load (kind_of effect) (judged (value_of effect))) result }
        ensures slots { ledger self.new ≡ after (ledger self.old) (calls.enter slot load (kind_of effect) (judged (value_of effect))) }
    {
        self.try_enter(slot, load, effect)
            .map_err(|fault| fault.at_slot(slot))
    }

    // Takes the row out of an effect slot; refused with 1 or 3.
    pub fn strike(&mut self, slot: u8) -> Result<(), SheetFault>
        ensures answer { Answers (ledger self.old) (calls.strike slot) result }
        ensures slots { ledger self.new ≡ after (ledger self.old) (calls.strike slot) }
    {
        let slot = self.rows.slots.full(slot)?;
        self.rows.take_out(slot);
        Ok(())
    }

    // `place` and `enter` add the slot behind the two below: added at each refusal it would stand three times, and be no plainer.

    fn try_place(&mut self, slot: u8, plate: PlateInput) -> Result<(), SheetFault>
        ensures answer { Refuses (ledger self.old) (calls.place slot plate) result }
        ensures slots { ledger self.new ≡ after (ledger self.old) (calls.place slot plate) }
    {
        let slot = self.plates.slots.free(slot)?;
        let plate = Plate::try_from(plate)?;
        if self.plates.has_role(plate.role) {
            return Err(SheetFault::new(SheetReason::RoleStands));
        }
        if self.plates.total_force() + plate.force() > STRONGEST {
            return Err(SheetFault::new(SheetReason::TooStrong));
        }
        self.plates.put(slot, plate);
        Ok(())
    }

    fn try_enter(&mut self, slot: u8, load: LoadType, effect: Effect) -> Result<(), SheetFault>
        ensures answer { Refuses (ledger self.old) (calls.enter slot load (kind_of effect) (judged (value_of effect))) result }
        ensures slots { ledger self.new ≡ after (ledger self.old) (calls.enter slot load (kind_of effect) (judged (value_of effect))) }
    {
        let slot = self.rows.slots.free(slot)?;
        let sixteenths = effect.sixteenths()?;
        self.rows.put(
            slot,
            Row {
                load,
                kind: effect.kind(),
                sixteenths,
            },
        );
        Ok(())
    }
}
