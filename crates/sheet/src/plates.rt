// The plate slots.
ghost use Rattle.std.specs.Prelude.{◌≡◌, ◌%◌, ◌^◌, ◌<◌, ◌≤◌, false, length, position, Some, None, slice_set};
ghost use Rattle.sheet.specs.Slots.{empties};
ghost use Rattle.sheet.specs.RoleSlots.{Noted};
ghost use Rattle.sheet.specs.Measures.{Measured};
ghost use Rattle.sheet.specs.Plates.{clash_in, total_force, stands, standing, lowest_foot, passes, lowered};

use crate::measures::Measures;
use crate::plate::{Plate, Role};
use crate::role_slots::RoleSlots;
use crate::slot::Slot;
use crate::slots::Slots;
use section::LOWEST;

#[derive(Clone, Copy)]
pub struct Plates {
    pub(crate) slots: Slots<Plate, 24>,
    // the sum of breadth × height × yield over the standing plates, kept so that placing has no loop; modulo 2^64: no bound is asked of them here
    total: u64,
    // the greatest top + height of the standing plates, kept so that neither a question nor lowering has to look for it
    pub(crate) foot: Option<u32>,
    roles: RoleSlots,
    pub(crate) measures: Measures,
    ghost totalled: { total ≡ total_force slots.items % 2 ^ 64 },
    ghost footed: { foot ≡ lowest_foot slots.items },
    ghost placed: { Noted roles slots.items },
    ghost measured: { Measured measures slots.items },
}

// The first slot whose plate a role may not join.
fn first_slot(slots: &[Option<Plate>], role: Role) -> Option<usize>
    ensures { result ≡ position (clash_in role) slots.now }
{
    slots
        .iter()
        .position(|slot| slot.is_some_and(|plate| role.clashes(plate.role)))
}

// The lowest foot of the standing plates, the greatest top + height; none where none stands.
fn lowest_foot(slots: &[Option<Plate>]) -> Option<u32>
    ensures { result ≡ lowest_foot slots.now }
{
    slots.iter().flatten().map(Plate::foot).max()
}

impl Plates {
    pub(crate) fn new() -> Plates
        ensures { result.slots.items ≡ empties 24 }
    {
        Plates {
            slots: Slots::empty(),
            total: 0,
            foot: None,
            roles: RoleSlots::default(),
            measures: Measures::new(),
        }
    }

    pub(crate) fn put(&mut self, slot: Slot<24>, plate: Plate)
        ensures { self.new.slots.items ≡ slice_set self.old.slots.items slot.index (Some plate) }
    {
        self.take_out(slot);
        self.total = self.total.wrapping_add(plate.force());
        self.foot = self.foot.max(Some(plate.foot()));
        let first = self.roles.first(plate.role, slot.index);
        self.roles.note(plate.role, Some(first));
        self.measures.note(slot, &plate);
        self.slots.set(slot, Some(plate));
    }

    pub(crate) fn take_out(&mut self, slot: Slot<24>)
        ensures { self.new.slots.items ≡ slice_set self.old.slots.items slot.index None }
    {
        if let Some(plate) = self.slots.get(slot) {
            self.total = self.total.wrapping_sub(plate.force());
            self.measures.clear(slot);
            self.slots.set(slot, None);
            let next = first_slot(&self.slots.items, plate.role);
            self.roles.note(plate.role, next);
            // looked for anew only where that plate's foot was the lowest
            self.foot = self
                .foot
                .filter(|&foot| foot != plate.foot())
                .or_else(|| lowest_foot(&self.slots.items));
        }
    }

    // The sum of breadth × height × yield over the standing plates.
    pub(crate) fn total_force(&self) -> u64
        requires { total_force self.now.slots.items ≤ 2 ^ 36 }
        ensures { result ≡ total_force self.now.slots.items }
    {
        self.total // whole, within the bound
    }

    // Whether a plate stands that the role may not join.
    pub(crate) fn has_role(&self, role: Role) -> bool
        ensures { result ≡ stands role self.now.slots.items }
    {
        self.roles.get(role).is_some()
    }

    // The first standing plate of a role.
    pub(crate) fn with_role(&self, role: Role) -> Option<Plate>
        ensures { result ≡ standing role self.now.slots.items }
    {
        if role == Role::Other {
            return self.first_with(role);
        }
        let slot = self.roles.get(role)?;
        self.slots.items[slot]
    }

    // The same by trying the slots in turn.
    fn first_with(&self, role: Role) -> Option<Plate>
        ensures { result ≡ standing role self.now.slots.items }
    {
        self.slots
            .items
            .iter()
            .flatten()
            .find(|plate| plate.role == role)
            .copied()
    }

    // Whether a standing plate would pass level 4,096, lowered by n.
    pub(crate) fn would_pass(&self, n: u16) -> bool
        ensures { result ≡ passes n self.now.slots.items }
    {
        // saturating: the sum is not known to fit here, where no bound is kept of a foot
        self.foot.is_some_and(|foot| foot.saturating_add(u32::from(n)) > u32::from(LOWEST))
    }

    // Adds n to the top of every standing plate.
    pub(crate) fn lower(&mut self, n: u16)
        requires { passes n self.old.slots.items ≡ false }
        ensures { self.new.slots.items ≡ lowered n self.old.slots.items }
    {
        self.measures.lower(n);
        self.foot = self.foot.map(|foot| foot + u32::from(n));
        // slot by slot (tried: after `iter_mut().flatten()` the check knows nothing of what was written)
        for slot in self.slots.items.iter_mut() {
            if let Some(plate) = slot {
                plate.top += n;
            }
        }
    }
}
