// The slots of one kind.
ghost use Rattle.std.specs.Prelude.{◌≡◌, ⊤, length, slice_set};
ghost use Rattle.sheet.specs.Slots.{empties, content};
ghost use Rattle.sheet.specs.SlotNumbers.{FindsFree, FindsFull};

use crate::slot::Slot;
use faults::{SheetFault, SheetReason};
use std::alloc::AllocError;

// N slots, each of which holds one thing or nothing.
pub struct Slots<T, const N: usize> {
    pub(crate) items: [Option<T>; N],
    ghost long: { length items ≡ N },
}

// By hand: over a ghost field `Clone` is derived only together with `Copy`, and not every `T` is `Copy`.
impl<T: Copy, const N: usize> Clone for Slots<T, N> {
    ghost is_clone = { λ x y. y ≡ x };

    ghost is_infallible = { λ _. ⊤ };

    fn clone(&self) -> Result<Slots<T, N>, AllocError> {
        Ok(*self)
    }
}

impl<T: Copy, const N: usize> Copy for Slots<T, N> {}

impl<T: Copy, const N: usize> Slots<T, N> {
    pub(crate) fn empty() -> Slots<T, N>
        ensures { result.items ≡ empties N }
    {
        Slots { items: [None; N] }
    }

    pub(crate) fn get(&self, slot: Slot<N>) -> Option<T>
        ensures { result ≡ content self.now.items slot.entry.index }
    {
        self.items[slot.index]
    }

    // The slot of this number, where it is free; refused with 1 or 2.
    pub(crate) fn free(&self, number: u8) -> Result<Slot<N>, SheetFault>
        ensures { FindsFree N self.now.items number result }
    {
        let slot = Slot::new(number)?;
        if self.get(slot).is_some() {
            return Err(SheetFault::new(SheetReason::SlotFull).at_slot(number));
        }
        Ok(slot)
    }

    // The slot of this number, where something stands in it; refused with 1 or 3.
    pub(crate) fn full(&self, number: u8) -> Result<Slot<N>, SheetFault>
        ensures { FindsFull N self.now.items number result }
    {
        let slot = Slot::new(number)?;
        if self.get(slot).is_none() {
            return Err(SheetFault::new(SheetReason::SlotEmpty).at_slot(number));
        }
        Ok(slot)
    }

    pub(crate) fn set(&mut self, slot: Slot<N>, held: Option<T>)
        ensures { self.new.items ≡ slice_set self.old.items slot.entry.index held }
    {
        self.items[slot.index] = held;
    }
}
