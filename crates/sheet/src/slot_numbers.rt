// Slots by their numbers.
ghost use Rattle.sheet.specs.SlotNumbers.{Numbers};

use crate::slot::Slot;
use faults::{SheetFault, SheetReason};

impl<const N: usize> Slot<N> {
    // The slot of this number, from 0 on; refused with 1 past the last one. `Slot::new(n)?` and no `TryFrom`, which would say the same and be no plainer.
    pub(crate) fn new(number: u8) -> Result<Slot<N>, SheetFault>
        ensures { Numbers N number result }
    {
        let index = usize::from(number);
        if index >= N {
            return Err(SheetFault::new(SheetReason::NoSlot).at_slot(number));
        }
        Ok(Slot { index })
    }
}
