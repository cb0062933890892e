// What a sheet holds, and what it keeps of it.
ghost use Rattle.sheet.specs.Invariants.{Light, Within, Once};

use crate::plates::Plates;
use crate::rows::Rows;

#[derive(Drop)]
pub struct Sheet {
    pub(crate) plates: Plates,
    pub(crate) rows: Rows,
    ghost light: { Light plates.slots.items },
    ghost within: { Within plates.slots.items },
    ghost once: { Once plates.slots.items },
}
