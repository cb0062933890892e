// A concrete slab, which only pushes.
ghost use Rattle.kinds.specs.Decks.{SlabBlock};

use section::{BROADEST, Block};

#[derive(Clone, Copy, Debug, PartialEq, Eq)]
pub struct Slab {
    pub top: u16,
    pub breadth: u16,
    pub height: u16,
    // f'c in psi
    pub fc: u16,
}

impl Slab {
    // Its strips; none where it is outside its limits or alone too strong.
    pub(crate) fn block(&self) -> Option<Block>
        ensures { SlabBlock self.now result }
    {
        if !(1..=BROADEST).contains(&self.breadth) || self.height < 1 {
            return None;
        }
        if !(2000..=10_000).contains(&self.fc) || self.fc % 20 != 0 {
            return None;
        }
        Block::new(
            self.top,
            self.height,
            u64::from(self.breadth) * 17 * u64::from(self.fc) / 20,
        )
    }
}
