// A layer of reinforcing bars in one strip.
ghost use Rattle.kinds.specs.Decks.{LayerBlock};

use section::{Block, GREATEST_YIELD, LEAST_YIELD};

#[derive(Clone, Copy, Debug, PartialEq, Eq)]
pub struct BarLayer {
    pub strip: u16,
    // in square sixteenths of an inch
    pub area: u16,
    pub fy: u32,
}

impl BarLayer {
    // Its one strip; none where it is outside its limits.
    pub(crate) fn block(&self) -> Option<Block>
        ensures { LayerBlock self.now result }
    {
        if self.area < 1 || !(LEAST_YIELD..=GREATEST_YIELD).contains(&self.fy) {
            return None;
        }
        Block::new(self.strip, 1, u64::from(self.area) * u64::from(self.fy))
    }
}
