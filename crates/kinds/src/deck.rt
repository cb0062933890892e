// What a deck holds.
ghost use Rattle.std.specs.Prelude.{◌≡◌, ◌+◌, ◌*◌, ◌^◌, ◌≤◌, length};
ghost use Rattle.section.specs.Blocks.{stacked_total};

use section::Block;

// How many bar layers a deck may have.
pub(crate) const LAYERS: usize = 6;

// A slab and up to six bar layers, in memory of a fixed size; missing ones are blocks of no strips, which add nothing to any sum and need no
// case of their own.
#[derive(Clone, Copy, Debug, PartialEq, Eq)]
pub struct Deck {
    pub(crate) slab: Block,
    pub(crate) bars: [Block; LAYERS],
    ghost long: { length bars ≡ 6 },
    ghost light: { slab.strength * slab.height + stacked_total bars ≤ 2 ^ 36 },
}
