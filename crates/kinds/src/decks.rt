// Filling a deck, and a deck as a part.
ghost use Rattle.std.specs.Prelude.{◌≡◌, min};
ghost use Rattle.section.specs.declared.sense.Sense.{Sense as Senses};
ghost use Rattle.section.specs.Strips.{no_strips};
ghost use Rattle.section.specs.Parts.{IsDepth, IsForces, IsResultants};
ghost use Rattle.kinds.specs.Decks.{pushes_of, bars_of, Filled, Fills};
ghost use Rattle.kinds.specs.DeckLaws.{deck_laws};

use crate::bar_layer::BarLayer;
use crate::cracked::Cracked;
use crate::deck::{Deck, LAYERS};
use crate::slab::Slab;
use faults::PartFault;
use section::{Block, Forces, Part, Resultants, STRONGEST, Sense};

impl Deck {
    pub fn empty() -> Deck
        ensures pushes { pushes_of result ≡ no_strips }
        ensures pulls { bars_of result ≡ no_strips }
    {
        Deck {
            slab: Block::empty(),
            bars: [Block::empty(); LAYERS],
        }
    }

    // The deck of a slab and layers; refused with 10 where they do not fit. `inline`: `fill` of few layers takes half as long so.
    #[inline]
    pub fn try_new(slab: Slab, layers: &[BarLayer]) -> Result<Deck, PartFault>
        ensures { Filled slab layers.now result }
    {
        if layers.len() > LAYERS {
            return Err(PartFault::OutsideLimits);
        }
        let slab = slab.block().ok_or(PartFault::OutsideLimits)?;
        let mut bars = [Block::empty(); LAYERS];
        let mut total = slab.total();
        // by index (tried: after `bars.iter_mut().zip(layers)` the check knows nothing of what was written)
        for (i, layer) in layers.iter().enumerate() {
            let bar = layer.block().ok_or(PartFault::OutsideLimits)?;
            total += bar.total();
            bars[i] = bar;
        }
        if total > STRONGEST {
            return Err(PartFault::OutsideLimits);
        }
        Ok(Deck { slab, bars })
    }

    // Fills the deck in place of what it held; refused with 10, and then left as it was. Public, and so it stays beside `try_new`.
    pub fn fill(&mut self, slab: Slab, layers: &[BarLayer]) -> Result<(), PartFault>
        ensures { Fills slab layers.now self.old result self.new }
    {
        *self = Deck::try_new(slab, layers)?;
        Ok(())
    }

    // The deck's bars alone.
    pub fn cracked(&self) -> Cracked<'_>
        ensures { result.deck.now ≡ self.now }
    {
        Cracked { deck: self }
    }

    // How far down the bars go.
    pub(crate) fn bar_depth(&self) -> u16
        ensures { IsDepth (bars_of self.now) (bars_of self.now) result }
    {
        // tried: over `map(Block::depth).max()` the proof did not close, as a block's depth is known by a property, not as a function of the block
        let mut depth: u16 = 0;
        for bar in &self.bars {
            depth = depth.max(bar.depth());
        }
        depth
    }

    // The forces of the bars alone at a level, in either sense. Beside `bar_resultants`, from which they could be taken: with the moment too at each
    // level of the search for the axis a bending question takes twice as long (docs/SPEED.md). A `for`, as a `fold` says the same in as many words
    // and is no plainer.
    pub(crate) fn bar_forces(&self, level: u16) -> Forces
        ensures { (sense : Senses) → IsForces sense (bars_of self.now) (bars_of self.now) (min level 4096) result }
    {
        let mut forces = Forces::default();
        for bar in &self.bars {
            forces += bar.forces(level);
        }
        forces
    }

    // What the bars give at a level, in either sense; a `for`, as for the forces.
    pub(crate) fn bar_resultants(&self, level: u16) -> Resultants
        ensures { (sense : Senses) → IsResultants sense (bars_of self.now) (bars_of self.now) (min level 4096) result }
    {
        let mut at = Resultants::default();
        for bar in &self.bars {
            at += bar.resultants(level);
        }
        at
    }
}

impl Part for Deck {
    ghost pushes = { pushes_of };

    ghost pulls = { bars_of };

    ghost laws = { deck_laws };

    fn depth(&self) -> u16 {
        self.slab.depth().max(self.bar_depth())
    }

    // The slab pushes alone, above the level in sagging and below it in hogging. Two arms, here and in `forces`: one of both would be handed
    // which side the slab is on, and is no plainer.
    fn resultants(&self, sense: Sense, level: u16) -> Resultants {
        let bars = self.bar_resultants(level);
        match sense {
            Sense::Sagging => {
                let slab = self.slab.above(level);
                Resultants {
                    above: bars.above + slab.force,
                    moment: bars.moment + slab.moment,
                    ..bars
                }
            }
            Sense::Hogging => {
                let slab = self.slab.below(level);
                Resultants {
                    below: bars.below + slab.force,
                    moment: bars.moment + slab.moment,
                    ..bars
                }
            }
        }
    }

    fn forces(&self, sense: Sense, level: u16) -> Forces {
        let bars = self.bar_forces(level);
        match sense {
            Sense::Sagging => Forces {
                above: bars.above + self.slab.force_above(level),
                ..bars
            },
            Sense::Hogging => Forces {
                below: bars.below + self.slab.force_below(level),
                ..bars
            },
        }
    }
}
