// A deck whose slab is cracked: its bars alone, which push and pull.
ghost use Rattle.kinds.specs.Decks.{bars_of};
ghost use Rattle.kinds.specs.DeckLaws.{cracked_laws};

use crate::deck::Deck;
use section::{Forces, Part, Resultants, Sense};

#[derive(Clone, Copy, Debug, PartialEq, Eq)]
pub struct Cracked<'a> {
    pub(crate) deck: &'a Deck,
}

impl Part for Cracked<'_> {
    ghost pushes = { λ c. bars_of c.deck.now };

    ghost pulls = { λ c. bars_of c.deck.now };

    ghost laws = { cracked_laws (λ c. c.deck.now) };

    fn depth(&self) -> u16 {
        self.deck.bar_depth()
    }

    fn resultants(&self, _sense: Sense, level: u16) -> Resultants {
        self.deck.bar_resultants(level)
    }

    fn forces(&self, _sense: Sense, level: u16) -> Forces {
        self.deck.bar_forces(level)
    }
}
