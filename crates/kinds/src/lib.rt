//! Kinds of parts: a deck, the same deck cracked, a shape, and either of two kinds.
#![tactic(auto)]

mod bar_layer;
mod cracked;
mod deck;
mod decks;
mod either;
mod shape;
mod slab;
#[cfg(test)]
mod tests;

pub use bar_layer::BarLayer;
pub use cracked::Cracked;
pub use deck::Deck;
pub use either::Either;
pub use shape::Shape;
pub use slab::Slab;
