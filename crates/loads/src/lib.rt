//! Load effects and their exact values, load types, and limit states with their load factors.
#![tactic(auto)]

mod effect;
mod kind;
mod limit_state;
mod load_type;
mod published;
#[cfg(test)]
mod tests;

pub use effect::Effect;
pub use kind::EffectKind;
pub use limit_state::LimitState;
pub use load_type::LoadType;
pub use published::PublishedState;
