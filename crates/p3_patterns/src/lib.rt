//! Patterns: the steps of a protocol, fixed before any of them is taken. They are recorded, printed,
//! digested and played.
//!
//! A law is a function without effect whose contract a caller cites. The Rust crate has none.
#![tactic(auto)]

mod comparison;
mod open_containers;
mod pattern;
mod player;
mod rendering;
mod sequence;
mod state;

pub use pattern::Pattern;
pub use player::PatternPlayer;
pub use rendering::equal_renderings_are_equal_patterns;
pub use sequence::InteractionPattern;
pub use state::PatternState;
