//! The common parts of challengers over permutations and hash functions. They are cells of a sponge, a sponge
//! call by call and over segments of calls, sequences of outputs, and lemmas on them.
#![tactic(auto)]

mod buffer;
mod cells;

pub use buffer::write_after;
pub use cells::{count, overwrite, zero};
