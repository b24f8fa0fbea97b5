//! The symbols fed by a script's run bind the results of a verifier and of a prover: callers of the law that
//! equal symbols bind.
#![tactic(auto)]

mod bound;

pub use bound::{challenges_bind_what_came_before, equal_symbols_have_equal_values};
