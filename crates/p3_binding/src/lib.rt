//! The law on how the symbols that a script's run feeds to the challenger bind the run.
#![tactic(auto)]

mod symbols_bind;

pub use symbols_bind::binding;
