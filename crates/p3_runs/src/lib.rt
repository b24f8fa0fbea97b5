//! Runs of scripts: the meaning of a protocol's steps with their values, one after another. This crate has definitions
//! and lemmas on them, and no code of its own. No driver takes part.
#![tactic(auto)]
