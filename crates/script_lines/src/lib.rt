//! Scripts as lines of text: the worlds that they are played in, their steps, and what both sides are handed.
//!
//! The program `conformance_runs`, which plays them, says at its head what a line is.
#![tactic(auto)]

pub mod alone;
pub mod change;
pub mod line;
pub mod playing;
pub mod recording;
mod rule;
pub mod script;
pub mod steps;
mod suites;
pub mod values;
pub mod words;
pub mod world;

pub use rule::Rule;
