//! What the program `tealmuze` answers: a protocol that stands in a file, its pattern, and proofs of it that are made,
//! verified and explained.
//!
//! The file is TOML: the `suite` by its name, the `name` and the `version` of the protocol, the chunks of its
//! `instance` in hexadecimal, and its `steps` in order. `docs/TEALMUZE.md` says what a step has.
#![tactic(auto)]

mod answer;
mod beginning;
mod elements;
mod explaining;
mod explanation;
mod fault;
mod protocol;
mod shown;
mod steps;
mod suites;
mod values;
mod warnings;

pub use answer::respond;
