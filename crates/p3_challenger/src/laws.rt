//! The laws of typed transcripts and challengers, grouped by the question that they answer.
//!
//! A law is a function whose body is empty or only calls other laws. Its contract is a theorem on definitions, which a
//! caller cites by calling the function. A law of a single challenger is a method of that challenger.

pub mod challengers;
pub mod completeness;
pub mod domain_separation;
pub mod encodings;
pub mod memory;
pub mod prefix_codes;
pub mod refusals;
pub mod rejecting;
pub mod scripts;
pub mod symbols;
