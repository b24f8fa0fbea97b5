//! Definitions of typed transcripts, each with one thing wrong, and that what is said of the right ones is false of them.
//! This crate has worked rows in its proofs, and no code: what is refuted is the statement that a law makes, of the
//! definition as it stands.
#![tactic(auto)]
