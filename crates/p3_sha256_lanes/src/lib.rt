//! SHA-256 of four messages of one length at once, each in a lane of its own.
//!
//! The kit's `sha2` hashes one message after another. Here word `i` of each of four messages is in one
//! vector. Each operation of the standard (FIPS 180-4) works on all four at once. Each digest is proved
//! equal to that of `sha2`.
#![tactic(auto)]

mod compression;
mod digests;
mod padding;
mod words;

pub use digests::four_digests;
