//! The challenger over a hash function. It draws values of the function's digests.
//!
//! A law is a function without effect whose contract a caller cites. The Rust crate has none.
#![tactic(auto)]

mod hash_challenger;
mod prefix_code;

pub use hash_challenger::HashChallenger;
pub use prefix_code::{hash_arrays_are_prefix_code, hash_values_are_prefix_code};
