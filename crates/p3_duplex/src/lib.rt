//! The challenger over a permutation. It draws elements of every vector space over its field, by their
//! coefficients, and so elements of the field itself.
//!
//! A law is a function without effect whose contract a caller cites. The Rust crate has none.
#![tactic(auto)]

mod duplex_challenger;
mod prefix_code;

pub use duplex_challenger::DuplexChallenger;
pub use prefix_code::{duplex_arrays_are_prefix_code, duplex_elements_are_prefix_code};
