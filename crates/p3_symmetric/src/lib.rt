//! Hash functions and permutations over field elements and bytes, and their digests.
//!
//! A law is a function without effect whose contract a caller cites. The Rust crate has none.
#![tactic(auto)]

mod digest_hasher;
mod hash;
mod hasher;
mod merkle_cap;
mod permutation;
mod sha256;
mod turn;

pub use digest_hasher::DigestHasher;
pub use hash::Hash;
pub use hasher::{CryptographicHasher, HashOutput};
pub use merkle_cap::MerkleCap;
pub use permutation::CryptographicPermutation;
pub use sha256::Sha256Hasher;
pub use turn::{Turn, turned_index};
