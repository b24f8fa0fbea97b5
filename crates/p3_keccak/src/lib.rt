//! Keccak-256, the hash function of Ethereum, with which the Rust crate hashes patterns and the identities of
//! algebras.
#![tactic(auto)]

mod keccak256_hasher;
mod laws;
mod permutation;
mod sponge;

pub use keccak256_hasher::Keccak256Hasher;
pub use laws::follows_the_standard;
