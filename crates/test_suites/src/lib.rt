//! A suite over each challenger, for callers and tests, and suites over the hash functions and permutations of users.
#![tactic(auto)]

mod byte_hasher;
mod duplex;
mod hash;
mod multi_field;
mod poseidon2;
mod serializing32;
mod serializing64;

pub use byte_hasher::ByteHasher;
pub use duplex::DuplexSuite;
pub use hash::HashSuite;
pub use multi_field::MultiFieldSuite;
pub use poseidon2::{
    BabyBearPoseidon2Suite, GoldilocksPoseidon2Suite, KoalaBearPoseidon2Suite,
    MultiFieldPoseidon2Suite,
};
pub use serializing32::Serializing32Suite;
pub use serializing64::Serializing64Suite;
