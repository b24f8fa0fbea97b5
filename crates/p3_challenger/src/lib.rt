//! Fiat-Shamir challengers: prover and verifier observe the same messages and sample the same
//! random challenges.
//!
//! This crate has no code of its own. It re-exports the challengers at its root and typed
//! transcripts under [`fs`]. For authors of contracts it re-exports all definitions except those of
//! fields, which `p3_field` re-exports.
#![tactic(auto)]

pub mod fs;
pub mod laws;

pub use p3_challenger_core::{
    CanFinalizeDigest, CanObserve, CanSample, CanSampleBits, ChallengerError, FieldChallenger,
    Sponge, sample_array,
};
pub use p3_duplex::DuplexChallenger;
pub use p3_field_core::UniformSamplingField;
pub use p3_grinding::{
    BeforeWitness, ByteCandidates, ByteGrindingChallenger, CanCopy, CanSampleUniformBits,
    GrindingChallenger, ResamplingError, UniformBitsError, UniformGrindingChallenger,
    least_uniform_witness, least_witness,
};
pub use p3_hash_challenger::HashChallenger;
pub use p3_lanes::{LanePermutation, permute_each_lane};
pub use p3_multi_field::{
    HasFieldPair, MultiField32Challenger, MultiField32ChallengerError, MultiFieldSymbol,
};
pub use p3_serializing::{
    SerializedIn, SerializingChallenger, SerializingChallenger32, SerializingChallenger64,
    SerializingState,
};
