//! Callers of the law that equal symbols bind, of a suite over each challenger: that its conditions can be met, each by
//! one or two laws of this repository. The search finds them, but for one that is written beside.
#![tactic(auto)]

mod one_place;
mod two_proofs;

pub use one_place::symbols_tell_each_value;
use p3_challenger::HashChallenger;
use p3_challenger::laws::prefix_codes::{
    duplex_arrays_are_prefix_code, duplex_elements_are_prefix_code, hash_arrays_are_prefix_code,
    hash_values_are_prefix_code, multi_field_arrays_are_prefix_code,
    multi_field_scalars_are_prefix_code, serialized_digests_are_prefix_code,
    serialized_elements_are_prefix_code,
};
use p3_challenger::laws::scripts::{
    binding, challenges_bind_what_came_before, equal_symbols_have_equal_values,
};
use p3_field::{BabyBear, F257, Goldilocks};
use p3_symmetric::{Sha256Hasher, Turn};
use test_suites::{
    DuplexSuite, HashSuite, MultiFieldSuite, Serializing32Suite, Serializing64Suite,
};
pub use two_proofs::verify_both;

/// Over `DuplexChallenger`, whose elements are its symbols, and so are those of a digest.
pub fn duplex_symbols_bind() {
    duplex_elements_are_prefix_code::<F257, Turn<2>, 3, 2>();
    duplex_arrays_are_prefix_code::<F257, F257, Turn<2>, 3, 2, 2>();
    binding::<DuplexSuite>();
    equal_symbols_have_equal_values::<DuplexSuite>();
    challenges_bind_what_came_before::<DuplexSuite>();
    symbols_tell_each_value::<DuplexSuite>();
}

/// Over `HashChallenger` of bytes, whose bytes are its symbols, and so are those of an array of 32 bytes.
pub fn hash_symbols_bind() {
    hash_values_are_prefix_code::<u8, Sha256Hasher, 32>();
    hash_arrays_are_prefix_code::<u8, u8, Sha256Hasher, 32, 32>();
    binding::<HashSuite>();
}

/// Over `MultiField32Challenger`, whose symbols are scalars and the words of digests.
pub fn multi_field_symbols_bind() {
    multi_field_scalars_are_prefix_code::<F257, BabyBear, Turn<2>, 3, 2>();
    multi_field_arrays_are_prefix_code::<F257, BabyBear, Turn<2>, 3, 2, 2>();
    binding::<MultiFieldSuite>();
}

/// Over `SerializingChallenger32`, whose symbols are 4 bytes of an element, and the bytes of a digest.
pub fn serializing32_symbols_bind() {
    hash_values_are_prefix_code::<u8, Sha256Hasher, 32>();
    serialized_elements_are_prefix_code::<BabyBear, HashChallenger<u8, Sha256Hasher, 32>, 4, 32>();
    serialized_digests_are_prefix_code::<BabyBear, HashChallenger<u8, Sha256Hasher, 32>, 4, 32>();
    binding::<Serializing32Suite>();
}

/// Over `SerializingChallenger64`, whose symbols are 8 bytes of an element, and of each word of a digest.
pub fn serializing64_symbols_bind() {
    hash_values_are_prefix_code::<u8, Sha256Hasher, 32>();
    serialized_elements_are_prefix_code::<Goldilocks, HashChallenger<u8, Sha256Hasher, 32>, 8, 4>();
    serialized_digests_are_prefix_code::<Goldilocks, HashChallenger<u8, Sha256Hasher, 32>, 8, 4>();
    binding::<Serializing64Suite>();
}
