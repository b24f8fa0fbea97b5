//! Prime fields: their elements as residues, the traits for generic code, and four fields, alone
//! and in lanes.
//!
//! This crate has no code of its own. It re-exports [`p3_field_core`], [`p3_small_primes`],
//! [`p3_goldilocks`], [`p3_extension`], [`p3_field_bridge`], and the fields of [`p3_lanes`].
#![tactic(auto)]

pub use p3_extension::{BinomialExtensionField, BinomialModulus, extensions_are_rings};
pub use p3_field_bridge::{
    FieldBridge, digits_are_any, digits_tell_elements, packing_is_injective,
};
pub use p3_field_core::{
    Algebra, AlgebraIdentity, BasedVectorSpace, BinomiallyExtendable, Coeffs, Field, Named,
    PrimeCharacteristicRing, PrimeField, PrimeField32, PrimeField64, ScalarField,
    UniformSamplingField, log2_ceil_u64, residues_are_a_ring, uniform_bounds_are_whole,
};
pub use p3_goldilocks::Goldilocks;
pub use p3_lanes::{
    BabyBearLanes, F257Lanes, GoldilocksLanes, KoalaBearLanes, PackedField, PackedValue,
    SmallPrimeLanes,
};
pub use p3_small_primes::{BabyBear, F257, KoalaBear, SmallOrder, SmallPrime};
