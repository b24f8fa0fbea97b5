//! Rings, fields and vector spaces over residues: the traits for generic code, and arrays of coefficients.
//!
//! Most traits have the names of those in the crate `p3-field`, on which the Rust crate is built. They have only the
//! members that challengers and transcripts need.
//!
//! A law is a function without effect whose contract a caller cites. The Rust crate has none.
#![tactic(auto)]

mod algebra;
mod coeffs;
mod exponentiation;
mod field;
mod log2;
mod named;
mod ring;
mod scalar_field;
mod uniform;

pub use algebra::{Algebra, AlgebraIdentity, BasedVectorSpace, BinomiallyExtendable};
pub use coeffs::Coeffs;
pub use field::{Field, PrimeField, PrimeField32, PrimeField64};
pub use log2::log2_ceil_u64;
pub use named::Named;
pub use ring::{PrimeCharacteristicRing, residues_are_a_ring};
pub use scalar_field::ScalarField;
pub use uniform::{UniformSamplingField, uniform_bounds_are_whole};
