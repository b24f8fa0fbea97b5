//! Extensions of degree 4 that one can compute in: polynomials modulo `X^4 - W` over `BabyBear` and `KoalaBear`.
//!
//! [`BinomialExtensionField`] has sums, differences and products. It is an algebra with the identity that `Coeffs` of
//! `p3_field_core` has, so a challenger draws and a transcript carries its elements as those of `Coeffs`, byte for byte.
#![tactic(auto)]

mod arithmetic;
mod binomial_extension_field;
mod modulus;

pub use arithmetic::extensions_are_rings;
pub use binomial_extension_field::BinomialExtensionField;
pub use modulus::BinomialModulus;
