//! Vector spaces and algebras over a field, by their coefficients. A field is an algebra over itself.
ghost use Rattle.std.specs.Prelude.{◌≡◌, ℕ, ◌-◌, ◌<◌, ◌≤◌, List, ◌∷◌, length, replicate, slice_set, [], refl};
ghost use Rattle.std.proofs.Common.{lit<, lit≤};
ghost use Rattle.p3_field_core.specs.{Equality.IsExact, Coefficients.element_of_one};
ghost use Rattle.p3_field_core.specs.CoefficientLaws.{coefficients-element_of_one, one_coefficient, of_itself};

use crate::{Field, PrimeCharacteristicRing};

/// A vector space over a field with a basis: an element is its list of coefficients. Elements compare equal exactly
/// where they are the same.
///
/// Corresponds to `p3-field`'s `BasedVectorSpace`. That trait makes an element from a function or an iterator. This one
/// makes it with [`zero`](BasedVectorSpace::zero) and [`with_coefficient`](BasedVectorSpace::with_coefficient), and a
/// space is `Copy`.
pub trait BasedVectorSpace<F: PrimeCharacteristicRing>: Copy + PartialEq {
    /// The number of coefficients of an element: from 1 to 65535.
    const DIMENSION: usize;

    ghost DIMENSION: { ℕ };

    // The coefficients of an element, in the order of the basis.
    ghost coefficients: { Self → List F };

    // The element of as many coefficients as the dimension.
    ghost element: { List F → Self };

    /// Returns the coefficients, in the order of the basis: as many as the dimension.
    fn as_basis_coefficients_slice(&self) -> &[F]
        ensures { result.now ≡ coefficients self.now };

    /// Returns the element whose coefficients are all 0. Not in `p3-field`'s trait.
    fn zero() -> Self
        ensures { coefficients result ≡ replicate DIMENSION (F.residues.of 0) };

    /// Returns the element with one coefficient replaced, at a place below the dimension. Not in `p3-field`'s
    /// trait.
    fn with_coefficient(self, index: usize, value: F) -> Self
        requires { index < DIMENSION }
        ensures { coefficients result ≡ slice_set (coefficients self) index value };

    ghost at_least_one: { 0 < DIMENSION };

    ghost at_most: { DIMENSION ≤ 65535 };

    // An element is its coefficients: as many as the dimension, and no two elements have the same.
    ghost length_coefficients: { (x : Self) → length (coefficients x) ≡ DIMENSION };

    ghost same_coefficients: { (x y : Self) → coefficients x ≡ coefficients y → x ≡ y };

    // Elements compare equal exactly where they are one.
    ghost eq_law: { IsExact Self.eq };

    // Every list of that length is the coefficients of an element.
    ghost coefficients_element: { (xs : List F) → length xs ≡ DIMENSION → coefficients (element xs) ≡ xs };
}

/// A vector space that contains the field: a value of the field is the element with this value as coefficient 0 and
/// zeros elsewhere.
///
/// Corresponds to `p3-field`'s `Algebra`.
pub trait Algebra<F: PrimeCharacteristicRing>: BasedVectorSpace<F> + From<F> {
    ghost from_law: { (value : F) (x : Self) → Self.from_gives value x →
        Self.coefficients x ≡ value ∷ replicate (Self.DIMENSION - 1) (F.residues.of 0) };
}

/// An algebra with a text that identifies it.
///
/// Corresponds to `p3-field`'s `AlgebraIdentity`. The texts are this repository's own, so digests of typed transcripts
/// differ from the Rust crate's.
pub trait AlgebraIdentity<F: PrimeCharacteristicRing>: Algebra<F> {
    // The bytes of the identity.
    ghost identity: { List ℕ };

    /// Returns the text that identifies the algebra: its construction, with the order of the field.
    fn algebra_id() -> &'static [u8]
        ensures { result.now ≡ identity };
}

/// A field with a named extension of dimension `D`: the polynomials modulo `X^D - w`, for some `w` of the field. An
/// element of the extension is an array of `D` coefficients.
///
/// Named after `p3-field`'s `BinomiallyExtendable`. The trait only identifies the extension.
pub trait BinomiallyExtendable<const D: usize>: Field {
    // The bytes of the identity of the extension.
    ghost extension_identity: { List ℕ };

    /// Returns the text that identifies the extension: its construction, with the order of the field, `D` and `w`.
    fn extension_id() -> &'static [u8]
        ensures { result.now ≡ extension_identity };
}

impl<F: Field> BasedVectorSpace<F> for F {
    const DIMENSION: usize = 1;

    ghost DIMENSION = { 1 };

    ghost coefficients = { λ x. x ∷ [] };

    ghost element = { element_of_one (F.residues.of 0) };

    ghost at_least_one = { lit< tt };

    ghost at_most = { lit≤ tt };

    ghost length_coefficients = { λ _. refl };

    ghost same_coefficients = { one_coefficient };

    ghost eq_law = { F.eq_law };

    ghost coefficients_element = { coefficients-element_of_one (F.residues.of 0) };

    fn as_basis_coefficients_slice(&self) -> &[F] {
        std::slice::from_ref(self)
    }

    fn zero() -> F {
        F::ZERO
    }

    fn with_coefficient(self, _index: usize, value: F) -> F {
        value
    }
}

impl<F: Field> Algebra<F> for F {
    ghost from_law = { of_itself };
}
