//! An element of an extension, as an array of coefficients.
ghost use Rattle.std.{specs.Prelude.{◌≡◌, length, ⊤, ◌∷◌, replicate, codes}, proofs.Common.{lit<, lit≤}};

use p3_field_core::{
    Algebra, AlgebraIdentity, BasedVectorSpace, BinomiallyExtendable, Field, Named,
};
use std::alloc::AllocError;

/// An element of the extension of dimension `D` of a field: a polynomial of degree below `D`, by its coefficients, that
/// of `X^0` first. In dimension 4 there are sums, differences and products modulo `X^4 - W`.
///
/// Corresponds to `p3-field`'s `BinomialExtensionField`. It has no inverses.
#[derive(Debug, PartialEq, Eq)]
pub struct BinomialExtensionField<F, const D: usize> {
    pub(crate) coefficients: [F; D],
    ghost full: { length coefficients ≡ D },
}

impl<F: Copy, const D: usize> Clone for BinomialExtensionField<F, D> {
    ghost is_clone = { λ x y. y ≡ x };

    ghost is_infallible = { λ _. ⊤ };

    fn clone(&self) -> Result<Self, AllocError> {
        Ok(*self)
    }
}

impl<F: Copy, const D: usize> Copy for BinomialExtensionField<F, D> {}

impl<F: Field, const D: usize> BinomialExtensionField<F, D> {
    ghost use Rattle.p3_field_core.specs.Equality.{IsExact};
    ghost use Rattle.p3_extension.specs.ExtensionCoefficients.{coefficients_of};

    /// Returns the element with these coefficients.
    pub fn new(coefficients: [F; D]) -> Self
        ensures { coefficients_of result ≡ coefficients }
    {
        BinomialExtensionField { coefficients }
    }

    /// Two elements compare equal exactly where they are the same, in any dimension.
    ///
    /// A law: the body is empty, and a caller cites the clause.
    pub fn compared_by_coefficients()
        ensures { IsExact ⟦<BinomialExtensionField<F, D> as PartialEq>⟧.eq }
    {}
}

impl<F: Field> BasedVectorSpace<F> for BinomialExtensionField<F, 4> {
    ghost use Rattle.p3_extension.specs.ExtensionCoefficients as extension;
    ghost use Rattle.p3_extension.specs.ExtensionCoefficientLaws as laws;

    const DIMENSION: usize = 4;

    ghost DIMENSION = { 4 };

    ghost coefficients = { extension.coefficients_of };

    ghost element = { extension.element_of (F.residues.of 0) };

    ghost at_least_one = { lit< tt };

    ghost at_most = { lit≤ tt };

    ghost length_coefficients = { laws.length-coefficients };

    ghost same_coefficients = { laws.coefficients-injective };

    ghost eq_law = { laws.compared-by-coefficients F.eq_law };

    ghost coefficients_element = { laws.coefficients-element_of (F.residues.of 0) };

    fn as_basis_coefficients_slice(&self) -> &[F] {
        &self.coefficients[..]
    }

    fn zero() -> Self {
        BinomialExtensionField {
            coefficients: [F::ZERO; 4],
        }
    }

    fn with_coefficient(self, index: usize, value: F) -> Self {
        let mut coefficients = self.coefficients;
        coefficients[index] = value;
        BinomialExtensionField::new(coefficients)
    }
}

impl<F: Field> From<F> for BinomialExtensionField<F, 4> {
    ghost use Rattle.p3_extension.specs.ExtensionCoefficients as extension;

    ghost from_gives = { λ value x.
        extension.coefficients_of x ≡ value ∷ replicate 3 (F.residues.of 0) };

    fn from(value: F) -> Self {
        BinomialExtensionField {
            coefficients: [value, F::ZERO, F::ZERO, F::ZERO],
        }
    }
}

impl<F: Field> Algebra<F> for BinomialExtensionField<F, 4> {
    ghost from_law = { λ _ _ given. given };
}

impl<F: BinomiallyExtendable<4>> AlgebraIdentity<F> for BinomialExtensionField<F, 4> {
    ghost identity = { F.extension_identity };

    fn algebra_id() -> &'static [u8] {
        F::extension_id()
    }
}

// The name of the type, whatever its field and dimension.
const NAME_OF_TYPE: &str = "BinomialExtensionField";

impl<F, const D: usize> Named for BinomialExtensionField<F, D> {
    const NAME: &'static str = NAME_OF_TYPE;

    ghost name_bytes = { codes "BinomialExtensionField" };

    fn type_name() -> &'static str {
        NAME_OF_TYPE
    }
}
