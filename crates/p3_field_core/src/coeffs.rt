//! An element of a vector space as an array of coefficients.
ghost use Rattle.std.{specs.Prelude.{◌≡◌, length, ⊤, ◌∷◌, replicate, codes}, proofs.Common.{lit<, lit≤}};

use crate::{Algebra, AlgebraIdentity, BasedVectorSpace, BinomiallyExtendable, Field, Named};
use std::alloc::AllocError;

/// An array of coefficients: an element of a vector space of dimension `D` over a field.
///
/// Not in the Rust crate. The type has the coefficients of an extension's element, without sums and
/// products.
#[derive(Debug, PartialEq, Eq)]
pub struct Coeffs<F, const D: usize> {
    coefficients: [F; D],
    ghost full: { length coefficients ≡ D },
}

impl<F: Copy, const D: usize> Clone for Coeffs<F, D> {
    ghost is_clone = { λ x y. y ≡ x };

    ghost is_infallible = { λ _. ⊤ };

    fn clone(&self) -> Result<Self, AllocError> {
        Ok(*self)
    }
}

impl<F: Copy, const D: usize> Copy for Coeffs<F, D> {}

impl<F: Field, const D: usize> Coeffs<F, D> {
    ghost use Rattle.p3_field_core.specs.{CoeffsCoefficients.coefficients_of, Equality.IsExact};

    /// Returns the element with these coefficients.
    pub fn new(coefficients: [F; D]) -> Self
        ensures { coefficients_of result ≡ coefficients }
    {
        Coeffs { coefficients }
    }

    /// Two elements compare equal exactly where they are the same, in any dimension.
    ///
    /// A law: the body is empty, and a caller cites the clause.
    pub fn compared_by_coefficients()
        ensures { IsExact ⟦<Coeffs<F, D> as PartialEq>⟧.eq }
    {}
}

impl<F: Field> BasedVectorSpace<F> for Coeffs<F, 4> {
    ghost use Rattle.p3_field_core.specs.CoeffsCoefficients as coeffs;
    ghost use Rattle.p3_field_core.specs.CoefficientLaws as laws;

    const DIMENSION: usize = 4;

    ghost DIMENSION = { 4 };

    ghost coefficients = { coeffs.coefficients_of };

    ghost element = { coeffs.element_of (F.residues.of 0) };

    ghost at_least_one = { lit< tt };

    ghost at_most = { lit≤ tt };

    ghost length_coefficients = { laws.length-coefficients };

    ghost same_coefficients = { laws.coefficients-injective };

    ghost eq_law = { laws.compared-by-coefficients F.eq_law };

    ghost coefficients_element = { laws.coefficients-element_of (F.residues.of 0) };

    fn as_basis_coefficients_slice(&self) -> &[F] {
        &self.coefficients[..]
    }

    fn zero() -> Self {
        Coeffs {
            coefficients: [F::ZERO; 4],
        }
    }

    fn with_coefficient(self, index: usize, value: F) -> Self {
        let mut coefficients = self.coefficients;
        coefficients[index] = value;
        Coeffs::new(coefficients)
    }
}

impl<F: Field> From<F> for Coeffs<F, 4> {
    ghost use Rattle.p3_field_core.specs.CoeffsCoefficients as coeffs;

    ghost from_gives = { λ value x.
        coeffs.coefficients_of x ≡ value ∷ replicate 3 (F.residues.of 0) };

    fn from(value: F) -> Self {
        Coeffs {
            coefficients: [value, F::ZERO, F::ZERO, F::ZERO],
        }
    }
}

impl<F: Field> Algebra<F> for Coeffs<F, 4> {
    ghost from_law = { λ _ _ given. given };
}

impl<F: BinomiallyExtendable<4>> AlgebraIdentity<F> for Coeffs<F, 4> {
    ghost identity = { F.extension_identity };

    fn algebra_id() -> &'static [u8] {
        F::extension_id()
    }
}

// The name of the type, whatever its field and dimension.
const COEFFS: &str = "Coeffs";

impl<F, const D: usize> Named for Coeffs<F, D> {
    const NAME: &'static str = COEFFS;

    ghost name_bytes = { codes "Coeffs" };

    fn type_name() -> &'static str {
        COEFFS
    }
}
