//! A user-defined algebra over a field, for steps that carry elements of an extension.
//!
//! A driver needs two things of an algebra: an element by its coefficients, and a text that identifies the algebra
//! and its basis. The text is hashed into the pattern, so protocols over two algebras, or on two bases of one, have
//! different seeds. A transcript does not use the sums and products of elements.
ghost use Rattle.std.specs.Prelude.{◌≡◌};

use p3_field::{Algebra, AlgebraIdentity, BabyBear, BasedVectorSpace, Coeffs, Named};

/// A polynomial modulo X^4 - 176 over the field: its coefficients on 1, X, X^2 and X^3.
#[derive(Clone, Copy, Debug, PartialEq, Eq)]
pub struct Quartic {
    coefficients: Coeffs<BabyBear, 4>,
}

impl Quartic {
    ghost use Rattle.std.specs.Prelude.{◌≡◌};

    /// Returns the polynomial with these coefficients, that of 1 first.
    pub fn new(coefficients: [BabyBear; 4]) -> Self
        ensures { ⟦<Quartic as BasedVectorSpace<BabyBear>>⟧.coefficients result ≡ coefficients }
    {
        Quartic {
            coefficients: Coeffs::new(coefficients),
        }
    }
}

impl BasedVectorSpace<BabyBear> for Quartic {
    ghost use Rattle.std.proofs.Common.{lit<, lit≤};
    ghost use Rattle.p3_field.specs.BabyBearResidues.{residues};
    ghost use Rattle.p3_field.specs.CoefficientLaws as laws;
    ghost use Rattle.p3_field.specs.SmallPrimeLaws.{compared-by-numbers};
    ghost use Rattle.uses.specs.OwnAlgebra.{coefficients_of, element_of};
    ghost use Rattle.uses.specs.OwnAlgebraLaws.{coefficients-injective, compared-by-coefficients};

    const DIMENSION: usize = 4;

    ghost DIMENSION = { 4 };

    ghost coefficients = { coefficients_of };

    ghost element = { element_of };

    ghost at_least_one = { lit< tt };

    ghost at_most = { lit≤ tt };

    ghost length_coefficients = { λ x. laws.length-coefficients x.coefficients };

    ghost same_coefficients = { coefficients-injective };

    ghost eq_law = { compared-by-coefficients compared-by-numbers };

    ghost coefficients_element = { laws.coefficients-element_of (residues.of 0) };

    fn as_basis_coefficients_slice(&self) -> &[BabyBear] {
        self.coefficients.as_basis_coefficients_slice()
    }

    fn zero() -> Self {
        Quartic {
            coefficients: Coeffs::zero(),
        }
    }

    fn with_coefficient(self, index: usize, value: BabyBear) -> Self {
        Quartic {
            coefficients: self.coefficients.with_coefficient(index, value),
        }
    }
}

impl From<BabyBear> for Quartic {
    ghost use Rattle.std.specs.Prelude.{◌≡◌, ◌∷◌, replicate};
    ghost use Rattle.p3_field.specs.BabyBearResidues.{residues};
    ghost use Rattle.uses.specs.OwnAlgebra.{coefficients_of};

    ghost from_gives = { λ value x. coefficients_of x ≡ value ∷ replicate 3 (residues.of 0) };

    fn from(value: BabyBear) -> Self {
        Quartic {
            coefficients: Coeffs::from(value),
        }
    }
}

impl Algebra<BabyBear> for Quartic {
    ghost from_law = { λ _ _ given. given };
}

impl AlgebraIdentity<BabyBear> for Quartic {
    ghost use Rattle.std.specs.Prelude.{codes};

    ghost identity = { codes "test:X^4-176;basis=1,X,X^2,X^3" };

    fn algebra_id() -> &'static [u8] {
        b"test:X^4-176;basis=1,X,X^2,X^3"
    }
}

impl Named for Quartic {
    ghost use Rattle.std.specs.Prelude.{codes};

    const NAME: &'static str = "Quartic";

    ghost name_bytes = { codes "Quartic" };

    fn type_name() -> &'static str {
        Self::NAME
    }
}
