//! Sums, differences and products in an extension of degree 4: of polynomials modulo `X^4 - W`.
ghost use Rattle.std.specs.Prelude.{◌≡◌, ◌∷◌, replicate};
ghost use Rattle.p3_extension.specs.BinomialExtensions.{polynomial_sum, polynomial_difference, polynomial_product};
ghost use Rattle.p3_extension.specs.BinomialExtensions.{constant, inner_product_of};
ghost use Rattle.p3_extension.specs.{ExtensionCoefficients.coefficients_of, ExtensionRings.IsExtension};
ghost use Rattle.p3_extension.specs.declared.binomial_extension_field.BinomialExtensionField.{BinomialExtensionField};

use crate::{BinomialExtensionField, BinomialModulus};
use p3_field_core::Field;
use std::ops::{Add, Mul, Sub};

impl<F: Field> Add for BinomialExtensionField<F, 4> {
    type Output = Self;

    ghost add_gives = { λ x y r. r ≡ polynomial_sum F.residues x y };

    fn add(self, rhs: Self) -> Self {
        let [x0, x1, x2, x3] = self.coefficients;
        let [y0, y1, y2, y3] = rhs.coefficients;
        BinomialExtensionField::new([x0 + y0, x1 + y1, x2 + y2, x3 + y3])
    }
}

impl<F: Field> Sub for BinomialExtensionField<F, 4> {
    type Output = Self;

    ghost sub_gives = { λ x y r. r ≡ polynomial_difference F.residues x y };

    fn sub(self, rhs: Self) -> Self {
        let [x0, x1, x2, x3] = self.coefficients;
        let [y0, y1, y2, y3] = rhs.coefficients;
        BinomialExtensionField::new([x0 - y0, x1 - y1, x2 - y2, x3 - y3])
    }
}

impl<F: BinomialModulus<4>> Mul for BinomialExtensionField<F, 4> {
    type Output = Self;

    ghost mul_gives = { λ x y r. r ≡ polynomial_product F.residues (F.residues.of F.W) x y };

    fn mul(self, rhs: Self) -> Self {
        let x = self.coefficients;
        let [y0, y1, y2, y3] = rhs.coefficients;
        // `X^4` is `W`, so what stands above the diagonal is multiplied by it.
        let w = F::from_u8(F::W);
        let (wy1, wy2, wy3) = (w * y1, w * y2, w * y3);
        BinomialExtensionField::new([
            inner_product(x, [y0, wy3, wy2, wy1]),
            inner_product(x, [y1, y0, wy3, wy2]),
            inner_product(x, [y2, y1, y0, wy3]),
            inner_product(x, [y3, y2, y1, y0]),
        ])
    }
}

// The sum of the products of the elements at each place.
fn inner_product<F: Field>(x: [F; 4], y: [F; 4]) -> F
    ensures { result ≡ inner_product_of F.residues 4 x y }
{
    let [x0, x1, x2, x3] = x;
    let [y0, y1, y2, y3] = y;
    x0 * y0 + x1 * y1 + x2 * y2 + x3 * y3
}

/// The polynomials modulo `X^4 - W` are a commutative ring that contains the field, and `X^4` is `W`: sums and
/// products are commutative and associative, with the neutral elements 0 and 1, and products distribute over sums.
///
/// An element with this value as coefficient 0 and zeros elsewhere is the value's constant.
///
/// A law: the body is empty, and a caller cites the clauses.
pub fn extensions_are_rings<F: BinomialModulus<4>>()
    ensures ring { IsExtension 4 F.residues (F.residues.of F.W) }
    ensures constants { (c : F) (x : BinomialExtensionField F 4) →
        coefficients_of x ≡ c ∷ replicate 3 (F.residues.of 0) → x ≡ constant F.residues c }
{}
