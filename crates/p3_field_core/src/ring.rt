//! Rings whose elements are residues modulo their order.
ghost use Rattle.std.specs.Prelude.{◌≡◌, ◌-◌};
ghost use Rattle.p3_field_core.specs.{Equality.IsExact, Rings.IsRing};
ghost use Rattle.p3_field_core.specs.Residues.{Residues, IsResidues, sum_of, difference_of, product_of, power_of};

use crate::exponentiation::power;
use std::ops::{Add, Mul, Sub};

/// The ring of the residues modulo a prime, which is the order.
///
/// Contracts see an element by its canonical number, which is below the order. Elements compare equal exactly where
/// they are the same.
///
/// Corresponds to `p3-field`'s `PrimeCharacteristicRing`.
pub trait PrimeCharacteristicRing: Copy
    + PartialEq
    + Add<Self, Output = Self>
    + Sub<Self, Output = Self>
    + Mul<Self, Output = Self> {
    /// The element 0.
    const ZERO: Self;

    ghost ZERO: { Self };

    /// The element 1.
    const ONE: Self;

    ghost ONE: { Self };

    /// The additive inverse of 1.
    const NEG_ONE: Self;

    ghost NEG_ONE: { Self };

    // The order, the canonical number of an element, and the element that a number is.
    ghost residues: { Residues Self };

    /// Returns the element of a number modulo the order.
    fn from_u8(value: u8) -> Self
        ensures { result ≡ residues.of value };

    /// Returns the element of a number modulo the order.
    fn from_u16(value: u16) -> Self
        ensures { result ≡ residues.of value };

    /// Returns the element of a number modulo the order.
    fn from_u32(value: u32) -> Self
        ensures { result ≡ residues.of value };

    /// Returns the element of a number modulo the order.
    fn from_u64(value: u64) -> Self
        ensures { result ≡ residues.of value };

    /// Returns a power of the element. The power 0 is 1, even of 0.
    final fn exp_u64(self, exponent: u64) -> Self
        ensures { result ≡ power_of residues self exponent }
    {
        power(self, exponent)
    }

    // The elements are exactly the numbers below the order.
    ghost are_residues: { IsResidues residues };

    // Elements compare equal exactly where they are one.
    ghost eq_law: { IsExact Self.eq };

    // The constants are the elements of 0, of 1 and of the order less 1.
    ghost zero_is: { ZERO ≡ residues.of 0 };

    ghost one_is: { ONE ≡ residues.of 1 };

    ghost neg_one_is: { NEG_ONE ≡ residues.of (residues.order - 1) };

    ghost number_zero: { residues.number ZERO ≡ 0 };

    ghost number_one: { residues.number ONE ≡ 1 };

    ghost number_neg_one: { residues.number NEG_ONE ≡ residues.order - 1 };

    // Every two elements have a sum, a difference and a product: those of their numbers, modulo the
    // order.
    ghost can_add_law: { (x y : Self) → Self.can_add x y };

    ghost add_law: { (x y r : Self) → Self.add_gives x y r → r ≡ sum_of residues x y };

    ghost can_sub_law: { (x y : Self) → Self.can_sub x y };

    ghost sub_law: { (x y r : Self) → Self.sub_gives x y r → r ≡ difference_of residues x y };

    ghost can_mul_law: { (x y : Self) → Self.can_mul x y };

    ghost mul_law: { (x y r : Self) → Self.mul_gives x y r → r ≡ product_of residues x y };
}

/// Elements add, subtract and multiply as numbers do, modulo the order. Sums and products are commutative and
/// associative, with the neutral elements 0 and 1. Products distribute over sums and differences. A summand on both
/// sides cancels.
///
/// A law: the body is empty, and a caller cites the clause.
#[tactic(auto, using(crate::specs::RingLaws::residues_ring))]
pub fn residues_are_a_ring<F: PrimeCharacteristicRing>()
    ensures { IsRing F.residues }
{}
