//! Elements side by side in lanes, with operations on all lanes at once.
ghost use Rattle.std.specs.Prelude.{◌≡◌, ℕ, ◌<◌, nat_eq, if◌then◌else◌};
ghost use Rattle.p3_field_core.specs.Residues.{sum_of, difference_of, product_of};

use p3_field_core::PrimeCharacteristicRing;
use std::ops::{Add, Mul, Sub};

/// Elements of a ring side by side, one in each of `WIDTH` lanes. The sum, the difference and the
/// product of two such values are computed in each lane.
///
/// Corresponds to `p3-field`'s `PackedValue`, which lends its lanes as a slice. This trait copies an element out of
/// a lane.
pub trait PackedValue<F: PrimeCharacteristicRing>: Copy
    + Add<Self, Output = Self>
    + Sub<Self, Output = Self>
    + Mul<Self, Output = Self> {
    /// The number of lanes.
    const WIDTH: usize;

    ghost WIDTH: { ℕ };

    // The element in each lane.
    ghost in_lane: { ℕ → Self → F };

    /// Returns a value with the same element in each lane.
    fn broadcast(value: F) -> Self
        ensures { (l : ℕ) → l < WIDTH → in_lane l result ≡ value };

    /// Returns the element in a lane.
    fn lane(self, index: usize) -> F
        requires { index < WIDTH }
        ensures { result ≡ in_lane index self };

    /// Returns the value with the element of one lane replaced. Not in `p3-field`'s trait.
    fn with_lane(self, index: usize, value: F) -> Self
        requires { index < WIDTH }
        ensures { (l : ℕ) → l < WIDTH →
            in_lane l result ≡ (if nat_eq l index then value else in_lane l self) };

    /// Returns a value with the function's result for each lane in that lane.
    final fn from_fn<G: Fn(usize) -> F>(element: G) -> Self
        requires { (l : ℕ) → l < WIDTH → G.pre element l }
        ensures { (l : ℕ) → l < WIDTH → G.post element l (in_lane l result) }
    {
        let mut lanes = Self::broadcast(F::ZERO);
        'lanes: for l in 0..Self::WIDTH {
            lanes = lanes.with_lane(l, element(l));
        }
        lanes
    }

    // Every two values have a sum, a difference and a product, lane by lane.
    ghost can_add_law: { (x y : Self) → Self.can_add x y };

    ghost add_law: { (x y r : Self) → Self.add_gives x y r → (l : ℕ) → l < WIDTH →
        in_lane l r ≡ sum_of F.residues (in_lane l x) (in_lane l y) };

    ghost can_sub_law: { (x y : Self) → Self.can_sub x y };

    ghost sub_law: { (x y r : Self) → Self.sub_gives x y r → (l : ℕ) → l < WIDTH →
        in_lane l r ≡ difference_of F.residues (in_lane l x) (in_lane l y) };

    ghost can_mul_law: { (x y : Self) → Self.can_mul x y };

    ghost mul_law: { (x y r : Self) → Self.mul_gives x y r → (l : ℕ) → l < WIDTH →
        in_lane l r ≡ product_of F.residues (in_lane l x) (in_lane l y) };
}
