//! Elements of a small prime field side by side in lanes.
ghost use Rattle.std.{specs.Prelude.{◌≡◌, ◌<◌, ℕ, length, slice_index}, proofs.Common.{lit<, lit≤}};
ghost use Rattle.p3_field_core.specs.Residues.{sum_of, difference_of, product_of};
ghost use Rattle.p3_small_primes.specs.SmallPrimes.{residues_below};

use crate::lane_numbers::{lane_differences, lane_products, lane_sums};
use crate::{PackedField, PackedValue};
use p3_field_core::PrimeField32;
use p3_small_primes::{BabyBear, F257, KoalaBear, SmallOrder, SmallPrime};
use std::ops::{Add, Mul, Sub};
use std::simd::Simd;

/// `N` elements of the prime field of order `ORDER` side by side, stored as their canonical
/// numbers.
///
/// Each number is below the order, by an invariant of the type, so two such values are equal where
/// their elements are. Sums and differences are vector operations. So are products modulo the
/// orders of [`BabyBear`] and [`KoalaBear`]; modulo other orders they may be computed lane by lane.
///
/// Not in the Rust crate, which has a packed type for each field and instruction set.
#[derive(Clone, Copy, Debug, PartialEq, Eq)]
pub struct SmallPrimeLanes<const ORDER: u32, const N: usize> {
    numbers: [u32; N],
    ghost full: { length numbers ≡ N },
    ghost canonical: { (l : ℕ) → l < N → slice_index numbers l < ORDER },
}

/// Eight elements of [`BabyBear`] side by side, one in each lane.
///
/// Not in the Rust crate, which has a packed type for each field and instruction set.
pub type BabyBearLanes = SmallPrimeLanes<2013265921, 8>;

/// Eight elements of [`KoalaBear`] side by side, one in each lane.
///
/// Not in the Rust crate, which has a packed type for each field and instruction set.
pub type KoalaBearLanes = SmallPrimeLanes<2130706433, 8>;

/// Four elements of [`F257`] side by side, one in each lane.
///
/// Not in the Rust crate, which has a packed type for each field and instruction set.
pub type F257Lanes = SmallPrimeLanes<257, 4>;

impl<const ORDER: u32, const N: usize> Add for SmallPrimeLanes<ORDER, N>
where
    SmallPrime<ORDER>: SmallOrder<ORDER>,
{
    ghost use Rattle.p3_lanes.specs.SmallPrimesInLanes.{IsInEachLane};

    type Output = Self;

    ghost add_gives = { λ x y r.
        let above_one = ⟦<SmallPrime<ORDER> as SmallOrder<ORDER>>⟧.above_one in
        let operation = sum_of (residues_below ORDER above_one) in
        IsInEachLane above_one N operation x.numbers y.numbers r.numbers };

    fn add(self, rhs: Self) -> Self {
        let left = Simd::from_array(self.numbers);
        let right = Simd::from_array(rhs.numbers);
        SmallPrimeLanes {
            numbers: lane_sums(left, right, ORDER).to_array(),
        }
    }
}

impl<const ORDER: u32, const N: usize> Sub for SmallPrimeLanes<ORDER, N>
where
    SmallPrime<ORDER>: SmallOrder<ORDER>,
{
    ghost use Rattle.p3_lanes.specs.SmallPrimesInLanes.{IsInEachLane};

    type Output = Self;

    ghost sub_gives = { λ x y r.
        let above_one = ⟦<SmallPrime<ORDER> as SmallOrder<ORDER>>⟧.above_one in
        let operation = difference_of (residues_below ORDER above_one) in
        IsInEachLane above_one N operation x.numbers y.numbers r.numbers };

    fn sub(self, rhs: Self) -> Self {
        let left = Simd::from_array(self.numbers);
        let right = Simd::from_array(rhs.numbers);
        SmallPrimeLanes {
            numbers: lane_differences(left, right, ORDER).to_array(),
        }
    }
}

impl<const ORDER: u32, const N: usize> Mul for SmallPrimeLanes<ORDER, N>
where
    SmallPrime<ORDER>: SmallOrder<ORDER>,
{
    ghost use Rattle.p3_lanes.specs.SmallPrimesInLanes.{IsInEachLane};

    type Output = Self;

    ghost mul_gives = { λ x y r.
        let above_one = ⟦<SmallPrime<ORDER> as SmallOrder<ORDER>>⟧.above_one in
        let operation = product_of (residues_below ORDER above_one) in
        IsInEachLane above_one N operation x.numbers y.numbers r.numbers };

    fn mul(self, rhs: Self) -> Self {
        SmallPrimeLanes {
            numbers: lane_products(self.numbers, rhs.numbers, ORDER),
        }
    }
}

impl<const ORDER: u32, const N: usize> PackedValue<SmallPrime<ORDER>> for SmallPrimeLanes<ORDER, N>
where
    SmallPrime<ORDER>: SmallOrder<ORDER>,
{
    ghost use Rattle.p3_lanes.specs.SmallPrimesInLanes.{element_in};

    const WIDTH: usize = N;

    ghost WIDTH = { N };

    ghost in_lane = { λ l x.
        element_in ⟦<SmallPrime<ORDER> as SmallOrder<ORDER>>⟧.above_one l x.numbers };

    ghost can_add_law = { λ _ _. tt };

    ghost add_law = { λ _ _ _ given. given };

    ghost can_sub_law = { λ _ _. tt };

    ghost sub_law = { λ _ _ _ given. given };

    ghost can_mul_law = { λ _ _. tt };

    ghost mul_law = { λ _ _ _ given. given };

    fn broadcast(value: SmallPrime<ORDER>) -> Self {
        SmallPrimeLanes {
            numbers: [value.as_canonical_u32(); N],
        }
    }

    fn lane(self, index: usize) -> SmallPrime<ORDER> {
        SmallPrime::from_canonical_u32(self.numbers[index])
    }

    fn with_lane(self, index: usize, value: SmallPrime<ORDER>) -> Self {
        let mut numbers = self.numbers;
        numbers[index] = value.as_canonical_u32();
        SmallPrimeLanes { numbers }
    }
}

impl PackedField for BabyBear {
    type Packing = BabyBearLanes;

    ghost some_lanes = { lit< tt };

    ghost lanes_are_small = { lit≤ tt };
}

impl PackedField for KoalaBear {
    type Packing = KoalaBearLanes;

    ghost some_lanes = { lit< tt };

    ghost lanes_are_small = { lit≤ tt };
}

impl PackedField for F257 {
    type Packing = F257Lanes;

    ghost some_lanes = { lit< tt };

    ghost lanes_are_small = { lit≤ tt };
}
