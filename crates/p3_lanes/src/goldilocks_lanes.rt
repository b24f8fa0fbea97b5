//! Elements of Goldilocks side by side in lanes.
ghost use Rattle.std.{specs.Prelude.{◌≡◌, ℕ, ◌<◌, ◌+◌, ◌-◌, ◌*◌, ◌%◌, slice_index}, proofs.Common.{lit<, lit≤}};
ghost use Rattle.p3_goldilocks.specs.GoldilocksResidues.{order, residues};
ghost use Rattle.p3_field_core.specs.Residues.{sum_of, difference_of, product_of};

use crate::{PackedField, PackedValue};
use p3_field_core::PrimeField64;
use p3_goldilocks::Goldilocks;
use std::ops::{Add, Mul, Sub};
use std::simd::{Simd, u64x4};

/// Four elements of [`Goldilocks`] side by side, stored as their canonical numbers.
///
/// Each number is below the order, by an invariant of the type, so two such values are equal where
/// their elements are. Sums and differences are vector operations; products are computed lane by
/// lane.
///
/// Not in the Rust crate, which has a packed type for each field and instruction set.
#[derive(Clone, Copy, Debug, PartialEq, Eq)]
pub struct GoldilocksLanes {
    numbers: [u64; 4],
    ghost canonical: { (l : ℕ) → l < 4 → slice_index numbers l < 18446744069414584321 },
}

// The order of the field.
const ORDER: u64 = Goldilocks::ORDER_U64;

impl Add for GoldilocksLanes {
    ghost use Rattle.p3_lanes.specs.GoldilocksInLanes.{IsInEachLane};

    type Output = GoldilocksLanes;

    ghost add_gives = { λ x y r. IsInEachLane (sum_of residues) x.numbers y.numbers r.numbers };

    fn add(self, rhs: GoldilocksLanes) -> GoldilocksLanes {
        let left = Simd::from_array(self.numbers);
        let right = Simd::from_array(rhs.numbers);
        GoldilocksLanes {
            numbers: lane_sums(left, right).to_array(),
        }
    }
}

impl Sub for GoldilocksLanes {
    ghost use Rattle.p3_lanes.specs.GoldilocksInLanes.{IsInEachLane};

    type Output = GoldilocksLanes;

    ghost sub_gives = { λ x y r.
        IsInEachLane (difference_of residues) x.numbers y.numbers r.numbers };

    fn sub(self, rhs: GoldilocksLanes) -> GoldilocksLanes {
        let left = Simd::from_array(self.numbers);
        let right = Simd::from_array(rhs.numbers);
        GoldilocksLanes {
            numbers: lane_differences(left, right).to_array(),
        }
    }
}

impl Mul for GoldilocksLanes {
    ghost use Rattle.p3_lanes.specs.GoldilocksInLanes.{IsInEachLane};

    type Output = GoldilocksLanes;

    ghost mul_gives = { λ x y r. IsInEachLane (product_of residues) x.numbers y.numbers r.numbers };

    fn mul(self, rhs: GoldilocksLanes) -> GoldilocksLanes {
        GoldilocksLanes {
            numbers: lane_products(self.numbers, rhs.numbers),
        }
    }
}

impl PackedValue<Goldilocks> for GoldilocksLanes {
    ghost use Rattle.p3_lanes.specs.GoldilocksInLanes.{element_in};

    const WIDTH: usize = 4;

    ghost WIDTH = { 4 };

    ghost in_lane = { λ l x. element_in l x.numbers };

    ghost can_add_law = { λ _ _. tt };

    ghost add_law = { λ _ _ _ given. given };

    ghost can_sub_law = { λ _ _. tt };

    ghost sub_law = { λ _ _ _ given. given };

    ghost can_mul_law = { λ _ _. tt };

    ghost mul_law = { λ _ _ _ given. given };

    fn broadcast(value: Goldilocks) -> GoldilocksLanes {
        GoldilocksLanes {
            numbers: [value.as_canonical_u64(); 4],
        }
    }

    fn lane(self, index: usize) -> Goldilocks {
        Goldilocks::from_canonical(self.numbers[index])
    }

    fn with_lane(self, index: usize, value: Goldilocks) -> GoldilocksLanes {
        let mut numbers = self.numbers;
        numbers[index] = value.as_canonical_u64();
        GoldilocksLanes { numbers }
    }
}

impl PackedField for Goldilocks {
    type Packing = GoldilocksLanes;

    ghost some_lanes = { lit< tt };

    ghost lanes_are_small = { lit≤ tt };
}

// The sums modulo the order: the plain sum where it is below the order, and else the order less.
// No lane wraps, although two numbers below the order may be more than 64 bits hold.
#[inline(always)]
fn lane_sums(x: u64x4, y: u64x4) -> u64x4
    requires left { (l : ℕ) → l < 4 → slice_index x l < order }
    requires right { (l : ℕ) → l < 4 → slice_index y l < order }
    ensures { (l : ℕ) → l < 4 → slice_index result l ≡ (slice_index x l + slice_index y l) % order }
{
    let room = Simd::splat(ORDER) - y;
    x.simd_lt(room).select(x + y, x - room)
}

// The differences modulo the order.
#[inline(always)]
fn lane_differences(x: u64x4, y: u64x4) -> u64x4
    requires left { (l : ℕ) → l < 4 → slice_index x l < order }
    requires right { (l : ℕ) → l < 4 → slice_index y l < order }
    ensures { (l : ℕ) → l < 4 →
        slice_index result l ≡ (slice_index x l + (order - slice_index y l)) % order }
{
    x.simd_lt(y).select(x + (Simd::splat(ORDER) - y), x - y)
}

// The products modulo the order, one lane after the other: a product of two lanes takes 128 bits.
#[inline(always)]
fn lane_products(x: [u64; 4], y: [u64; 4]) -> [u64; 4]
    requires left { (l : ℕ) → l < 4 → slice_index x l < order }
    requires right { (l : ℕ) → l < 4 → slice_index y l < order }
    ensures { (l : ℕ) → l < 4 → slice_index result l ≡ slice_index x l * slice_index y l % order }
{
    let [x0, x1, x2, x3] = x;
    let [y0, y1, y2, y3] = y;
    [
        product(x0, y0),
        product(x1, y1),
        product(x2, y2),
        product(x3, y3),
    ]
}

// The product modulo the order.
#[inline(always)]
fn product(x: u64, y: u64) -> u64
    requires left { x < order }
    requires right { y < order }
    ensures { result ≡ x * y % order }
{
    (Goldilocks::from_canonical(x) * Goldilocks::from_canonical(y)).as_canonical_u64()
}
