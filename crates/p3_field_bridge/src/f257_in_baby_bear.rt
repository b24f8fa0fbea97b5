//! `F257` in `BabyBear`.
use crate::FieldBridge;
use p3_small_primes::{BabyBear, F257};

impl FieldBridge<F257, BabyBear> for BabyBear {
    ghost use Rattle.std.proofs.Common.{lit<, lit≤};
    ghost use Rattle.p3_field_bridge.specs.BridgeLaws.{least_bits, counts_of_greater};

    const RADIX_BITS: u32 = 9;

    ghost RADIX_BITS = { 9 };

    const ABSORB_COUNT: usize = 3;

    ghost ABSORB_COUNT = { 3 };

    const SQUEEZE_COUNT: usize = 2;

    ghost SQUEEZE_COUNT = { 2 };

    ghost are_radix_bits = { least_bits _ _ (lit≤ tt) (lit< tt) };

    ghost are_counts = { counts_of_greater _ _ _ _ _ (lit≤ tt) (lit≤ tt) (lit≤ tt) (lit≤ tt) };
}
