//! `KoalaBear` in itself: a cell is one scalar.
use crate::FieldBridge;
use p3_small_primes::KoalaBear;

// The order is not below itself, so nothing is owed of the counts.
impl FieldBridge<KoalaBear, KoalaBear> for KoalaBear {
    ghost use Rattle.std.proofs.Common.{lit<, lit≤};
    ghost use Rattle.p3_field_bridge.specs.BridgeLaws.{least_bits, counts_of_no_greater};

    const RADIX_BITS: u32 = 31;

    ghost RADIX_BITS = { 31 };

    const ABSORB_COUNT: usize = 1;

    ghost ABSORB_COUNT = { 1 };

    const SQUEEZE_COUNT: usize = 1;

    ghost SQUEEZE_COUNT = { 1 };

    ghost are_radix_bits = { least_bits _ _ (lit≤ tt) (lit< tt) };

    ghost are_counts = { counts_of_no_greater _ _ _ _ _ (lit≤ tt) };
}
