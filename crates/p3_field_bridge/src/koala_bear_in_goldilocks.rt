//! `KoalaBear` in `Goldilocks`: two scalars to a cell.
use crate::FieldBridge;
use p3_goldilocks::Goldilocks;
use p3_small_primes::KoalaBear;

impl FieldBridge<KoalaBear, Goldilocks> for Goldilocks {
    ghost use Rattle.std.proofs.Common.{lit<, lit≤};
    ghost use Rattle.p3_field_bridge.specs.BridgeLaws.{least_bits, counts_of_greater};

    const RADIX_BITS: u32 = 31;

    ghost RADIX_BITS = { 31 };

    const ABSORB_COUNT: usize = 2;

    ghost ABSORB_COUNT = { 2 };

    const SQUEEZE_COUNT: usize = 1;

    ghost SQUEEZE_COUNT = { 1 };

    ghost are_radix_bits = { least_bits _ _ (lit≤ tt) (lit< tt) };

    ghost are_counts = { counts_of_greater _ _ _ _ _ (lit≤ tt) (lit≤ tt) (lit≤ tt) (lit≤ tt) };
}
