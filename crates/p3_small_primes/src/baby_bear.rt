//! The field of order 15 * 2^27 + 1.
ghost use Rattle.std.{specs.Prelude.codes, proofs.Common.{lit<, lit≤}};

use crate::{SmallOrder, SmallPrime};
use p3_field_core::BinomiallyExtendable;

/// An element of the prime field of order 2013265921 = 15 * 2^27 + 1.
///
/// The field of the Rust crate `p3-baby-bear`.
pub type BabyBear = SmallPrime<2013265921>;

impl SmallOrder<2013265921> for BabyBear {
    ghost above_one = { lit< tt };

    ghost fits_u32 = { lit< tt };

    ghost bit_length = { 31 };

    ghost bits_below = { lit< tt };

    ghost bits_least = { lit≤ tt };

    fn order_bits() -> usize {
        31
    }

    const SINGLE_SAMPLE_BITS: usize = 27;

    ghost SINGLE_SAMPLE_BITS = { 27 };

    ghost single_sample_within = { lit≤ tt };

    const FIELD_NAME: &'static str = "BabyBear";

    ghost field_name_bytes = { codes "BabyBear" };

    fn name_of_field() -> &'static str {
        Self::FIELD_NAME
    }

    ghost field_identity_bytes = { codes "prime:2013265921" };

    fn field_identity() -> &'static [u8] {
        b"prime:2013265921"
    }
}

impl BinomiallyExtendable<4> for BabyBear {
    ghost extension_identity = { codes "binomial:2013265921:4:11" };

    fn extension_id() -> &'static [u8] {
        b"binomial:2013265921:4:11"
    }
}
