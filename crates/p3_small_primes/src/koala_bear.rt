//! The field of order 127 * 2^24 + 1.
ghost use Rattle.std.{specs.Prelude.codes, proofs.Common.{lit<, lit≤}};

use crate::{SmallOrder, SmallPrime};
use p3_field_core::BinomiallyExtendable;

/// An element of the prime field of order 2130706433 = 127 * 2^24 + 1 = 2^31 - 2^24 + 1.
///
/// The field of the Rust crate `p3-koala-bear`.
pub type KoalaBear = SmallPrime<2130706433>;

impl SmallOrder<2130706433> for KoalaBear {
    ghost above_one = { lit< tt };

    ghost fits_u32 = { lit< tt };

    ghost bit_length = { 31 };

    ghost bits_below = { lit< tt };

    ghost bits_least = { lit≤ tt };

    fn order_bits() -> usize {
        31
    }

    const SINGLE_SAMPLE_BITS: usize = 24;

    ghost SINGLE_SAMPLE_BITS = { 24 };

    ghost single_sample_within = { lit≤ tt };

    const FIELD_NAME: &'static str = "KoalaBear";

    ghost field_name_bytes = { codes "KoalaBear" };

    fn name_of_field() -> &'static str {
        Self::FIELD_NAME
    }

    ghost field_identity_bytes = { codes "prime:2130706433" };

    fn field_identity() -> &'static [u8] {
        b"prime:2130706433"
    }
}

impl BinomiallyExtendable<4> for KoalaBear {
    ghost extension_identity = { codes "binomial:2130706433:4:3" };

    fn extension_id() -> &'static [u8] {
        b"binomial:2130706433:4:3"
    }
}
