//! The field of order 257, small enough to work rows out by hand.
use crate::{SmallOrder, SmallPrime};

/// An element of the prime field of order 257.
///
/// Not in the Rust crate: for worked rows and tests.
pub type F257 = SmallPrime<257>;

impl SmallOrder<257> for F257 {
    ghost use Rattle.std.{specs.Prelude.codes, proofs.Common.{lit<, lit≤}};

    ghost above_one = { lit< tt };

    ghost fits_u32 = { lit< tt };

    ghost bit_length = { 9 };

    ghost bits_below = { lit< tt };

    ghost bits_least = { lit≤ tt };

    fn order_bits() -> usize {
        9
    }

    const SINGLE_SAMPLE_BITS: usize = 8;

    ghost SINGLE_SAMPLE_BITS = { 8 };

    ghost single_sample_within = { lit≤ tt };

    const FIELD_NAME: &'static str = "F257";

    ghost field_name_bytes = { codes "F257" };

    fn name_of_field() -> &'static str {
        Self::FIELD_NAME
    }

    ghost field_identity_bytes = { codes "prime:257" };

    fn field_identity() -> &'static [u8] {
        b"prime:257"
    }
}
