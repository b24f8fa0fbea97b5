//! A bridge from a smaller field to a larger one. Elements of the smaller field are packed into an element of the
//! larger, whose digits are elements of the smaller.
ghost use Rattle.std.specs.Prelude.{◌≡◌, ℕ};
ghost use Rattle.p3_field_bridge.specs.Bridges.{packed, digit_of, AreRadixBits, AreCounts};

use p3_field_core::PrimeField64;

/// Defines how elements of a field `F` are packed into an element of another field, `PF`, and drawn from one as its
/// digits. The trait is implemented for `PF`.
///
/// Where the order of `F` is below that of `PF`, both counts are at least 1. As many numbers of
/// [`RADIX_BITS`](FieldBridge::RADIX_BITS) bits as are packed fit together below the order of `PF`. So does each number
/// of as many digits as are drawn. Of other fields nothing is known of the counts.
///
/// Not in the Rust crate, where the counts for two fields are functions of both fields' limbs.
pub trait FieldBridge<F: PrimeField64, PF: PrimeField64> {
    /// The least number of bits that hold the canonical number of each element of `F`.
    ///
    /// Corresponds to `p3-field`'s `absorb_radix_bits`.
    const RADIX_BITS: u32;

    ghost RADIX_BITS: { ℕ };

    /// The number of elements of `F` packed into an element of `PF`.
    ///
    /// In `p3-field` this is a function of both fields, `max_absorb_injective_limbs`; here the impl states it.
    const ABSORB_COUNT: usize;

    ghost ABSORB_COUNT: { ℕ };

    /// The number of digits of an element of `PF` drawn as elements of `F`.
    ///
    /// In `p3-field` this is a function of both fields, `squeeze_field_order_num_limbs`; here the impl states it.
    const SQUEEZE_COUNT: usize;

    ghost SQUEEZE_COUNT: { ℕ };

    /// Returns the number of elements of `F` packed into an element of `PF`, which is
    /// [`ABSORB_COUNT`](FieldBridge::ABSORB_COUNT).
    fn absorb_num() -> usize
        ensures { result ≡ ABSORB_COUNT }
    {
        Self::ABSORB_COUNT
    }

    /// Returns the number of digits of an element of `PF` drawn as elements of `F`, which is
    /// [`SQUEEZE_COUNT`](FieldBridge::SQUEEZE_COUNT).
    fn squeeze_num() -> usize
        ensures { result ≡ SQUEEZE_COUNT }
    {
        Self::SQUEEZE_COUNT
    }

    /// Returns the element that packs the values: that of the sum of their canonical numbers, each times `2^(b * j)`
    /// for the value at place `j`. Here `b` is [`RADIX_BITS`](FieldBridge::RADIX_BITS). With more values than are
    /// packed the sum may reach the order of `PF`, and is reduced modulo that order.
    ///
    /// Corresponds to `p3-field`'s `reduce_packed`.
    fn pack(values: &[F]) -> PF
        ensures { result ≡ packed F.residues PF.residues RADIX_BITS values.now }
    {
        let Some(highest) = values.last() else {
            return PF::ZERO;
        };
        let half = PF::from_u64(1 << (Self::RADIX_BITS - 1));
        let radix = half + half;
        let mut packed = PF::from_u64(highest.as_canonical_u64());
        for i in 1..values.len() {
            let place = values.len() - 1 - i;
            let value = values[place];
            packed = packed * radix + PF::from_u64(value.as_canonical_u64());
        }
        packed
    }

    /// Returns the digit at a place of the canonical number of an element, in the base of the order of `F`. Place 0 is
    /// the lowest. Past the highest digit all digits are 0.
    ///
    /// `p3-field`'s `split_pf_to_field_order_limbs` gives the first digits as a list.
    fn digit(value: PF, place: usize) -> F
        ensures { result ≡ digit_of F.residues PF.residues value place }
    {
        let order = F::ORDER_U64;
        let mut left = value.as_canonical_u64();
        for _ in 0..place {
            left /= order;
        }
        F::from_canonical(left % order)
    }

    ghost are_radix_bits: { AreRadixBits F.residues.order RADIX_BITS };

    ghost are_counts: { AreCounts F.residues.order PF.residues.order RADIX_BITS ABSORB_COUNT SQUEEZE_COUNT };
}
