//! Bounds of uniform bits: among the numbers below a bound, each value of their low bits occurs equally often.
ghost use Rattle.std.specs.Prelude.{◌≡◌, ℕ, ◌^◌, ◌/◌, ◌%◌, ◌<◌, ◌≤◌};
ghost use Rattle.p3_field_core.specs.UniformBounds.{uniform_bound, how_many_have};

use crate::PrimeField64;

/// A prime field for draws of uniform bits. The bits are the low bits of the canonical numbers below a bound, where
/// each value of the bits occurs equally often.
///
/// Corresponds to `p3-field`'s `UniformSamplingField`, which the Rust crate re-exports too.
pub trait UniformSamplingField: PrimeField64 {
    /// The greatest number of bits drawn from one element. Its power of two is at most the order.
    const MAX_SINGLE_SAMPLE_BITS: usize;

    ghost MAX_SINGLE_SAMPLE_BITS: { ℕ };

    /// Returns the bound for `bits` bits: the greatest multiple of `2^bits` that is at most the order. The bound is
    /// 0 where `2^bits` is above the order.
    ///
    /// In `p3-field` this is a table, `SAMPLING_BITS_M`.
    fn sampling_bits_m(bits: usize) -> u64
        ensures { result ≡ uniform_bound Self.residues.order bits }
    {
        if bits < 64 {
            (Self::ORDER_U64 >> bits) << bits
        } else {
            0
        }
    }

    ghost max_single_within: { 2 ^ MAX_SINGLE_SAMPLE_BITS ≤ Self.residues.order };
}

/// The bound is at most the order and a multiple of the power of two. So each value of the bits comes from equally
/// many canonical numbers below the bound. If one element suffices for the bits, the bound is positive.
///
/// A law: the body is empty, and a caller cites the clauses.
pub fn uniform_bounds_are_whole<F: UniformSamplingField>()
    ensures within { (bits : ℕ) → uniform_bound F.residues.order bits ≤ F.residues.order }
    ensures whole { (bits : ℕ) → uniform_bound F.residues.order bits % 2 ^ bits ≡ 0 }
    ensures shared { (bits value : ℕ) → value < 2 ^ bits →
        how_many_have (uniform_bound F.residues.order bits) bits value
        ≡ uniform_bound F.residues.order bits / 2 ^ bits }
    ensures positive { (bits : ℕ) → bits ≤ F.MAX_SINGLE_SAMPLE_BITS →
        0 < uniform_bound F.residues.order bits }
{}
