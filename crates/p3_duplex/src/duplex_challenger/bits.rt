//! Numbers of some bits, drawn from a duplex challenger: the low bits of one element.
ghost use Rattle.std.specs.Prelude.{◌^◌, ◌%◌, Some};
ghost use Rattle.p3_challenger_core.specs.{Sampling.{most_bits_of, unrefused_draw}, BitLaws.low_bits-below};
ghost use Rattle.p3_challenger_core.specs.BitLaws.{most_bits-short};
ghost use Rattle.p3_sponge.specs.DrawingLaws.{value-sampled};
ghost use Rattle.p3_duplex.specs.DuplexState as duplex_state;

use crate::DuplexChallenger;
use p3_challenger_core::{CanSample, CanSampleBits, ChallengerError, FieldChallenger};
use p3_field_core::{PrimeField64, log2_ceil_u64};
use p3_symmetric::CryptographicPermutation;

impl<
    F: PrimeField64,
    P: CryptographicPermutation<[F; WIDTH]>,
    const WIDTH: usize,
    const RATE: usize,
> CanSampleBits<usize> for DuplexChallenger<F, P, WIDTH, RATE> {
    // The greatest number of bits, below 64, whose power of two is below the order.
    ghost most_bits = { most_bits_of F.residues.order };

    // A draw takes no memory and has no limit: it is never refused.
    ghost bits_sampling = { λ bits. unrefused_draw (λ s. Some
        (F.residues.number (duplex_state.sampled F.residues P.permutation RATE s) % 2 ^ bits))
        (λ s. duplex_state.after_sampled F.residues P.permutation RATE s) };

    ghost number = { λ n. n };

    ghost number_tells = { λ _ _ same. same };

    ghost samples_bits = { λ bits. value-sampled
        (duplex_state.sampled F.residues P.permutation RATE) (duplex_state.after_sampled
        F.residues P.permutation RATE) (λ x. F.residues.number x % 2 ^ bits) };

    ghost bits_below = { λ bits s x _ drawn. low_bits-below
        (F.residues.number (duplex_state.sampled F.residues P.permutation RATE s)) bits x drawn };

    ghost most_bits_short = { most_bits-short F.residues.order };

    fn max_bits() -> usize {
        (log2_ceil_u64(F::ORDER_U64) - 1) as usize
    }

    fn sample_bits(&mut self, bits: usize) -> Result<usize, ChallengerError> {
        let element: F = self.sample()?;
        Ok((element.as_canonical_u64() % (1 << bits)) as usize)
    }
}

impl<
    F: PrimeField64,
    P: CryptographicPermutation<[F; WIDTH]>,
    const WIDTH: usize,
    const RATE: usize,
> FieldChallenger<F> for DuplexChallenger<F, P, WIDTH, RATE> {}
