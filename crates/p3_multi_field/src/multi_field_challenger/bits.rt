//! Numbers of some bits, drawn from a multi-field challenger: the low bits of one scalar.
ghost use Rattle.std.specs.Prelude.{◌^◌, ◌%◌, Some};
ghost use Rattle.p3_multi_field.specs.MultiFieldState.{sampled, after_sampled};
ghost use Rattle.p3_challenger_core.specs.{Sampling.{most_bits_of, unrefused_draw}, BitLaws.low_bits-below};
ghost use Rattle.p3_challenger_core.specs.BitLaws.{most_bits-short};
ghost use Rattle.p3_sponge.specs.DrawingLaws.{value-sampled};

use crate::{HasFieldPair, MultiField32Challenger};
use p3_challenger_core::{CanSample, CanSampleBits, ChallengerError, FieldChallenger};
use p3_field_bridge::FieldBridge;
use p3_field_core::{PrimeField32, PrimeField64, log2_ceil_u64};
use p3_symmetric::CryptographicPermutation;

impl<
    F: PrimeField32,
    PF: PrimeField64 + FieldBridge<F, PF>,
    P: CryptographicPermutation<[PF; WIDTH]>,
    const WIDTH: usize,
    const RATE: usize,
> CanSampleBits<usize> for MultiField32Challenger<F, PF, P, WIDTH, RATE> {
    // The greatest number of bits, below 64, whose power of two is below the order of the scalars.
    ghost most_bits = { most_bits_of F.residues.order };

    // A draw takes no memory and has no limit: it is never refused.
    ghost bits_sampling = { λ bits. unrefused_draw (λ s. Some (F.residues.number
        (sampled ⟦<PF as HasFieldPair<F>>⟧.field_pair P.permutation RATE s) % 2 ^ bits))
        (after_sampled ⟦<PF as HasFieldPair<F>>⟧.field_pair P.permutation RATE) };

    ghost number = { λ n. n };

    ghost number_tells = { λ _ _ same. same };

    ghost samples_bits = { λ bits. value-sampled _ _ (λ x. F.residues.number x % 2 ^ bits) };

    ghost bits_below = { λ bits s x _ drawn. low_bits-below _ bits x drawn };

    ghost most_bits_short = { most_bits-short F.residues.order };

    fn max_bits() -> usize {
        (log2_ceil_u64(F::ORDER_U64) - 1) as usize
    }

    fn sample_bits(&mut self, bits: usize) -> Result<usize, ChallengerError> {
        let element: F = self.sample()?;
        Ok((element.as_canonical_u64() % (1 << bits)) as usize)
    }
}

impl<
    F: PrimeField32,
    PF: PrimeField64 + FieldBridge<F, PF>,
    P: CryptographicPermutation<[PF; WIDTH]>,
    const WIDTH: usize,
    const RATE: usize,
> FieldChallenger<F> for MultiField32Challenger<F, PF, P, WIDTH, RATE> {}
