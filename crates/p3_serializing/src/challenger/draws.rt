//! Draws of elements of vector spaces over the field, and so of the field itself, and of numbers of bits. Each draw
//! takes groups of bytes of the inner challenger.
ghost use Rattle.std.specs.Prelude.{◌≡◌, ℕ, ◌≤◌, ◌-◌, ◌^◌, Bool, nat_lt};
ghost use Rattle.p3_challenger_core.specs.{Sampling.{DrawsOrRefuses, most_bits_of}, BitLaws.most_bits-short};
ghost use Rattle.p3_serializing.specs.SerializingState.{bits_of_order, group, element_of_groups, state_of};
ghost use Rattle.p3_serializing.specs.SerializingState.{element_drawn, groups_allowed, AlwaysGives, MeetsNoLimit};
ghost use Rattle.p3_serializing.specs.SerializingState.{space_element_drawn, bits_drawn};
ghost use Rattle.p3_serializing.specs.SerializingStateLaws.{space_element-drawn, bits-drawn, bits_drawn-below};
ghost use Rattle.p3_grinding.specs.Candidates.{MeetsLimitExactly};

use crate::{SerializedIn, SerializingChallenger};
use p3_challenger_core::{
    CanFinalizeDigest, CanObserve, CanSample, CanSampleBits, ChallengerError, FieldChallenger,
    sample_array,
};
use p3_field_core::{BasedVectorSpace, PrimeField64, log2_ceil_u64};
use p3_grinding::CanSampleUniformBits;

impl<F: SerializedIn<BYTES>, Inner: CanSample<u8>, const BYTES: usize> SerializingChallenger<
    F,
    Inner,
    BYTES,
> {
    /// A draw of an element cuts each group to the least number of bits that holds every number below the order.
    ///
    /// A law: a caller cites the clauses.
    pub fn groups_are_cut_to_least_bits()
        ensures enough { F.residues.order ≤ 2 ^ bits_of_order F.residues.order }
        ensures least { (bits : ℕ) → F.residues.order ≤ 2 ^ bits →
            bits_of_order F.residues.order ≤ bits }
    {
        let _ = log2_ceil_u64(F::ORDER_U64);
    }

    // Draws an element of the field.
    fn draw(&mut self) -> Result<F, ChallengerError>
        ensures { DrawsOrRefuses (element_drawn Inner.sampling BYTES F.residues)
            (state_of Inner.state self.old) result (state_of Inner.state self.new) }
    {
        draw_element::<F, Inner, BYTES>(&mut self.inner, self.draw_limit)
    }
}

impl<F: SerializedIn<BYTES>, Inner: CanSample<u8>, const BYTES: usize> SerializingChallenger<
    F,
    Inner,
    BYTES,
> {
    /// Draw limits are met exactly. A draw of a field element draws as many groups as the draw limit allows, each cut
    /// to the bits of the order. It has no result exactly where no such group is below the order. There, and nowhere
    /// else, it meets the limit, and the challenger is left after just those groups. A draw of bits, uniform or not,
    /// meets no limit, and gives a number. All this holds where the inner challenger's draws meet no limit of their
    /// own.
    ///
    /// A law: the body is empty, and a caller cites the clauses.
    pub fn limits_are_met_exactly()
        ensures element { AlwaysGives Inner.sampling → MeetsLimitExactly
            (⟦<Self as CanSampleBits<usize>>⟧.bits_sampling (bits_of_order F.residues.order))
            (λ x. nat_lt x F.residues.order) groups_allowed ⟦<Self as CanSample<F>>⟧.sampling }
        ensures bits { AlwaysGives Inner.sampling → (bits : ℕ) →
            MeetsNoLimit (⟦<Self as CanSampleBits<usize>>⟧.bits_sampling bits) }
        ensures uniform { AlwaysGives Inner.sampling → (resample : Bool) (bits : ℕ) →
            MeetsNoLimit (⟦<Self as CanSampleUniformBits<F>>⟧.uniform resample bits).draw }
    {}
}

impl<
    F: SerializedIn<BYTES>,
    A: BasedVectorSpace<F>,
    Inner: CanSample<u8>,
    const BYTES: usize,
> CanSample<A> for SerializingChallenger<F, Inner, BYTES> {
    // Each coefficient is drawn by itself, coefficient 0 first, and meets the draw limit by itself.
    ghost sampling = { space_element_drawn Inner.sampling BYTES F.residues A.DIMENSION A.element };

    ghost samples = { space_element-drawn Inner.next Inner.sampling Inner.samples
        BYTES F.residues A.DIMENSION A.element };

    fn sample(&mut self) -> Result<A, ChallengerError> {
        let mut element = A::zero();
        for i in 0..A::DIMENSION {
            element = element.with_coefficient(i, self.draw()?);
        }
        Ok(element)
    }
}

impl<F: SerializedIn<BYTES>, Inner: CanSample<u8>, const BYTES: usize> CanSampleBits<usize>
    for SerializingChallenger<F, Inner, BYTES> {
    // The greatest number of bits, below 64, whose power of two is below the order.
    ghost most_bits = { most_bits_of F.residues.order };

    // One group, also for no bits. It has no limit, and is refused where the inner challenger refuses a byte.
    ghost bits_sampling = { λ bits. bits_drawn Inner.sampling BYTES bits };

    ghost number = { λ n. n };

    ghost number_tells = { λ _ _ same. same };

    ghost samples_bits = { λ bits. bits-drawn Inner.next Inner.sampling Inner.samples BYTES bits };

    ghost bits_below = { λ bits s x _ drawn. bits_drawn-below Inner.sampling BYTES bits s x drawn };

    ghost most_bits_short = { most_bits-short F.residues.order };

    fn max_bits() -> usize {
        (log2_ceil_u64(F::ORDER_U64) - 1) as usize
    }

    fn sample_bits(&mut self, bits: usize) -> Result<usize, ChallengerError> {
        let word = draw_group::<F, Inner, BYTES>(&mut self.inner)?;
        Ok((word & ((1 << bits) - 1)) as usize)
    }
}

impl<
    F: SerializedIn<BYTES>,
    Inner: CanObserve<u8> + CanSample<u8>,
    const BYTES: usize,
> FieldChallenger<F> for SerializingChallenger<F, Inner, BYTES> {}

impl<F, Inner: CanFinalizeDigest, const BYTES: usize> CanFinalizeDigest
    for SerializingChallenger<F, Inner, BYTES> {
    type Digest = Inner::Digest;

    // The inner challenger's.
    ghost digest_of = { λ s. Inner.digest_of s.inner };

    fn finalize(self) -> Inner::Digest {
        let SerializingChallenger {
            inner,
            draw_limit: _,
            field: _,
        } = self;
        inner.finalize()
    }
}

// Draws a group: the number that the next bytes are, the lowest first.
fn draw_group<F: SerializedIn<BYTES>, Inner: CanSample<u8>, const BYTES: usize>(
    inner: &mut Inner,
) -> Result<u64, ChallengerError>
    ensures { DrawsOrRefuses (group Inner.sampling BYTES)
        (Inner.state inner.old) result (Inner.state inner.new) }
{
    let bytes = sample_array::<u8, Inner, BYTES>(inner)?;
    Ok(F::number_of_bytes(&bytes))
}

// The bits that the order of a field takes, all set.
fn order_mask<F: PrimeField64>() -> u64
    ensures { result ≡ 2 ^ bits_of_order F.residues.order - 1 }
{
    u64::MAX >> (64 - log2_ceil_u64(F::ORDER_U64))
}

// Draws the element that is the first group below the order, of at most so many.
fn draw_element<F: SerializedIn<BYTES>, Inner: CanSample<u8>, const BYTES: usize>(
    inner: &mut Inner,
    draw_limit: u64,
) -> Result<F, ChallengerError>
    ensures { DrawsOrRefuses (element_of_groups Inner.sampling BYTES F.residues draw_limit)
        (Inner.state inner.old) result (Inner.state inner.new) }
{
    let mask = order_mask::<F>();
    for _ in 0..draw_limit {
        let candidate = draw_group::<F, Inner, BYTES>(inner)? & mask;
        if candidate < F::ORDER_U64 {
            return Ok(F::from_canonical(candidate));
        }
    }
    Err(ChallengerError::DrawLimit)
}
