//! Uniform bits, drawn from a duplex challenger: the low bits of elements below the bound of the field for so many
//! bits. If one element suffices, the bits are drawn from one, and else in two halves.
ghost use Rattle.std.specs.Prelude.{◌≡◌, ◌<◌, ◌≤◌, ◌^◌, ◌/◌, ℕ, Bool, true, false, Some, IfOk, MatchResult};
ghost use Rattle.std.specs.Option.{option_map};
ghost use Rattle.p3_field_core.specs.UniformBounds.{uniform_bound};
ghost use Rattle.p3_challenger_core.specs.Sampling.{DrawsOrRefuses};
ghost use Rattle.p3_grinding.specs.UniformDraws.{is_below, low_bits, DrawsUniformly, RefusesUniform};
ghost use Rattle.p3_grinding.specs.Candidates.{accepted_of, accepted_within};
ghost use Rattle.p3_duplex.specs.DuplexUniform.{base_draw, draws_allowed, taken_element, single, halved, how_many_give};
ghost use Rattle.p3_duplex.specs.{DuplexUniform.{MeetsElementLimit, uniform_bits}, DuplexState.DuplexState};
ghost use Rattle.p3_duplex.specs.DuplexUniformLaws.{uniform_bits-is_uniform, uniform_bits-below};

use crate::DuplexChallenger;
use p3_challenger_core::ChallengerError;
use p3_field_core::UniformSamplingField;
use p3_grinding::{CanSampleUniformBits, ResamplingError, UniformBitsError};
use p3_symmetric::CryptographicPermutation;

impl<
    F: UniformSamplingField,
    P: CryptographicPermutation<[F; WIDTH]>,
    const WIDTH: usize,
    const RATE: usize,
> DuplexChallenger<F, P, WIDTH, RATE> {
    /// Bits drawn from one element have no bias: they are the low bits of the taken element, which is below the bound
    /// for them. Each value of the bits comes from equally many elements below the bound: the bound divided by
    /// `2^bits`. The law speaks of at least one bit, where one element suffices.
    ///
    /// A law: the body is empty, and a caller cites the clauses.
    pub fn uniform_bits_have_no_bias()
        ensures drawn { (resample : Bool) (bits : ℕ) (c : DuplexState F P) → 0 < bits →
            bits ≤ F.MAX_SINGLE_SAMPLE_BITS →
            (⟦<Self as CanSampleUniformBits<F>>⟧.uniform resample bits).draw.sampled c
            ≡ option_map (low_bits F.residues bits)
            (taken_element F.residues P.permutation RATE resample bits c) }
        ensures below { (resample : Bool) (bits : ℕ) (c : DuplexState F P) (x : F) →
            taken_element F.residues P.permutation RATE resample bits c ≡ Some x →
            F.residues.number x < uniform_bound F.residues.order bits }
        ensures shared { (bits value : ℕ) → value < 2 ^ bits → how_many_give F.residues bits value
            ≡ uniform_bound F.residues.order bits / 2 ^ bits }
    {}

    /// Draws of uniform bits take no memory, and those that do not replace a rejected value meet no limit.
    ///
    /// A law: the body is empty, and a caller cites the clauses.
    pub fn uniform_draws_take_no_memory()
        ensures memory { (resample : Bool) (bits : ℕ) (c d : DuplexState F P) →
            ¬ ((⟦<Self as CanSampleUniformBits<F>>⟧.uniform resample bits).draw.may_leave c d) }
        ensures limit { (bits : ℕ) (c : DuplexState F P) →
            ¬ ((⟦<Self as CanSampleUniformBits<F>>⟧.uniform false bits).draw.meets_limit c) }
    {}

    /// Draw limits are met exactly, where a rejected value is replaced. A draw has no result exactly where it draws as
    /// many elements as the draw limit allows, and none is below the bound. There, and nowhere else, it meets the
    /// limit, and the challenger is left after just those draws. This holds for at least one bit where one element
    /// suffices. It also holds for each half of more bits, as
    /// [`uniform_draws_have_parts`](DuplexChallenger::uniform_draws_have_parts) says.
    ///
    /// A law: the body is empty, and a caller cites the clauses.
    pub fn limits_are_met_exactly()
        ensures one { (bits : ℕ) → 0 < bits → bits ≤ F.MAX_SINGLE_SAMPLE_BITS →
            MeetsElementLimit F.residues P.permutation RATE bits
            (⟦<Self as CanSampleUniformBits<F>>⟧.uniform true bits) }
        ensures half { (bits : ℕ) → MeetsElementLimit F.residues P.permutation RATE bits
            (single F.residues P.permutation RATE true bits) }
    {}

    // The first element below a bound, of as many as the draw limit allows. Mostly it is the next one: fewer than half
    // of all elements are not below their bound.
    #[inline(always)]
    fn first_below(&mut self, bound: u64) -> Result<F, ChallengerError>
        ensures { DrawsOrRefuses (accepted_within (base_draw F.residues P.permutation RATE)
            (is_below F.residues bound) draws_allowed) self.old result self.new }
    {
        let others = self.draw_limit - 1;
        let first = self.draw();
        if first.as_canonical_u64() < bound {
            Ok(first)
        } else {
            self.first_below_of(bound, others)
        }
    }

    // The first element below a bound, of so many.
    #[cold]
    fn first_below_of(&mut self, bound: u64, count: u64) -> Result<F, ChallengerError>
        ensures { DrawsOrRefuses (accepted_of (base_draw F.residues P.permutation RATE)
            (is_below F.residues bound) count) self.old result self.new }
    {
        for _ in 0..count {
            let element = self.draw();
            if element.as_canonical_u64() < bound {
                return Ok(element);
            }
        }
        Err(ChallengerError::DrawLimit)
    }

    // An element below the bound for so many bits: the next one, or the first one where others may be drawn.
    #[inline(always)]
    fn uniform_element(&mut self, bits: usize, resample: bool) -> Result<F, UniformBitsError>
        ensures { let u = single F.residues P.permutation RATE resample bits in MatchResult result
            (λ x. (u.draw.sampled self.old ≡ Some (low_bits F.residues bits x))
            × (self.new ≡ u.draw.after self.old)) (λ e. RefusesUniform u e self.old self.new) }
    {
        let bound = F::sampling_bits_m(bits);
        if resample {
            return Ok(self.first_below(bound)?);
        }
        let element = self.draw();
        let number = element.as_canonical_u64();
        if number < bound {
            Ok(element)
        } else {
            Err(UniformBitsError::Resampling(ResamplingError::new(number, bound)))
        }
    }

    // So many bits of one element.
    // It is written out at each call: else each draw writes its result into memory and reads it back.
    #[inline(always)]
    fn single_bits(&mut self, bits: usize, resample: bool) -> Result<usize, UniformBitsError>
        requires { bits < 64 }
        ensures drawn { DrawsUniformly (single F.residues P.permutation RATE resample bits)
            self.old result self.new }
        ensures below { IfOk result (λ x. x < 2 ^ bits) }
    {
        let element = self.uniform_element(bits, resample)?;
        Ok((element.as_canonical_u64() % (1 << bits)) as usize)
    }

    // So many bits in two halves, the low one first.
    #[inline(never)]
    fn halved_bits(&mut self, bits: usize, resample: bool) -> Result<usize, UniformBitsError>
        requires { bits < 64 }
        ensures { DrawsUniformly
            (halved F.residues P.permutation RATE resample bits) self.old result self.new }
    {
        let low_count = bits / 2;
        let low = self.single_bits(low_count, resample)?;
        let high = self.single_bits(bits - low_count, resample)?;
        Ok(low + (high << low_count))
    }
}

impl<
    F: UniformSamplingField,
    P: CryptographicPermutation<[F; WIDTH]>,
    const WIDTH: usize,
    const RATE: usize,
> CanSampleUniformBits<F> for DuplexChallenger<F, P, WIDTH, RATE> {
    // Nothing is drawn for 0 bits. As many bits as one element serves for are its low ones, where it is below the bound
    // for so many; more of them are drawn in two halves, each with a bound of its own and the whole draw limit.
    ghost uniform = { λ resample bits.
        uniform_bits F.residues P.permutation RATE resample F.MAX_SINGLE_SAMPLE_BITS bits };

    ghost draws_uniform = { λ resample bits. uniform_bits-is_uniform
        F.residues P.permutation RATE resample F.MAX_SINGLE_SAMPLE_BITS bits };

    ghost uniform_below = { λ resample bits c x _ drawn. uniform_bits-below
        F.residues P.permutation RATE resample F.MAX_SINGLE_SAMPLE_BITS bits c x drawn };

    fn sample_uniform_bits(
        &mut self,
        bits: usize,
        resample: bool,
    ) -> Result<usize, UniformBitsError> {
        if bits == 0 {
            return Ok(0);
        }
        if bits > F::MAX_SINGLE_SAMPLE_BITS {
            self.halved_bits(bits, resample)
        } else {
            self.single_bits(bits, resample)
        }
    }
}
