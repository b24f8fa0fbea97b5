//! Uniform bits and proof of work on a serializing challenger.
ghost use Rattle.std.{specs.Prelude.{◌≡◌, IfOk, IfErr}, proofs.Common.refl};
ghost use Rattle.p3_challenger_core.specs.declared.error.ChallengerError.TheVariants.{OutOfMemory};
ghost use Rattle.p3_serializing.specs.SerializingState.{state_of, byte_dropped, stepped, bits_drawn};
ghost use Rattle.p3_serializing.specs.SerializingStateLaws.{byte_dropped-drawn, bits-drawn, bits_drawn-below};
ghost use Rattle.p3_serializing.specs.{SerializingGrinding.may_run_out_of, SerializingSymbolLaws.elements-tell_apart};
ghost use Rattle.p3_grinding.specs.{UniformDraws.never_rejects, UniformDrawLaws.never_rejects-is_uniform};

use crate::{SerializedIn, SerializingChallenger};
use p3_challenger_core::{CanSample, CanSampleBits, ChallengerError};
use p3_grinding::{
    BeforeWitness, ByteGrindingChallenger, CanCopy, CanSampleUniformBits, GrindingChallenger,
    UniformBitsError, least_witness_by_own_search,
};
use std::marker::PhantomData;

impl<
    F: SerializedIn<BYTES>,
    Inner: ByteGrindingChallenger<BYTES, BYTES>,
    const BYTES: usize,
> SerializingChallenger<F, Inner, BYTES> {
    /// Returns an equal challenger, which shares nothing with this one.
    ///
    /// The one error is [`ChallengerError::OutOfMemory`]. The Rust crate's `Clone` returns no error.
    pub fn clone(&self) -> Result<Self, ChallengerError>
        ensures ok { IfOk result (λ c. state_of Inner.state c ≡ state_of Inner.state self.now) }
        ensures err { IfErr result (λ e. Inner.copies_may_fail × (e ≡ OutOfMemory)) }
    {
        self.copy()
    }
}

impl<F, Inner: CanCopy, const BYTES: usize> CanCopy for SerializingChallenger<F, Inner, BYTES> {
    ghost copies_may_fail = { Inner.copies_may_fail };

    fn copy(&self) -> Result<Self, ChallengerError> {
        Ok(SerializingChallenger {
            inner: self.inner.copy()?,
            draw_limit: self.draw_limit,
            field: PhantomData,
        })
    }

    fn copy_from(&mut self, other: &Self) -> Result<(), ChallengerError> {
        self.inner.copy_from(&other.inner)?;
        self.draw_limit = other.draw_limit;
        Ok(())
    }
}

impl<F, Inner: CanSample<u8>, const BYTES: usize> BeforeWitness
    for SerializingChallenger<F, Inner, BYTES> {
    // One byte is drawn and dropped, so that the inner challenger hashes what was observed before it tries witnesses.
    ghost before_witness = { byte_dropped Inner.sampling };

    ghost prepares = { byte_dropped-drawn Inner.next Inner.sampling Inner.samples };

    fn draw_before_witness(&mut self) -> Result<(), ChallengerError> {
        let _byte: u8 = self.inner.sample()?;
        Ok(())
    }
}

impl<F: SerializedIn<BYTES>, Inner: CanSample<u8>, const BYTES: usize> CanSampleUniformBits<F>
    for SerializingChallenger<F, Inner, BYTES> {
    // Bits of a group have no bias, so no value is rejected: one group is drawn, also for no bits.
    ghost uniform = { λ _ bits. never_rejects (bits_drawn Inner.sampling BYTES bits) };

    ghost draws_uniform = { λ resample bits. never_rejects-is_uniform (stepped Inner.next) resample
        (bits_drawn Inner.sampling BYTES bits)
        (bits-drawn Inner.next Inner.sampling Inner.samples BYTES bits) };

    ghost uniform_below = { λ _ bits s x _ drawn.
        bits_drawn-below Inner.sampling BYTES bits s x drawn };

    fn sample_uniform_bits(
        &mut self,
        bits: usize,
        _resample: bool,
    ) -> Result<usize, UniformBitsError> {
        Ok(self.sample_bits(bits)?)
    }
}

impl<
    F: SerializedIn<BYTES>,
    Inner: ByteGrindingChallenger<BYTES, BYTES>,
    const BYTES: usize,
> GrindingChallenger for SerializingChallenger<F, Inner, BYTES> {
    type Witness = F;

    // Where a copy or a check of some number of bits may be refused for memory.
    ghost may_run_out = { may_run_out_of Inner.CanObserve.observation
        Inner.CanObserve.slice_may_leave Inner.CanSample.sampling F.residues BYTES
        Inner.copies_may_fail };

    ghost witnesses_prefix_free = { elements-tell_apart Inner.CanObserve.observation.symbols
        Inner.bytes_prefix_free F.residues F.are_residues BYTES F.order_fits };

    ghost number_is = { λ n. refl };

    fn grind(&mut self, bits: usize) -> Result<F, ChallengerError> {
        least_witness_by_own_search(self, bits)
    }
}
