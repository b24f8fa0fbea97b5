//! The group of bits, proofs of work and uniform bits in addition to the plain steps.
ghost use Rattle.std.specs.Prelude.{true};

use crate::groups::{Both, StepGroup};
use p3_challenger_core::CanSampleBits;
use p3_driver_core::TranscriptBound;
use p3_drivers::{DriverState, ProverState, Tape, VerifierState};
use p3_field_core::ScalarField;
use p3_fs_core::{Label, TranscriptError};
use p3_grinding::{CanSampleUniformBits, GrindingChallenger};
use p3_step_laws::{
    bit_draws_are_refused_for_one_reason, bit_draws_tell_limits, carried_work_agrees,
    read_work_is_encoded, sent_work_is_received, uniform_draws_are_refused_for_one_reason,
    uniform_draws_tell_limits, work_is_refused_for_one_reason,
};
use p3_symmetric::DigestHasher;

impl<C: GrindingChallenger + CanSampleUniformBits<C::Witness> + Drop> StepGroup<C, C::Witness>
    for Both
where
    C::Witness: ScalarField,
{
    const HAS_POW: bool = true;

    ghost HAS_POW = { true };

    const HAS_UNIFORM: bool = true;

    ghost HAS_UNIFORM = { true };

    ghost most_bits = { C.most_bits };

    ghost bit_draws = { C.bits_sampling };

    ghost uniform_draws = { λ width. (C.uniform true width).draw };

    ghost before_witness = { C.before_witness };

    ghost witness = { C.observation };

    ghost may_run_out = { C.may_run_out };

    ghost draws_and_feeds = { record {
      bits_drawn = C.samples_bits;
      uniform_drawn = λ width. (C.draws_uniform true width).draws;
      before_drawn = C.prepares;
      witness_observed = C.observes;
    } };

    ghost witnesses_prefix_free = { λ _. C.witnesses_prefix_free };

    fn max_bits() -> usize {
        C::max_bits()
    }

    fn challenge_bits<U, D: DigestHasher, P: Tape>(
        driver: &mut DriverState<C, U, D, P>,
        label: Label,
        width: usize,
        n: usize,
    ) -> Result<Vec<TranscriptBound<usize>>, TranscriptError> {
        driver.challenge_bits(label, width, n)
    }

    fn pow<U, D: DigestHasher>(
        prover: &mut ProverState<C, U, D>,
        label: Label,
        bits: usize,
    ) -> Result<(), TranscriptError> {
        prover.pow(label, bits)
    }

    fn observe_pow<U, D: DigestHasher>(
        prover: &mut ProverState<C, U, D>,
        label: Label,
        bits: usize,
    ) -> Result<C::Witness, TranscriptError> {
        prover.observe_pow(label, bits)
    }

    fn check_pow<U, D: DigestHasher>(
        verifier: &mut VerifierState<'_, C, U, D>,
        label: Label,
        bits: usize,
    ) -> Result<(), TranscriptError> {
        verifier.check_pow(label, bits)
    }

    fn check_carried_pow<U, D: DigestHasher>(
        verifier: &mut VerifierState<'_, C, U, D>,
        label: Label,
        bits: usize,
        carried: C::Witness,
    ) -> Result<(), TranscriptError> {
        verifier.observe_pow(label, bits, carried)
    }

    fn challenge_uniform_bits<U, D: DigestHasher, P: Tape>(
        driver: &mut DriverState<C, U, D, P>,
        label: Label,
        width: usize,
        n: usize,
    ) -> Result<Vec<TranscriptBound<usize>>, TranscriptError> {
        driver.challenge_uniform_bits::<C::Witness>(label, width, n)
    }

    fn challenge_uniform_bits_rejecting<
        U,
        D: DigestHasher,
        P: Tape,
        R: Fn(usize, &[usize]) -> bool,
    >(
        driver: &mut DriverState<C, U, D, P>,
        label: Label,
        width: usize,
        n: usize,
        accept: &R,
        limit: u64,
    ) -> Result<Vec<TranscriptBound<usize>>, TranscriptError> {
        driver.challenge_uniform_bits_rejecting::<C::Witness, R>(label, width, n, accept, limit)
    }

    fn steps_are_lawful() {
        bit_draws_tell_limits::<C>();
        uniform_draws_tell_limits::<C::Witness, C>();
        sent_work_is_received::<C>();
        read_work_is_encoded::<C>();
        carried_work_agrees::<C>();
    }

    fn steps_are_refused_for_one_reason() {
        bit_draws_are_refused_for_one_reason::<C>();
        uniform_draws_are_refused_for_one_reason::<C::Witness, C>();
        work_is_refused_for_one_reason::<C>();
    }
}
