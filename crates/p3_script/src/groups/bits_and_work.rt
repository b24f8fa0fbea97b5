//! The group of bits and proofs of work in addition to the plain steps.
ghost use Rattle.std.specs.Prelude.{◌≡◌, true, false, IsErr, Some};
ghost use Rattle.p3_challenger_core.specs.Sampling.{unrefused_draw};
ghost use Rattle.p3_script.specs.GroupLaws.{nothing-drawn};

use crate::groups::{BitsPow, StepGroup, not_there};
use p3_challenger_core::CanSampleBits;
use p3_driver_core::TranscriptBound;
use p3_drivers::{DriverState, ProverState, Tape, VerifierState};
use p3_field_core::ScalarField;
use p3_fs_core::{Label, TranscriptError};
use p3_grinding::GrindingChallenger;
use p3_step_laws::{
    bit_draws_are_refused_for_one_reason, bit_draws_tell_limits, carried_work_agrees,
    read_work_is_encoded, sent_work_is_received, work_is_refused_for_one_reason,
};
use p3_symmetric::DigestHasher;

impl<C: GrindingChallenger + Drop> StepGroup<C, C::Witness> for BitsPow
where
    C::Witness: ScalarField,
{
    const HAS_POW: bool = true;

    ghost HAS_POW = { true };

    const HAS_UNIFORM: bool = false;

    ghost HAS_UNIFORM = { false };

    ghost most_bits = { C.most_bits };

    ghost bit_draws = { C.bits_sampling };

    ghost uniform_draws = { λ _. unrefused_draw (λ _. Some 0) (λ s. s) };

    ghost before_witness = { C.before_witness };

    ghost witness = { C.observation };

    ghost may_run_out = { C.may_run_out };

    ghost draws_and_feeds = { record {
      bits_drawn = C.samples_bits;
      uniform_drawn = λ _. nothing-drawn C.next 0;
      before_drawn = C.prepares;
      witness_observed = C.observes;
    } };

    ghost witnesses_prefix_free = { λ _. C.witnesses_prefix_free };

    fn max_bits() -> usize {
        C::max_bits()
    }

    fn challenge_bits<U, D: DigestHasher, P: Tape>(
        driver: &mut DriverState<C, U, D, P>,
        label: Label,
        width: usize,
        n: usize,
    ) -> Result<Vec<TranscriptBound<usize>>, TranscriptError> {
        driver.challenge_bits(label, width, n)
    }

    fn pow<U, D: DigestHasher>(
        prover: &mut ProverState<C, U, D>,
        label: Label,
        bits: usize,
    ) -> Result<(), TranscriptError> {
        prover.pow(label, bits)
    }

    fn observe_pow<U, D: DigestHasher>(
        prover: &mut ProverState<C, U, D>,
        label: Label,
        bits: usize,
    ) -> Result<C::Witness, TranscriptError> {
        prover.observe_pow(label, bits)
    }

    fn check_pow<U, D: DigestHasher>(
        verifier: &mut VerifierState<'_, C, U, D>,
        label: Label,
        bits: usize,
    ) -> Result<(), TranscriptError> {
        verifier.check_pow(label, bits)
    }

    fn check_carried_pow<U, D: DigestHasher>(
        verifier: &mut VerifierState<'_, C, U, D>,
        label: Label,
        bits: usize,
        carried: C::Witness,
    ) -> Result<(), TranscriptError> {
        verifier.observe_pow(label, bits, carried)
    }

    fn challenge_uniform_bits<U, D: DigestHasher, P: Tape>(
        driver: &mut DriverState<C, U, D, P>,
        _label: Label,
        _width: usize,
        _n: usize,
    ) -> Result<Vec<TranscriptBound<usize>>, TranscriptError>
        ensures same { driver.new ≡ driver.old }
        ensures refused { IsErr result }
    {
        not_there()
    }

    fn challenge_uniform_bits_rejecting<
        U,
        D: DigestHasher,
        P: Tape,
        R: Fn(usize, &[usize]) -> bool,
    >(
        driver: &mut DriverState<C, U, D, P>,
        _label: Label,
        _width: usize,
        _n: usize,
        _accept: &R,
        _limit: u64,
    ) -> Result<Vec<TranscriptBound<usize>>, TranscriptError>
        ensures same { driver.new ≡ driver.old }
        ensures refused { IsErr result }
    {
        not_there()
    }

    fn steps_are_lawful() {
        bit_draws_tell_limits::<C>();
        sent_work_is_received::<C>();
        read_work_is_encoded::<C>();
        carried_work_agrees::<C>();
    }

    fn steps_are_refused_for_one_reason() {
        bit_draws_are_refused_for_one_reason::<C>();
        work_is_refused_for_one_reason::<C>();
    }
}
