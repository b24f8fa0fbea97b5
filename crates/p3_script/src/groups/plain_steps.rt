//! The group of the plain steps alone.
ghost use Rattle.std.specs.Prelude.{◌≡◌, false, IsErr, Some, []};
ghost use Rattle.p3_script.specs.GroupLaws.{not_there, nothing-drawn, nothing-observed};
ghost use Rattle.p3_challenger_core.specs.{Observation.unrefused_observe, Sampling.unrefused_draw};

use crate::groups::{Plain, StepGroup, not_there};
use p3_challenger_core::Sponge;
use p3_driver_core::TranscriptBound;
use p3_drivers::{DriverState, ProverState, Tape, VerifierState};
use p3_field_core::ScalarField;
use p3_fs_core::{Label, TranscriptError};
use p3_symmetric::DigestHasher;

impl<C: Sponge, F: ScalarField> StepGroup<C, F> for Plain {
    const HAS_POW: bool = false;

    ghost HAS_POW = { false };

    const HAS_UNIFORM: bool = false;

    ghost HAS_UNIFORM = { false };

    ghost most_bits = { 0 };

    ghost bit_draws = { λ _. unrefused_draw (λ _. Some 0) (λ s. s) };

    ghost uniform_draws = { λ _. unrefused_draw (λ _. Some 0) (λ s. s) };

    ghost before_witness = { unrefused_draw (λ _. Some tt) (λ s. s) };

    ghost witness = { unrefused_observe (λ _. []) (λ s _. s) };

    ghost may_run_out = { λ _. ⊥ };

    ghost draws_and_feeds = { record {
      bits_drawn = λ _. nothing-drawn C.next 0;
      uniform_drawn = λ _. nothing-drawn C.next 0;
      before_drawn = nothing-drawn C.next tt;
      witness_observed = nothing-observed C.fed C.fed_nothing C.fed_more;
    } };

    ghost witnesses_prefix_free = { not_there };

    fn max_bits() -> usize {
        0
    }

    fn challenge_bits<U, D: DigestHasher, P: Tape>(
        driver: &mut DriverState<C, U, D, P>,
        _label: Label,
        _width: usize,
        _n: usize,
    ) -> Result<Vec<TranscriptBound<usize>>, TranscriptError>
        ensures same { driver.new ≡ driver.old }
        ensures refused { IsErr result }
    {
        not_there()
    }

    fn challenge_uniform_bits<U, D: DigestHasher, P: Tape>(
        driver: &mut DriverState<C, U, D, P>,
        _label: Label,
        _width: usize,
        _n: usize,
    ) -> Result<Vec<TranscriptBound<usize>>, TranscriptError>
        ensures same { driver.new ≡ driver.old }
        ensures refused { IsErr result }
    {
        not_there()
    }

    fn challenge_uniform_bits_rejecting<
        U,
        D: DigestHasher,
        P: Tape,
        R: Fn(usize, &[usize]) -> bool,
    >(
        driver: &mut DriverState<C, U, D, P>,
        _label: Label,
        _width: usize,
        _n: usize,
        _accept: &R,
        _limit: u64,
    ) -> Result<Vec<TranscriptBound<usize>>, TranscriptError>
        ensures same { driver.new ≡ driver.old }
        ensures refused { IsErr result }
    {
        not_there()
    }

    fn pow<U, D: DigestHasher>(
        prover: &mut ProverState<C, U, D>,
        _label: Label,
        _bits: usize,
    ) -> Result<(), TranscriptError>
        ensures same { prover.new ≡ prover.old }
        ensures refused { IsErr result }
    {
        not_there()
    }

    fn observe_pow<U, D: DigestHasher>(
        prover: &mut ProverState<C, U, D>,
        _label: Label,
        _bits: usize,
    ) -> Result<F, TranscriptError>
        ensures same { prover.new ≡ prover.old }
        ensures refused { IsErr result }
    {
        not_there()
    }

    fn check_pow<U, D: DigestHasher>(
        verifier: &mut VerifierState<'_, C, U, D>,
        _label: Label,
        _bits: usize,
    ) -> Result<(), TranscriptError>
        ensures same { verifier.new ≡ verifier.old }
        ensures refused { IsErr result }
    {
        not_there()
    }

    fn check_carried_pow<U, D: DigestHasher>(
        verifier: &mut VerifierState<'_, C, U, D>,
        _label: Label,
        _bits: usize,
        _carried: F,
    ) -> Result<(), TranscriptError>
        ensures same { verifier.new ≡ verifier.old }
        ensures refused { IsErr result }
    {
        not_there()
    }

    fn steps_are_lawful() {}

    fn steps_are_refused_for_one_reason() {}
}
