//! A value outside the steps is observed through the challenger that a driver lends, and then a step is played.
ghost use Rattle.std.specs.Prelude.{IfOk};
ghost use Rattle.p3_challenger.specs.Bound.{bound_value};
ghost use Rattle.p3_challenger.specs.Meanings as meaning;
ghost use Rattle.p3_challenger.specs.{Drivers.proving_of, Proving.Writes};
ghost use Rattle.p3_challenger.specs.Reads as reads;
ghost use Rattle.p3_challenger.specs.{Drivers.verifying_of, Verifying.Receives};
ghost use Rattle.uses.specs.ExtraValue.{after_value};

use p3_challenger::CanObserve;
use p3_challenger::fs::{
    Codec, Declared, Kind, Label, Length, ProverState, TranscriptBound, TranscriptError,
    VerifierState,
};
use p3_field::ScalarField;
use p3_symmetric::DigestHasher;

/// Observes a value outside the steps, and sends a scalar. The step is played from the challenger that has observed
/// the value, at the prover's place in the pattern, and only the bytes of the step are added.
///
/// The errors are those of the observation, with no step played, and those of the step.
pub fn send_after<F: ScalarField, T, U, C: CanObserve<T> + Drop, D: DigestHasher, Cdc: Codec<C, F>>(
    prover: &mut ProverState<C, U, D>,
    extra: T,
    label: Label,
    value: &F,
) -> Result<TranscriptBound<F>, TranscriptError>
    ensures { let step = ⟦<F as Declared<F, D>>⟧.step Kind.Message label.now Length.Scalar in IfOk result (λ bound.
        Writes (meaning.sent step Cdc.observation Cdc.encoding value.now) (after_value C.observation extra
        (proving_of C.state prover.old)) (bound_value bound) (proving_of C.state prover.new)) }
{
    prover.challenger_mut().observe(extra)?;
    prover.add_scalar::<F, Cdc>(label, value)
}

/// Observes a value outside the steps, and reads a scalar. The step is played from the challenger that has observed
/// the value, at the verifier's place in the pattern, and reads from the bytes that were left.
///
/// The errors are those of the observation, with no step played, and those of the step.
pub fn receive_after<
    F: ScalarField,
    T,
    U,
    C: CanObserve<T> + Drop,
    D: DigestHasher,
    Cdc: Codec<C, F>,
>(
    verifier: &mut VerifierState<'_, C, U, D>,
    extra: T,
    label: Label,
) -> Result<TranscriptBound<F>, TranscriptError>
    ensures { let step = ⟦<F as Declared<F, D>>⟧.step Kind.Message label.now Length.Scalar in IfOk result (λ bound.
        Receives (reads.received step Cdc.observation Cdc.encoding) (after_value C.observation extra
        (verifying_of C.state verifier.old)) (bound_value bound) (verifying_of C.state verifier.new)) }
{
    verifier.challenger_mut().observe(extra)?;
    verifier.next_scalar::<F, Cdc>(label)
}
