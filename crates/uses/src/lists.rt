//! Lists that a verifier reads: two scalars by their places, and scalars in a list of the caller's own.
ghost use Rattle.std.specs.Prelude.{◌≡◌, [], ◌∷◌, true, map, IfOk, IfErr};
ghost use Rattle.p3_challenger.specs.Bound.{bound_value};
ghost use Rattle.p3_challenger.specs.Reads as reads;
ghost use Rattle.p3_challenger.specs.{Drivers.verifying_of, Verifying.{Receives, ReceivesOrRefuses}};

use p3_challenger::Sponge;
use p3_challenger::fs::{
    Codec, Declared, Kind, Label, Length, TranscriptBound, TranscriptError, VerifierState,
};
use p3_field::ScalarField;
use p3_symmetric::DigestHasher;
use std::alloc::{AllocError, Global};

/// Reads two scalars, and returns them in order.
///
/// The errors are those of the step. A clause of the step says how many scalars come back, so both places exist.
pub fn receive_pair<F: ScalarField, U, C: Sponge + Drop, D: DigestHasher, Cdc: Codec<C, F>>(
    verifier: &mut VerifierState<'_, C, U, D>,
    label: Label,
) -> Result<(F, F), TranscriptError>
    ensures { let step = ⟦<F as Declared<F, D>>⟧.step Kind.Message label.now (Length.Fixed 2) in
        ReceivesOrRefuses (reads.received_list step Cdc.observation Cdc.encoding 2) (verifying_of C.state verifier.old)
        (λ pair. pair.0 ∷ pair.1 ∷ []) result (verifying_of C.state verifier.new) }
{
    let pair = verifier.next_scalars::<F, Cdc>(label, 2)?;
    Ok((pair[0].into_inner(), pair[1].into_inner()))
}

/// Reads `n` scalars into a list of the caller's own, without their bound wrappers.
///
/// Where memory for that list is refused, the verifier is halted, so that it plays no step after any error. The errors
/// are those of the step, and [`TranscriptError::OutOfMemory`].
pub fn receive_list<F: ScalarField, U, C: Sponge + Drop, D: DigestHasher, Cdc: Codec<C, F>>(
    alloc: Global,
    verifier: &mut VerifierState<'_, C, U, D>,
    label: Label,
    n: usize,
) -> Result<Vec<F>, TranscriptError>
    ensures read { let step = ⟦<F as Declared<F, D>>⟧.step Kind.Message label.now (Length.Fixed n) in
        IfOk result (λ values. Receives (reads.received_list step Cdc.observation Cdc.encoding n)
        (verifying_of C.state verifier.old) values.items (verifying_of C.state verifier.new)) }
    ensures last { IfErr result (λ _. (verifying_of C.state verifier.new).transcript.playing.finished ≡ true) }
{
    let bounds = verifier.next_scalars::<F, Cdc>(label, n)?;
    match values_alone(alloc, &bounds) {
        Ok(values) => Ok(values),
        Err(error) => {
            verifier.halt();
            Err(error.into())
        }
    }
}

// The values of a list without their bounds.
fn values_alone<T: Copy>(alloc: Global, bounds: &[TranscriptBound<T>]) -> Result<Vec<T>, AllocError>
    ensures { IfOk result (λ values. values.items ≡ map bound_value bounds.now) }
{
    let mut values = Vec::with_capacity(alloc, bounds.len())?;
    for bound in bounds {
        values.push_reserved(bound.into_inner());
    }
    Ok(values)
}
