//! Two scalars in one step, as a polynomial of degree one by its values at 0 and 1, over any field.
//!
//! The code knows of the field only what [`ScalarField`] says: it has one coefficient over itself, and an array of two
//! elements fits in memory.
ghost use Rattle.std.specs.Prelude.{[], ◌∷◌};
ghost use Rattle.p3_challenger.specs.{Bound.bound_values, Drivers.proving_of, Proving.WritesOrRefuses};
ghost use Rattle.p3_challenger.specs.Steps.{algebra_of, algebra_step};
ghost use Rattle.p3_challenger.specs.Meanings as meaning;

use p3_challenger::Sponge;
use p3_challenger::fs::{
    Codec, Kind, Label, Length, ProverState, TranscriptBound, TranscriptError,
};
use p3_field::ScalarField;
use p3_symmetric::DigestHasher;

/// Sends two scalars in one step: a step of two elements of an algebra with one coefficient.
///
/// The errors are those of the step.
pub fn send_pair<F: ScalarField, U, C: Sponge + Drop, D: DigestHasher, Cdc: Codec<C, F>>(
    prover: &mut ProverState<C, U, D>,
    label: Label,
    first: F,
    second: F,
) -> Result<Vec<TranscriptBound<F>>, TranscriptError>
    ensures { let algebra = algebra_of F.residues.order 1 (D.digest_of F.identity) F.name_bytes in WritesOrRefuses
        (meaning.sent_list (algebra_step Kind.Message label.now algebra (Length.Fixed 2)) Cdc.observation Cdc.encoding
        (first ∷ second ∷ [])) (proving_of C.state prover.old) bound_values result (proving_of C.state prover.new) }
{
    prover.add_scalars::<F, Cdc>(label, &[first, second])
}
