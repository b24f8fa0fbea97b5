// Trials of challengers that search, by the kind of the challenger. The functions of the kinds are generic over the field
// and over what the challenger stands on: so it is proved once for each kind, and in seconds, that its challengers have what
// a trial calls. Of a challenger as it is that takes a quarter of a minute.
use crate::counting::Calls;
use crate::plain::searches_alike;
use crate::searches::{Cost, finds_element, searches};
use p3_challenger_core::{CanSample, ChallengerError};
use p3_duplex::DuplexChallenger;
use p3_field::{FieldBridge, PrimeField32, PrimeField64};
use p3_grinding::{ByteGrindingChallenger, CanCopy, GrindingChallenger};
use p3_lanes::{LanePermutation, PackedField};
use p3_multi_field::MultiField32Challenger;
use p3_serializing::{SerializedIn, SerializingChallenger};
use p3_symmetric::CryptographicPermutation;

/// What is tried on a challenger.
#[derive(Clone, Copy)]
pub enum Trial<'a> {
    /// Each search finds what the plain one finds.
    Plain,
    /// A search after these numbers costs that, and the plain one finds the same.
    Permutes(&'a Calls, &'a [u64], Cost),
    /// A search hashes several candidates at once.
    Hashes(&'a Calls),
}

// Whether a challenger passes.
fn passes<C: CanCopy + GrindingChallenger + CanSample<C::Witness>>(
    challenger: C,
    trial: Trial<'_>,
) -> Result<bool, ChallengerError> {
    match trial {
        Trial::Plain => searches_alike(challenger),
        Trial::Permutes(calls, observed, cost) => searches(challenger, calls, observed, cost),
        Trial::Hashes(calls) => finds_element(challenger, calls),
    }
}

/// Whether a duplex challenger passes.
pub fn duplex_passes<
    F: PrimeField64 + PackedField,
    P: LanePermutation<F, W>,
    const W: usize,
    const R: usize,
>(challenger: DuplexChallenger<F, P, W, R>, trial: Trial<'_>) -> Result<bool, ChallengerError> {
    passes(challenger, trial)
}

/// Whether a multi-field challenger passes.
pub fn multi_field_passes<
    F: PrimeField32,
    PF: PrimeField64 + FieldBridge<F, PF>,
    P: CryptographicPermutation<[PF; W]>,
    const W: usize,
    const R: usize,
>(
    challenger: MultiField32Challenger<F, PF, P, W, R>,
    trial: Trial<'_>,
) -> Result<bool, ChallengerError> {
    passes(challenger, trial)
}

/// Whether a serializing challenger passes.
pub fn serializing_passes<
    F: SerializedIn<BYTES>,
    Inner: ByteGrindingChallenger<BYTES, BYTES>,
    const BYTES: usize,
>(
    challenger: SerializingChallenger<F, Inner, BYTES>,
    trial: Trial<'_>,
) -> Result<bool, ChallengerError> {
    passes(challenger, trial)
}
