// Both sides of a protocol that is one sumcheck. Each function is generic over the challenger, the alphabet, the field and
// its codec, and so proved once, from its bounds alone.
ghost use Rattle.std.specs.Prelude.{◌≡◌, ◌≤◌, ◌^◌, length};

use p3_challenger::CanObserve;
use p3_challenger::fs::{
    Codec, DomainSeparator, PatternState, ProverState, TranscriptError, Unit, VerifierState,
};
use p3_field::ScalarField;
use p3_sumcheck::{SumcheckError, declare, prove, verify};
use p3_symmetric::Sha256Hasher;
use std::alloc::Global;

/// The separator of so many rounds.
pub fn rounds_alone<F: ScalarField, U>(
    alloc: Global,
    rounds: usize,
) -> Result<DomainSeparator<U, Sha256Hasher>, TranscriptError> {
    let mut recorder = PatternState::<U>::new(alloc);
    let declared = declare::<F, U, Sha256Hasher>(&mut recorder, rounds);
    let pattern = declared.and(recorder.finalize())?;
    DomainSeparator::new(alloc, 1, b"world", pattern)
}

/// The proof of a table, the point, and its value there.
pub fn prove_table<F: ScalarField, U: Unit, C: CanObserve<U::Item> + Drop, Cdc: Codec<C, F>>(
    alloc: Global,
    challenger: C,
    table: Vec<F>,
    rounds: usize,
) -> Result<(Vec<u8>, Vec<F>, F), TranscriptError>
    requires size { length table.items ≡ 2 ^ rounds }
    requires alphabet { U.is_alphabet }
    requires secure { 128 ≤ Cdc.SECURITY_BITS }
{
    let separator = rounds_alone::<F, U>(alloc, rounds)?;
    let mut prover = ProverState::new(alloc, challenger, &separator)?;
    let sent = prove::<F, U, C, Sha256Hasher, Cdc>(alloc, table, &mut prover);
    let proof = prover.finalize();
    let (point, value) = sent?;
    Ok((proof?, point, value))
}

/// What is answered to a proof: the point, and the last claim.
pub fn verify_proof<F: ScalarField, U: Unit, C: CanObserve<U::Item> + Drop, Cdc: Codec<C, F>>(
    alloc: Global,
    challenger: C,
    claim: F,
    rounds: usize,
    proof: &[u8],
) -> Result<(Vec<F>, F), SumcheckError>
    requires alphabet { U.is_alphabet }
    requires secure { 128 ≤ Cdc.SECURITY_BITS }
{
    let separator = rounds_alone::<F, U>(alloc, rounds)?;
    let mut verifier = VerifierState::new(alloc, challenger, &separator, proof)?;
    let read = verify::<F, U, C, Sha256Hasher, Cdc>(alloc, claim, rounds, &mut verifier);
    let end = verifier.finalize();
    let read = read?;
    end?;
    Ok(read)
}
