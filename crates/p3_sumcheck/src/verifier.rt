//! The verifier's side.
ghost use Rattle.std.specs.Prelude.{◌≡◌, ◌≤◌, ◌∷◌, [], IfErr, IfOk};
ghost use Rattle.p3_challenger.specs.{Drivers.verifying_of, Verifying.ReceivesOrRefuses};
ghost use Rattle.p3_field.specs.Residues.{sum_of};
ghost use Rattle.p3_sumcheck.specs.Results.{AcceptsReadRounds, AcceptsRoundsAhead};
ghost use Rattle.p3_sumcheck.specs.Results.{AcceptsTrueRounds, FalseClaimNeedsLuckyRound};
ghost use Rattle.p3_sumcheck.specs.Results.{FindsNoPatternFault, NamesRefusedRound, PassesRounds};
ghost use Rattle.p3_sumcheck.specs.Results.{StopsAtFirstWrongPair};
ghost use Rattle.p3_sumcheck.specs.Sumchecks.{ReadsRound, RefusesRound, read_pair};

use crate::table::{adds, value_at};
use crate::{Round, SumcheckError, Sums};
use p3_challenger::CanObserve;
use p3_challenger::fs::{Codec, TranscriptError, Unit, VerifierState};
use p3_challenger::laws::encodings::read_values_are_encoded;
use p3_challenger::laws::memory::{
    only_memory_refuses_drawn_values, only_memory_refuses_sent_values,
};
use p3_field::ScalarField;
use p3_symmetric::DigestHasher;
use std::alloc::Global;

/// Reads the rounds, and returns the point of their challenges and the last claim, on the value of
/// the prover's table there.
///
/// The error is [`SumcheckError::Round`] at the first pair that does not add up to the claim,
/// before that round's challenge is drawn. Else it is [`SumcheckError::Transcript`] with the error
/// of the step, or with out of memory where memory for the point is refused. After an error the
/// caller aborts the verifier.
///
/// Condition: the codec has at least
/// [`MIN_CHALLENGE_SECURITY_BITS`](p3_challenger::fs::MIN_CHALLENGE_SECURITY_BITS) bits of
/// security.
pub fn verify<
    F: ScalarField,
    U: Unit,
    C: CanObserve<U::Item> + Drop,
    D: DigestHasher,
    Cdc: Codec<C, F>,
>(
    alloc: Global,
    claim: F,
    rounds: usize,
    verifier: &mut VerifierState<'_, C, U, D>,
) -> Result<(Vec<F>, F), SumcheckError>
    requires { 128 ≤ Cdc.SECURITY_BITS }
    // What is accepted are so many rounds, each pair next in the proof and adding to the claim.
    ensures accepts { AcceptsReadRounds ⟦<F as Sums<F, C, D, Cdc>>⟧.sumcheck claim rounds
        (verifying_of C.state verifier.old) result (verifying_of C.state verifier.new) }
    ensures passed { PassesRounds ⟦<F as Sums<F, C, D, Cdc>>⟧.sumcheck claim rounds
        (verifying_of C.state verifier.old) result (verifying_of C.state verifier.new) }
    // Rounds that may be so accepted are, or memory is out.
    ensures only { AcceptsRoundsAhead ⟦<F as Sums<F, C, D, Cdc>>⟧.sumcheck claim rounds
        (verifying_of C.state verifier.old) result (verifying_of C.state verifier.new) }
    ensures refuses { NamesRefusedRound ⟦<F as Sums<F, C, D, Cdc>>⟧.sumcheck claim rounds
        (verifying_of C.state verifier.old) result (verifying_of C.state verifier.new) }
    // Where the rounds are next, no step is refused for the sake of the pattern.
    ensures next { FindsNoPatternFault ⟦<F as Sums<F, C, D, Cdc>>⟧.sumcheck claim rounds
        (verifying_of C.state verifier.old) result (verifying_of C.state verifier.new) }
    // The first pair that does not add to its claim is refused as that of its round.
    ensures disagrees { StopsAtFirstWrongPair ⟦<F as Sums<F, C, D, Cdc>>⟧.sumcheck claim rounds
        (verifying_of C.state verifier.old) result (verifying_of C.state verifier.new) }
    // What a prover sent of a table is accepted for the table's sum, or memory is out.
    ensures complete { AcceptsTrueRounds ⟦<F as Sums<F, C, D, Cdc>>⟧.sumcheck claim rounds
        (verifying_of C.state verifier.old) result (verifying_of C.state verifier.new) }
    // A claim that is not a table's sum, and yet ends in its value, needs a lucky challenge.
    ensures sound { FalseClaimNeedsLuckyRound ⟦<F as Sums<F, C, D, Cdc>>⟧.sumcheck claim rounds
        (verifying_of C.state verifier.old) result (verifying_of C.state verifier.new) }
{
    // Laws, which do nothing: where a pair was sent, or a challenge drawn, memory alone can be
    // refused.
    only_memory_refuses_sent_values::<F, U, C, Cdc>();
    only_memory_refuses_drawn_values::<F, C, Cdc>();
    receive_rounds::<F, U, C, D, Cdc>(alloc, claim, rounds, verifier)
}

// Reads the rounds.
fn receive_rounds<
    F: ScalarField,
    U: Unit,
    C: CanObserve<U::Item> + Drop,
    D: DigestHasher,
    Cdc: Codec<C, F>,
>(
    alloc: Global,
    claim: F,
    rounds: usize,
    verifier: &mut VerifierState<'_, C, U, D>,
) -> Result<(Vec<F>, F), SumcheckError>
    requires { 128 ≤ Cdc.SECURITY_BITS }
    ensures accepts { AcceptsReadRounds ⟦<F as Sums<F, C, D, Cdc>>⟧.sumcheck claim rounds
        (verifying_of C.state verifier.old) result (verifying_of C.state verifier.new) }
    ensures refuses { NamesRefusedRound ⟦<F as Sums<F, C, D, Cdc>>⟧.sumcheck claim rounds
        (verifying_of C.state verifier.old) result (verifying_of C.state verifier.new) }
{
    let mut point = Vec::new(alloc);
    let mut current = claim;
    for place in 0..rounds {
        let round = receive_round::<F, U, C, D, Cdc>(verifier, place, current)?;
        current = value_at(round.challenge, round.first, round.second);
        point.push(round.challenge)?;
    }
    Ok((point, current))
}

// Reads a pair, which must add to the claim, and draws the challenge after it.
fn receive_round<
    F: ScalarField,
    U: Unit,
    C: CanObserve<U::Item> + Drop,
    D: DigestHasher,
    Cdc: Codec<C, F>,
>(
    verifier: &mut VerifierState<'_, C, U, D>,
    place: usize,
    claim: F,
) -> Result<Round<F>, SumcheckError>
    requires { 128 ≤ Cdc.SECURITY_BITS }
    ensures adds { IfOk result (λ round. sum_of F.residues round.first round.second ≡ claim) }
    ensures ok { IfOk result (λ round. ReadsRound ⟦<F as Sums<F, C, D, Cdc>>⟧.sumcheck
        (verifying_of C.state verifier.old) round (verifying_of C.state verifier.new)) }
    ensures err { IfErr result (λ e. RefusesRound ⟦<F as Sums<F, C, D, Cdc>>⟧.sumcheck claim place
        (verifying_of C.state verifier.old) e (verifying_of C.state verifier.new)) }
{
    // A law, which does nothing: what is read of bytes is encoded so. And what is left to read are
    // bytes.
    read_values_are_encoded::<F, U, C, Cdc>();
    let _unread = verifier.unread();
    let (first, second) = receive_pair::<F, U, C, D, Cdc>(verifier)?;
    if !adds(first, second, claim) {
        return Err(SumcheckError::Round(place));
    }
    let challenge = verifier.challenge_scalar::<F, Cdc>("fold")?.into_inner();
    Ok(Round {
        first,
        second,
        challenge,
    })
}

// Reads a pair.
fn receive_pair<
    F: ScalarField,
    U: Unit,
    C: CanObserve<U::Item> + Drop,
    D: DigestHasher,
    Cdc: Codec<C, F>,
>(verifier: &mut VerifierState<'_, C, U, D>) -> Result<(F, F), TranscriptError>
    ensures { ReceivesOrRefuses (read_pair ⟦<F as Sums<F, C, D, Cdc>>⟧.sumcheck)
        (verifying_of C.state verifier.old) (λ pair. pair.0 ∷ pair.1 ∷ []) result
        (verifying_of C.state verifier.new) }
{
    let pair = verifier.next_scalars::<F, Cdc>("round", 2)?;
    Ok((pair[0].into_inner(), pair[1].into_inner()))
}
