//! The prover's side.
ghost use Rattle.std.specs.Prelude.{◌≡◌, ◌≤◌, ◌^◌, ℕ, ◌∷◌, [], length, IfErr, IfOk};
ghost use Rattle.p3_challenger.specs.Drivers.{proving_of};
ghost use Rattle.p3_sumcheck.specs.Results.{NamesUnwrittenRound, PlaysRoundsNext, WritesTrueRounds};
ghost use Rattle.p3_sumcheck.specs.Sumchecks.{RefusesToSend, WritesRound};

use crate::Sums;
use crate::table::{fold, sums_of_halves};
use p3_challenger::CanObserve;
use p3_challenger::fs::{Codec, ProverState, TranscriptError, Unit};
use p3_field::ScalarField;
use p3_symmetric::DigestHasher;
use std::alloc::Global;

/// Sends the rounds of a table, and returns the point of their challenges and the table's value
/// there.
///
/// The table is folded in place, in one pass for each round. The errors are those of the steps, and
/// [`TranscriptError::OutOfMemory`] where memory for the point is refused. After an error the
/// caller aborts the prover.
///
/// Conditions: the table has `2^n` values, and the codec has at least
/// [`MIN_CHALLENGE_SECURITY_BITS`](p3_challenger::fs::MIN_CHALLENGE_SECURITY_BITS) bits of
/// security.
pub fn prove<
    F: ScalarField,
    U: Unit,
    C: CanObserve<U::Item> + Drop,
    D: DigestHasher,
    Cdc: Codec<C, F>,
>(
    alloc: Global,
    mut table: Vec<F>,
    prover: &mut ProverState<C, U, D>,
) -> Result<(Vec<F>, F), TranscriptError>
    requires size { (n : ℕ) × (length table.items ≡ 2 ^ n) }
    requires secure { 128 ≤ Cdc.SECURITY_BITS }
    // The true pairs are written, and the table's value at the point is returned.
    ensures ok { WritesTrueRounds ⟦<F as Sums<F, C, D, Cdc>>⟧.sumcheck table.items
        (proving_of C.state prover.old) result (proving_of C.state prover.new) }
    ensures err { NamesUnwrittenRound ⟦<F as Sums<F, C, D, Cdc>>⟧.sumcheck table.items
        (proving_of C.state prover.old) result (proving_of C.state prover.new) }
    // Where the rounds are next they are played, or the challenger alone or memory refuses.
    ensures only { PlaysRoundsNext ⟦<F as Sums<F, C, D, Cdc>>⟧.sumcheck table.items
        (proving_of C.state prover.old) result (proving_of C.state prover.new) }
{
    let mut point = Vec::new(alloc);
    let mut pair = sums_of_halves(&table);
    'rounds: while table.len() > 1 {
        let challenge = send_round::<F, U, C, D, Cdc>(prover, pair)?;
        pair = fold(&mut table, challenge);
        point.push(challenge)?;
    }
    Ok((point, table[0]))
}

// Sends a pair, and draws the challenge after it.
fn send_round<
    F: ScalarField,
    U: Unit,
    C: CanObserve<U::Item> + Drop,
    D: DigestHasher,
    Cdc: Codec<C, F>,
>(prover: &mut ProverState<C, U, D>, pair: (F, F)) -> Result<F, TranscriptError>
    requires { 128 ≤ Cdc.SECURITY_BITS }
    ensures ok { IfOk result (λ x. WritesRound ⟦<F as Sums<F, C, D, Cdc>>⟧.sumcheck
        (proving_of C.state prover.old) (record { first = pair.0; second = pair.1; challenge = x })
        (proving_of C.state prover.new)) }
    ensures err { IfErr result (λ e. RefusesToSend ⟦<F as Sums<F, C, D, Cdc>>⟧.sumcheck
        (pair.0 ∷ pair.1 ∷ []) (proving_of C.state prover.old) e (proving_of C.state prover.new)) }
{
    prover.add_scalars::<F, Cdc>("round", &[pair.0, pair.1])?;
    let challenge = prover.challenge_scalar::<F, Cdc>("fold")?;
    Ok(challenge.into_inner())
}
