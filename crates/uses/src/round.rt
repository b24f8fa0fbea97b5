//! A round of a protocol over any challenger, codec and alphabet: a scalar is sent, and another is drawn.
//!
//! [`send_and_draw`] is the prover's side, and [`receive_and_draw`] the verifier's. Their contracts say that the drawn
//! scalar depends on exactly the symbols of the sent one. The code knows nothing of the challenger and the codec. The
//! contracts of the drivers' steps and three laws suffice, and a body calls each law for its clause.
ghost use Rattle.std.specs.Prelude.{◌≡◌, ◌≤◌, ◌++◌, IfOk, OnErr};
ghost use Rattle.p3_challenger.specs.{Bound.bound_value, Drivers.{proving_of, verifying_of}, Dependence.DrawsAfter};
ghost use Rattle.p3_challenger.specs.SeparatorSeed.{held_of};
ghost use Rattle.uses.specs.SentAndDrawn.{DrawnAfter, LeavesRound, ObservesAndDraws};

use crate::Seeded;
use p3_challenger::CanObserve;
use p3_challenger::fs::{
    Codec, DomainSeparator, ProverState, TranscriptBound, TranscriptError, Unit, VerifierState,
};
use p3_challenger::laws::symbols::{
    bytes_feed_their_symbols, draws_feed_nothing, values_feed_their_symbols,
};
use p3_field::ScalarField;
use p3_symmetric::DigestHasher;
use std::alloc::Global;

/// Sends a scalar and draws another. Between the two, the challenger was fed exactly the symbols of the sent scalar.
///
/// The errors are those of the two steps. After an error a prefix of the symbols was fed, or all of them were and some
/// of the challenger's smallest draws were made.
///
/// Condition: the codec has at least [`MIN_CHALLENGE_SECURITY_BITS`](p3_challenger::fs::MIN_CHALLENGE_SECURITY_BITS)
/// bits of security.
pub fn send_and_draw<
    F: ScalarField,
    U: Unit,
    C: CanObserve<U::Item> + Drop,
    D: DigestHasher,
    Cdc: Codec<C, F>,
>(prover: &mut ProverState<C, U, D>, value: &F) -> Result<TranscriptBound<F>, TranscriptError>
    requires { 128 ≤ Cdc.SECURITY_BITS }
    ensures drawn { IfOk result (λ x. DrawsAfter C.fed Cdc.sampling (Cdc.observation.symbols value.now) (bound_value x)
        (proving_of C.state prover.old).transcript.challenger (proving_of C.state prover.new).transcript.challenger) }
    // The two steps, by what the codec observes and draws.
    ensures steps { IfOk result (λ x. ObservesAndDraws Cdc.observation Cdc.sampling value.now (bound_value x)
        (proving_of C.state prover.old).transcript.challenger (proving_of C.state prover.new).transcript.challenger) }
    ensures err { OnErr result (LeavesRound C.fed C.next (Cdc.observation.symbols value.now)
        (proving_of C.state prover.old).transcript.challenger (proving_of C.state prover.new).transcript.challenger) }
{
    values_feed_their_symbols::<F, C, Cdc>();
    draws_feed_nothing::<F, C, Cdc>();
    prover.add_scalar::<F, Cdc>("sent", value)?;
    prover.challenge_scalar::<F, Cdc>("drawn")
}

/// The scalars that a verifier has after a round.
#[derive(Clone, Copy, Debug)]
pub struct Round<F> {
    /// The scalar that was sent.
    pub sent: F,
    /// The scalar that was drawn.
    pub drawn: F,
}

/// Reads a scalar and draws another. Between the two, the challenger was fed exactly the symbols of the scalar that was
/// read.
///
/// The errors are those of the two steps.
///
/// Condition: the codec has at least [`MIN_CHALLENGE_SECURITY_BITS`](p3_challenger::fs::MIN_CHALLENGE_SECURITY_BITS)
/// bits of security.
pub fn receive_and_draw<
    F: ScalarField,
    U: Unit,
    C: CanObserve<U::Item> + Drop,
    D: DigestHasher,
    Cdc: Codec<C, F>,
>(verifier: &mut VerifierState<'_, C, U, D>) -> Result<Round<F>, TranscriptError>
    requires { 128 ≤ Cdc.SECURITY_BITS }
    ensures { IfOk result (λ round. DrawsAfter C.fed Cdc.sampling (Cdc.observation.symbols round.sent) round.drawn
        (verifying_of C.state verifier.old).transcript.challenger
        (verifying_of C.state verifier.new).transcript.challenger) }
{
    values_feed_their_symbols::<F, C, Cdc>();
    let sent = verifier.next_scalar::<F, Cdc>("sent")?;
    let drawn = verifier.challenge_scalar::<F, Cdc>("drawn")?;
    Ok(Round {
        sent: sent.into_inner(),
        drawn: drawn.into_inner(),
    })
}

/// Draws the first challenge of a protocol that begins with a scalar. The challenger was fed exactly the symbols of the
/// separator's seed and of the scalar.
///
/// The errors are those of a new prover and of the two steps. After an error everything is dropped.
///
/// Conditions: `U` is an alphabet, and the codec has at least
/// [`MIN_CHALLENGE_SECURITY_BITS`](p3_challenger::fs::MIN_CHALLENGE_SECURITY_BITS) bits of security.
pub fn first_challenge<
    F: ScalarField,
    U: Unit,
    C: CanObserve<U::Item> + Drop,
    D: DigestHasher,
    Cdc: Codec<C, F>,
>(
    alloc: Global,
    challenger: C,
    separator: &DomainSeparator<U, D>,
    value: &F,
) -> Result<TranscriptBound<F>, TranscriptError>
    requires alphabet { U.is_alphabet }
    requires secure { 128 ≤ Cdc.SECURITY_BITS }
    ensures { IfOk result (λ x. DrawnAfter C.fed Cdc.sampling (⟦<C as Seeded<U, D>>⟧.seed_symbols (held_of separator.now)
        ++ Cdc.observation.symbols value.now) (bound_value x) (C.state challenger)) }
{
    bytes_feed_their_symbols::<U, C>();
    values_feed_their_symbols::<F, C, Cdc>();
    let mut prover = ProverState::new(alloc, challenger, separator)?;
    let drawn = send_and_draw::<F, U, C, D, Cdc>(&mut prover, value);
    prover.abort();
    drawn
}
