// A component that lends its challenger to a protocol of its own, between two steps of another one. Each function is
// generic over the challenger, and so proved once, from its bounds alone; the test names the challenger in one line.
//
// The other program's challenger, fed both seeds and the values, draws these numbers.
use crate::opaque::Lists;
use crate::small_world::{
    Prover, Scalars, Separator, Verifier, challenge, drawn, element, separator, world,
};
use p3_challenger::fs::{
    Hierarchy, Interaction, Kind, Length, PatternError, ProverState, TranscriptError, VerifierState,
};
use p3_challenger::{CanCopy, CanObserve, CanSample};
use p3_field::{F257, PrimeField64};
use std::alloc::Global;
use std::process::Abort;

// What the inner protocol draws, what the outer one draws after it, and what the challenger draws next.
const DRAWN: [u64; 3] = [2, 3, 134];

#[derive(Drop)]
struct Separators {
    // Two opaque values are bound, and an element is drawn.
    outer: Separator,
    // An element is drawn.
    inner: Separator,
}

fn both_separators(alloc: Global) -> Result<Separators, TranscriptError> {
    let opaque = Interaction::opaque(Hierarchy::Atomic, Kind::Message, "x", Length::Scalar);
    let outer = separator(alloc, vec![in alloc; opaque, opaque, challenge()]?)?;
    let inner = separator(alloc, vec![in alloc; challenge()]?)?;
    Ok(Separators { outer, inner })
}

// ---- by a prover

fn prove_within<C: CanObserve<F257> + CanSample<F257> + Drop>(
    alloc: Global,
    lent: C,
    separator: &Separator,
) -> Result<u64, TranscriptError> {
    let mut inner: Prover<C> = ProverState::new(alloc, lent, separator)?;
    let value = inner.challenge_scalar::<F257, Scalars>("c");
    inner.finalize()?;
    Ok(value?.into_inner().as_canonical_u64())
}

fn play_prover<C: CanObserve<Lists> + CanObserve<F257> + CanSample<F257> + Drop>(
    alloc: Global,
    outer: &mut Prover<C>,
    inner: &Separator,
    lists: Lists,
) -> Result<[u64; 2], TranscriptError> {
    outer.observe_opaque("x", lists)?;
    let within = prove_within(alloc, outer.challenger_mut(), inner)?;
    outer.observe_opaque("x", lists)?;
    let value = outer.challenge_scalar::<F257, Scalars>("c")?;
    Ok([within, value.into_inner().as_canonical_u64()])
}

// Proves; gives what was drawn.
fn prove<C: CanObserve<Lists> + CanObserve<F257> + CanSample<F257> + Drop>(
    alloc: Global,
    challenger: C,
    separators: &Separators,
    lists: Lists,
) -> Result<[u64; 3], TranscriptError> {
    let mut outer: Prover<C> = ProverState::new(alloc, challenger, &separators.outer)?;
    let played = play_prover(alloc, &mut outer, &separators.inner, lists);
    let (_narg, mut challenger) = outer.finish()?;
    let [within, after] = played?;
    Ok([within, after, drawn(&mut challenger)?])
}

// ---- by a verifier

fn verify_within<C: CanObserve<F257> + CanSample<F257> + Drop>(
    alloc: Global,
    lent: C,
    separator: &Separator,
) -> Result<u64, TranscriptError> {
    let mut inner: Verifier<'_, C> = VerifierState::new(alloc, lent, separator, b"")?;
    let value = inner.challenge_scalar::<F257, Scalars>("c");
    inner.finalize()?;
    Ok(value?.into_inner().as_canonical_u64())
}

fn play_verifier<C: CanObserve<Lists> + CanObserve<F257> + CanSample<F257> + Drop>(
    alloc: Global,
    outer: &mut Verifier<'_, C>,
    inner: &Separator,
    lists: Lists,
) -> Result<[u64; 2], TranscriptError> {
    outer.observe_opaque("x", lists)?;
    let within = verify_within(alloc, outer.challenger_mut(), inner)?;
    outer.observe_opaque("x", lists)?;
    let value = outer.challenge_scalar::<F257, Scalars>("c")?;
    Ok([within, value.into_inner().as_canonical_u64()])
}

// Verifies; gives what was drawn.
fn verify<C: CanObserve<Lists> + CanObserve<F257> + CanSample<F257> + Drop>(
    alloc: Global,
    challenger: C,
    separators: &Separators,
    lists: Lists,
) -> Result<[u64; 3], TranscriptError> {
    let mut outer: Verifier<'_, C> = VerifierState::new(alloc, challenger, &separators.outer, b"")?;
    let played = play_verifier(alloc, &mut outer, &separators.inner, lists);
    let mut challenger = outer.finish()?;
    let [within, after] = played?;
    Ok([within, after, drawn(&mut challenger)?])
}

// ---- both

// Whether both sides draw that, with lists of the same elements.
fn plays_within<C: CanCopy + CanObserve<Lists> + CanObserve<F257> + CanSample<F257>>(
    alloc: Global,
    fresh: &C,
    separators: &Separators,
    count: usize,
) -> Result<bool, TranscriptError> {
    let lists = Lists {
        elements: [element(1), element(2)],
        count,
    };
    let proved = prove(alloc, fresh.copy()?, separators, lists)?;
    let verified = verify(alloc, fresh.copy()?, separators, lists)?;
    Ok(proved == DRAWN && verified == DRAWN)
}

// Whether a prover and a verifier that are halted before their step refuse it, and their end.
fn refuse_all<C: CanCopy + CanObserve<F257> + CanSample<F257>>(
    alloc: Global,
    fresh: &C,
    separator: &Separator,
) -> Result<bool, TranscriptError> {
    let finished = Some(TranscriptError::Pattern(PatternError::Finished));
    let mut prover: Prover<C> = ProverState::new(alloc, fresh.copy()?, separator)?;
    prover.halt();
    let proved = prover.challenge_scalar::<F257, Scalars>("c").err() == finished;
    let proof_refused = prover.finalize().err() == finished;
    let mut verifier: Verifier<'_, C> = VerifierState::new(alloc, fresh.copy()?, separator, b"")?;
    verifier.halt();
    let verified = verifier.challenge_scalar::<F257, Scalars>("c").err() == finished;
    let end_refused = verifier.finalize().err() == finished;
    Ok(proved && proof_refused && verified && end_refused)
}

fn plays<C: CanCopy + CanObserve<Lists> + CanObserve<F257> + CanSample<F257>>(
    alloc: Global,
    fresh: &C,
) -> Result<bool, TranscriptError> {
    let separators = both_separators(alloc)?;
    let one = plays_within(alloc, fresh, &separators, 1)?;
    let two = plays_within(alloc, fresh, &separators, 2)?;
    Ok(one && two && refuse_all(alloc, fresh, &separators.inner)?)
}

#[test]
fn a_protocol_is_played_within_another(rt: HostRuntime) {
    assert!(rt; plays(rt.alloc(), &world()) == Ok(true));
}
