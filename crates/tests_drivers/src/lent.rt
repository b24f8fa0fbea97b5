// Steps of a small table, each by a prover and by a verifier over a challenger that is lent: what is written, what is
// drawn after it, and what the owner of the challenger draws then.
//
// The other program's challenger, fed the seed and what each step feeds, draws these numbers.
use crate::small_world::{
    Prover, Scalars, Separator, Verifier, challenge, drawn, element, scalars, separator, world,
};
use p3_challenger::fs::{
    Hierarchy, Interaction, Kind, Length, ProverState, TranscriptBound, TranscriptError,
    VerifierState,
};
use p3_challenger::{CanObserve, CanSample};
use p3_field::{F257, PrimeField64};
use std::alloc::{AllocError, Global};
use std::test::Fail;

// What is sent before an element is drawn.
#[derive(Clone, Copy)]
enum Sent {
    Scalar(u64),
    // A list, and the most elements that it may have.
    Bounded(usize, &'static [u64]),
    Hint(&'static [u8]),
}

// What is sent, the bytes of the proof, the element that is drawn after it, and the challenger's next one.
const ROWS: [(Sent, &[u8], u64, u64); 6] = [
    (Sent::Scalar(5), &[0, 5], 7, 133),
    (Sent::Scalar(256), &[1, 0], 1, 133),
    (Sent::Bounded(3, &[5, 256]), &[2, 0, 5, 1, 0], 7, 8),
    (Sent::Bounded(3, &[]), &[0], 3, 134),
    (Sent::Bounded(0, &[]), &[], 2, 133),
    (Sent::Hint(&[0xff]), &[0xff], 2, 6),
];

// The step of the pattern.
fn step(sent: Sent) -> Interaction {
    match sent {
        Sent::Scalar(_) => scalars(Kind::Message, "x", Length::Scalar),
        Sent::Bounded(max, _) => scalars(Kind::Message, "x", Length::Bounded(max)),
        Sent::Hint(bytes) => {
            let length = Length::Fixed(bytes.len());
            Interaction::bytes(Hierarchy::Atomic, Kind::Hint, "x", length)
        }
    }
}

fn elements(alloc: Global, numbers: &[u64]) -> Result<Vec<F257>, AllocError> {
    let mut elements = Vec::new(alloc);
    for number in numbers {
        elements.push(element(*number))?;
    }
    Ok(elements)
}

// Whether the elements are those of these numbers.
fn are_elements(elements: &[TranscriptBound<F257>], numbers: &[u64]) -> bool {
    let mut numbers = numbers.iter();
    for element in elements {
        if numbers.next() != Some(&element.as_inner().as_canonical_u64()) {
            return false;
        }
    }
    numbers.next().is_none()
}

fn send<C: CanObserve<F257> + CanSample<F257>>(
    alloc: Global,
    prover: &mut Prover<C>,
    sent: Sent,
) -> Result<(), TranscriptError> {
    match sent {
        Sent::Scalar(number) => {
            prover.add_scalar::<F257, Scalars>("x", &element(number))?;
        }
        Sent::Bounded(max, numbers) => {
            let values = elements(alloc, numbers)?;
            prover.add_scalars_bounded::<F257, Scalars>("x", values.as_slice(), max)?;
        }
        Sent::Hint(bytes) => prover.add_hint("x", bytes)?,
    }
    Ok(())
}

// Whether what is received is what was sent.
fn receives<C: CanObserve<F257> + CanSample<F257>>(
    verifier: &mut Verifier<'_, C>,
    sent: Sent,
) -> Result<bool, TranscriptError> {
    match sent {
        Sent::Scalar(number) => {
            Ok(verifier.next_scalar::<F257, Scalars>("x")?.into_inner() == element(number))
        }
        Sent::Bounded(max, numbers) => {
            let received = verifier.next_scalars_bounded::<F257, Scalars>("x", max)?;
            Ok(are_elements(received.as_slice(), numbers))
        }
        Sent::Hint(bytes) => Ok(verifier.next_hint("x", bytes.len())? == bytes),
    }
}

// Proves; gives the proof, and the number that was drawn.
fn prove<C: CanObserve<F257> + CanSample<F257> + Drop>(
    alloc: Global,
    challenger: C,
    separator: &Separator,
    sent: Sent,
) -> Result<(Vec<u8>, u64), TranscriptError> {
    let mut prover: Prover<C> = ProverState::new(alloc, challenger, separator)?;
    let played = send(alloc, &mut prover, sent);
    let value = prover.challenge_scalar::<F257, Scalars>("c");
    let narg = prover.finalize()?;
    played?;
    Ok((narg, value?.into_inner().as_canonical_u64()))
}

// Verifies; gives whether what was sent was received, and the number that was drawn.
fn verify<C: CanObserve<F257> + CanSample<F257> + Drop>(
    alloc: Global,
    challenger: C,
    separator: &Separator,
    sent: Sent,
    narg: &[u8],
) -> Result<(bool, u64), TranscriptError> {
    let mut verifier: Verifier<'_, C> = VerifierState::new(alloc, challenger, separator, narg)?;
    let received = receives(&mut verifier, sent);
    let value = verifier.challenge_scalar::<F257, Scalars>("c");
    verifier.finalize()?;
    Ok((received?, value?.into_inner().as_canonical_u64()))
}

#[test]
fn steps_are_played_over_a_challenger_that_is_lent(rt: HostRuntime) -> Result<(), Fail> {
    let alloc = rt.alloc();
    for (sent, narg, after, next) in ROWS {
        let separator = separator(alloc, vec![in alloc; step(sent), challenge()]?)?;
        let mut lent = world();
        let (proof, value) = prove(alloc, &mut lent, &separator, sent)?;
        assert_eq!(rt;
            (proof.as_slice(), value, drawn(&mut lent)?),
            (narg, after, next)
        );
        let mut lent = world();
        let verified = verify(alloc, &mut lent, &separator, sent, narg)?;
        assert_eq!(rt; (verified, drawn(&mut lent)?), ((true, after), next));
    }
    Ok(())
}
