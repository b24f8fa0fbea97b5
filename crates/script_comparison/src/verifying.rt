// A script step by step on a verifier.
use crate::told::{Told, refused};
use crate::whole::accepted;
use anyhow::{Result, bail};
use p3_challenger::fs::script::{
    Answer, Drawn, Fault, Received, Step, Suite, Verified, verifier_step,
};
use p3_challenger::fs::{PatternError, TranscriptError, VerifierState};
use script_lines::alone::{is_admitted, is_carried, only};
use script_lines::script::Steps;
use script_lines::world::{SeparatorOf, World, state};
use std::alloc::Global;

type VerifierOf<'a, S> = VerifierState<
    'a,
    <S as Suite>::Challenger,
    <S as Suite>::Unit,
    <S as Suite>::Digest,
>;

// What a verifier has received and drawn so far; and where a step was refused, that with what it leaves.
#[derive(Drop)]
struct Taken<'a, S: World> {
    received: Vec<Received<'a, S>>,
    challenges: Vec<Drawn<S>>,
    refused: Option<(Fault, String)>,
}

/// Plays the script by `verifier_step`. Where a step is refused, it is tried once more, and so is the one that the
/// pattern has there.
pub fn verify_by_steps<S: World>(
    alloc: Global,
    separator: &SeparatorOf<S>,
    script: &Steps<S>,
    pattern: &Steps<S>,
    carried: &[S::Field],
    narg: &[u8],
) -> Result<Told> {
    let mut verifier = match VerifierState::new(alloc, S::fresh(alloc)?, separator, narg) {
        Ok(verifier) => verifier,
        Err(error) => {
            let text = refused(alloc, &Fault { position: 0, error })?;
            return Ok(Told::plain(alloc, text));
        }
    };
    let taken = play::<S>(alloc, &mut verifier, script, pattern, carried);
    let unread = verifier.remaining_narg();
    let end = verifier.finish();
    ended(alloc, taken?, end, script, unread)
}

// What is told of a verifier that has ended so, with bytes left.
fn ended<S: World>(
    alloc: Global,
    taken: Taken<'_, S>,
    end: Result<S::Challenger, TranscriptError>,
    script: &Steps<S>,
    unread: usize,
) -> Result<Told> {
    let position = script.steps.len();
    match (taken.refused, end) {
        (None, Ok(challenger)) => accepted(
            alloc,
            Verified {
                received: taken.received,
                challenges: taken.challenges,
                challenger,
            },
            script.next,
        ),
        (None, Err(error)) => Ok(Told {
            text: refused(alloc, &Fault { position, error })?,
            more: format!(in alloc; " ; unread {unread}")?,
        }),
        (Some((fault, more)), Err(TranscriptError::Pattern(PatternError::Finished))) => {
            let text = refused(alloc, &fault)?;
            Ok(Told { text, more })
        }
        _ => bail!("a verifier ended after a step that was refused"),
    }
}

// Plays the steps up to the first that is refused.
fn play<'a, S: World>(
    alloc: Global,
    verifier: &mut VerifierOf<'a, S>,
    script: &Steps<S>,
    pattern: &Steps<S>,
    carried: &[S::Field],
) -> Result<Taken<'a, S>> {
    let mut taken = Taken {
        received: Vec::new(alloc),
        challenges: Vec::new(alloc),
        refused: None,
    };
    let steps = script.steps.as_slice();
    let mut carried = carried.iter();
    for place in 0..steps.len() {
        let witness = match &steps[place] {
            Step::ObservePow { .. } => carried.next().copied(),
            _ => None,
        };
        match play_step(alloc, verifier, steps, place, witness)? {
            Ok(answer) => taken.keep(answer)?,
            Err(error) => {
                let left = left(alloc, verifier, script, pattern, place)?;
                let position = place;
                taken.refused = Some((Fault { position, error }, left));
                break;
            }
        }
    }
    Ok(taken)
}

// What is left of a verifier that refused the step at a place, and refuses it once more, and that of the pattern.
fn left<S: World>(
    alloc: Global,
    verifier: &mut VerifierOf<'_, S>,
    script: &Steps<S>,
    pattern: &Steps<S>,
    place: usize,
) -> Result<String> {
    try_again(alloc, verifier, script.steps.as_slice(), place)?;
    try_again(alloc, verifier, pattern.steps.as_slice(), place)?;
    let unread = verifier.remaining_narg();
    let state = state::<S>(alloc, verifier.challenger_mut(), script.next)?;
    Ok(format!(in alloc; " ; unread {unread} ; {state}")?)
}

impl<'a, S: World> Taken<'a, S> {
    // Keeps what a step answers.
    fn keep(&mut self, answer: Answer<'a, S>) -> Result<()> {
        let (received, drawn) = answer;
        if let Some(received) = received {
            self.received.push(received)?;
        }
        if let Some(drawn) = drawn {
            self.challenges.push(drawn)?;
        }
        Ok(())
    }
}

// Tries the step at a place once more on a verifier that refused one.
fn try_again<S: World>(
    alloc: Global,
    verifier: &mut VerifierOf<'_, S>,
    steps: &[Step<S>],
    place: usize,
) -> Result<()> {
    if place >= steps.len() {
        return Ok(());
    }
    let witness = match &steps[place] {
        Step::ObservePow { .. } => Some(S::Field::default()),
        _ => None,
    };
    match play_step(alloc, verifier, steps, place, witness)? {
        Err(TranscriptError::Pattern(PatternError::Finished)) => Ok(()),
        _ => bail!("a verifier that refused a step played another"),
    }
}

// Plays the step at a place, with the witness that the caller carries to it, if it does.
fn play_step<'a, S: World>(
    alloc: Global,
    verifier: &mut VerifierOf<'a, S>,
    steps: &[Step<S>],
    place: usize,
    witness: Option<S::Field>,
) -> Result<Result<Answer<'a, S>, TranscriptError>> {
    let Some(alone) = steps.get(place..place.saturating_add(1)) else {
        bail!("no step there");
    };
    let Some(step) = only(alone) else {
        bail!("no step there");
    };
    if !is_admitted(alone, step) || !is_carried(step, witness) {
        bail!("a step that is not played here, or not with this witness");
    }
    Ok(verifier_step(alloc, verifier, step, witness))
}
