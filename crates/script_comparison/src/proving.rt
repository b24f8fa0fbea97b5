// A script step by step on a prover.
use crate::whole::Written;
use anyhow::{Result, bail};
use p3_challenger::fs::script::{Drawn, Fault, Played, Proved, Step, Suite, prover_step};
use p3_challenger::fs::{PatternError, ProverState, TranscriptError};
use script_lines::alone::{given, is_admitted, only};
use script_lines::script::Steps;
use script_lines::world::{SeparatorOf, World, state};
use std::alloc::Global;

type ProverOf<S> = ProverState<<S as Suite>::Challenger, <S as Suite>::Unit, <S as Suite>::Digest>;

// What a prover has found and drawn so far; and where a step was refused, that with what it leaves.
#[derive(Drop)]
struct Made<S: World> {
    witnesses: Vec<S::Field>,
    carried: Vec<S::Field>,
    challenges: Vec<Drawn<S>>,
    refused: Option<(Fault, String)>,
}

/// Plays the script by `prover_step`. Where a step is refused, it is tried once more, and so is the one that the
/// pattern has there.
pub fn prove_by_steps<S: World>(
    alloc: Global,
    separator: &SeparatorOf<S>,
    script: &Steps<S>,
    pattern: &Steps<S>,
) -> Result<Written<S>> {
    let mut prover = match ProverState::new(alloc, S::fresh(alloc)?, separator) {
        Ok(prover) => prover,
        Err(error) => {
            return Written::refused(alloc, &Fault { position: 0, error }, String::new(alloc));
        }
    };
    let made = play::<S>(alloc, &mut prover, script, pattern);
    let wrote = wrote(alloc, prover.narg());
    let end = prover.finish();
    ended(alloc, made?, end, script, wrote?)
}

// What a prover leaves that has ended so, with these bytes written.
fn ended<S: World>(
    alloc: Global,
    made: Made<S>,
    end: Result<(Vec<u8>, S::Challenger), TranscriptError>,
    script: &Steps<S>,
    wrote: String,
) -> Result<Written<S>> {
    let position = script.steps.len();
    match (made.refused, end) {
        (None, Ok((narg, challenger))) => Written::proved(
            alloc,
            Proved {
                narg,
                witnesses: made.witnesses,
                carried: made.carried,
                challenges: made.challenges,
                challenger,
            },
            script.next,
        ),
        (None, Err(error)) => Written::refused(alloc, &Fault { position, error }, wrote),
        (Some((fault, left)), Err(TranscriptError::Pattern(PatternError::Finished))) => {
            Written::refused(alloc, &fault, left)
        }
        _ => bail!("a prover ended after a step that was refused"),
    }
}

fn wrote(alloc: Global, narg: &[u8]) -> Result<String> {
    let narg = hex::encode(alloc, narg)?;
    Ok(format!(in alloc; " ; wrote {narg}")?)
}

// Plays the steps up to the first that is refused.
fn play<S: World>(
    alloc: Global,
    prover: &mut ProverOf<S>,
    script: &Steps<S>,
    pattern: &Steps<S>,
) -> Result<Made<S>> {
    let mut made = Made {
        witnesses: Vec::new(alloc),
        carried: Vec::new(alloc),
        challenges: Vec::new(alloc),
        refused: None,
    };
    for (place, step) in script.steps.iter().enumerate() {
        match play_step(alloc, prover, script, place)? {
            Ok(played) => made.keep(step, played)?,
            Err(error) => {
                let left = left(alloc, prover, script, pattern, place)?;
                let position = place;
                made.refused = Some((Fault { position, error }, left));
                break;
            }
        }
    }
    Ok(made)
}

// What is left of a prover that refused the step at a place, and refuses it once more, and that of the pattern.
fn left<S: World>(
    alloc: Global,
    prover: &mut ProverOf<S>,
    script: &Steps<S>,
    pattern: &Steps<S>,
    place: usize,
) -> Result<String> {
    try_again(alloc, prover, script, place)?;
    try_again(alloc, prover, pattern, place)?;
    let wrote = wrote(alloc, prover.narg())?;
    let state = state::<S>(alloc, prover.challenger_mut(), script.next)?;
    Ok(format!(in alloc; "{wrote} ; {state}")?)
}

impl<S: World> Made<S> {
    // Keeps what a step answers.
    fn keep(&mut self, step: &Step<S>, played: Played<S>) -> Result<()> {
        let (witness, drawn) = played;
        if let Some(witness) = witness {
            self.witnesses.push(witness)?;
            if matches!(step, Step::ObservePow { .. }) {
                self.carried.push(witness)?;
            }
        }
        if let Some(drawn) = drawn {
            self.challenges.push(drawn)?;
        }
        Ok(())
    }
}

// Tries the step at a place once more on a prover that refused one.
fn try_again<S: World>(
    alloc: Global,
    prover: &mut ProverOf<S>,
    script: &Steps<S>,
    place: usize,
) -> Result<()> {
    if place >= script.steps.len() {
        return Ok(());
    }
    match play_step(alloc, prover, script, place)? {
        Err(TranscriptError::Pattern(PatternError::Finished)) => Ok(()),
        _ => bail!("a prover that refused a step played another"),
    }
}

// Plays the step at a place.
fn play_step<S: World>(
    alloc: Global,
    prover: &mut ProverOf<S>,
    script: &Steps<S>,
    place: usize,
) -> Result<Result<Played<S>, TranscriptError>> {
    let Some(alone) = script.steps.as_slice().get(place..place.saturating_add(1)) else {
        bail!("no step there");
    };
    let Some(step) = only(alone) else {
        bail!("no step there");
    };
    if !is_admitted(alone, step) {
        bail!("a step that is not played here");
    }
    let given = given(alone, step, script.handed(place))?;
    Ok(prover_step(alloc, prover, step, given))
}
