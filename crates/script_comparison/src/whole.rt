// A whole script by one call on each side.
use crate::told::{Told, push_bytes, push_drawn, push_numbers, received, refused};
use anyhow::Result;
use p3_challenger::fs::script::{Fault, Proved, Verified};
use script_lines::playing::{prove_steps, verify_steps};
use script_lines::script::Steps;
use script_lines::world::{SeparatorOf, World, state};
use std::alloc::Global;

/// What a prover leaves: what is told of it, the proof, and the witnesses that the proof does not carry.
#[derive(Drop)]
pub struct Written<S: World> {
    pub told: Told,
    pub narg: Vec<u8>,
    pub carried: Vec<S::Field>,
}

impl<S: World> Written<S> {
    /// Of a prover that was refused.
    pub fn refused(alloc: Global, fault: &Fault, more: String) -> Result<Written<S>> {
        let text = refused(alloc, fault)?;
        Ok(Written::nothing(alloc, Told { text, more }))
    }

    /// Of a prover without a proof.
    pub fn nothing(alloc: Global, told: Told) -> Written<S> {
        Written {
            told,
            narg: Vec::new(alloc),
            carried: Vec::new(alloc),
        }
    }

    /// Of a prover that has played all steps, whose challenger draws so many scalars then.
    pub fn proved(alloc: Global, mut proved: Proved<S>, next: usize) -> Result<Written<S>> {
        let text = proved_text(alloc, &mut proved, next)?;
        Ok(Written {
            told: Told::plain(alloc, text),
            narg: proved.narg,
            carried: proved.carried,
        })
    }
}

fn proved_text<S: World>(alloc: Global, proved: &mut Proved<S>, next: usize) -> Result<String> {
    let mut text = String::from_str(alloc, "wire ")?;
    push_bytes(alloc, &mut text, proved.narg.as_slice())?;
    text.push_str(" ; draws ")?;
    push_drawn::<S>(&mut text, proved.challenges.as_slice())?;
    text.push_str(" ; witnesses ")?;
    push_numbers::<S>(&mut text, proved.witnesses.as_slice())?;
    text.push_str(" ; ")?;
    push_state::<S>(alloc, &mut text, &mut proved.challenger, next)?;
    Ok(text)
}

// Adds what the challenger draws then.
fn push_state<S: World>(
    alloc: Global,
    text: &mut String,
    challenger: &mut S::Challenger,
    next: usize,
) -> Result<()> {
    text.push_str(state::<S>(alloc, challenger, next)?.as_str())?;
    Ok(())
}

/// Plays the script by `prove`.
pub fn prove_whole<S: World>(
    alloc: Global,
    separator: &SeparatorOf<S>,
    script: &Steps<S>,
) -> Result<Written<S>> {
    let (steps, sent) = (script.steps.as_slice(), script.sent.as_slice());
    match prove_steps::<S>(alloc, S::fresh(alloc)?, separator, steps, sent)? {
        Ok(proved) => Written::proved(alloc, proved, script.next),
        Err(fault) => Written::refused(alloc, &fault, String::new(alloc)),
    }
}

/// Plays the script by `verify`.
pub fn verify_whole<S: World>(
    alloc: Global,
    separator: &SeparatorOf<S>,
    script: &Steps<S>,
    carried: &[S::Field],
    narg: &[u8],
) -> Result<Told> {
    let steps = script.steps.as_slice();
    match verify_steps::<S>(alloc, S::fresh(alloc)?, separator, steps, carried, narg)? {
        Ok(verified) => accepted(alloc, verified, script.next),
        Err(fault) => Ok(Told::plain(alloc, refused(alloc, &fault)?)),
    }
}

/// What is told of a verifier that has accepted a proof, whose challenger draws so many scalars then.
pub fn accepted<S: World>(
    alloc: Global,
    mut verified: Verified<'_, S>,
    next: usize,
) -> Result<Told> {
    let text = accepted_text(alloc, &mut verified, next)?;
    let more = received::<S>(alloc, verified.received.as_slice())?;
    Ok(Told { text, more })
}

fn accepted_text<S: World>(
    alloc: Global,
    verified: &mut Verified<'_, S>,
    next: usize,
) -> Result<String> {
    let mut text = String::from_str(alloc, "accepted ")?;
    push_drawn::<S>(&mut text, verified.challenges.as_slice())?;
    text.push(' ')?;
    push_state::<S>(alloc, &mut text, &mut verified.challenger, next)?;
    Ok(text)
}
