// A script on both sides, each in both ways.
use crate::hostile::{Changes, try_changes};
use crate::proving::prove_by_steps;
use crate::told::Told;
use crate::verifying::verify_by_steps;
use crate::whole::{Written, prove_whole, verify_whole};
use anyhow::{Result, bail};
use p3_challenger::fs::script::{admitted, carried_len, fits, sent_matches};
use script_lines::line::{Form, Line};
use script_lines::recording::are_steps_of;
use script_lines::script::{Script, Steps};
use script_lines::world::{SeparatorOf, World};
use std::alloc::Global;

/// What was answered, and how many steps were played.
#[derive(Drop)]
pub struct Answered {
    pub text: String,
    pub steps: usize,
}

/// Plays the script of a line with a prover, and then with a verifier of the proof as the line changes it; and judges
/// changes of the proof.
pub fn play<S: World>(alloc: Global, line: &Line<'_>, changes: &mut Changes) -> Result<Answered> {
    let mut script = Script::<S>::parse(alloc, line)?;
    let steps = script.played.steps.len();
    if !admitted(script.played.steps.as_slice()) {
        let text = String::from_str(alloc, "not admitted")?;
        return Ok(Answered { text, steps });
    }
    let separator = script.separator(alloc, line)?;
    let text = both_sides(alloc, line, &separator, &mut script)?;
    try_changes(alloc, &separator, &script.played, changes)?;
    Ok(Answered { text, steps })
}

fn both_sides<S: World>(
    alloc: Global,
    line: &Line<'_>,
    separator: &SeparatorOf<S>,
    script: &mut Script<S>,
) -> Result<String> {
    let mut text = String::from_str(alloc, fit(separator, script)?)?;
    let (told, verdict) = play_sides(alloc, separator, script)?;
    push_told(&mut text, line.form, &told)?;
    text.push_str(" ; verify ")?;
    push_told(&mut text, line.form, &verdict)?;
    Ok(text)
}

// Whether the steps are those of the pattern, where the line has a pattern of its own.
fn fit<S: World>(separator: &SeparatorOf<S>, script: &Script<S>) -> Result<&'static str> {
    let fit = fits(script.played.steps.as_slice(), separator.pattern());
    if fit != are_steps_of(script.played.steps.as_slice(), separator.pattern()) {
        bail!("steps that are said to fit and do not, or the other way round");
    }
    match (&script.pattern, fit) {
        (None, _) => Ok(""),
        (Some(_), true) => Ok("fits ; "),
        (Some(_), false) => Ok("other steps ; "),
    }
}

// What is told of the prover, and of the verifier of the proof as the line changes it.
fn play_sides<S: World>(
    alloc: Global,
    separator: &SeparatorOf<S>,
    script: &mut Script<S>,
) -> Result<(Told, Told)> {
    let mut written = prover_side(alloc, separator, script)?;
    script.change.apply(&mut written.narg)?;
    if let Some(carried) = script.carried.take() {
        written.carried = carried;
    }
    let verdict = verifier_side(alloc, separator, script, &written)?;
    Ok((written.told, verdict))
}

fn push_told(text: &mut String, form: Form, told: &Told) -> Result<()> {
    text.push_str(told.text.as_str())?;
    if form == Form::Long {
        text.push_str(told.more.as_str())?;
    }
    Ok(())
}

// The steps of the pattern: those that are played, where the line has no others for it.
fn steps_of_pattern<S: World>(script: &Script<S>) -> &Steps<S> {
    match &script.pattern {
        Some(pattern) => pattern,
        None => &script.played,
    }
}

fn prover_side<S: World>(
    alloc: Global,
    separator: &SeparatorOf<S>,
    script: &Script<S>,
) -> Result<Written<S>> {
    let played = &script.played;
    if !sent_matches(played.steps.as_slice(), played.sent.as_slice()) {
        let text = String::from_str(alloc, "not handed")?;
        return Ok(Written::nothing(alloc, Told::plain(alloc, text)));
    }
    let whole = prove_whole(alloc, separator, played)?;
    let mut by_steps = prove_by_steps(alloc, separator, played, steps_of_pattern(script))?;
    by_steps.told = agreed(alloc, whole.told, by_steps.told)?;
    Ok(by_steps)
}

fn verifier_side<S: World>(
    alloc: Global,
    separator: &SeparatorOf<S>,
    script: &Script<S>,
    written: &Written<S>,
) -> Result<Told> {
    let played = &script.played;
    let carried = written.carried.as_slice();
    let narg = written.narg.as_slice();
    if carried_len(played.steps.as_slice()) != carried.len() {
        return Ok(Told::plain(alloc, String::from_str(alloc, "not carried")?));
    }
    let whole = verify_whole(alloc, separator, played, carried, narg)?;
    let pattern = steps_of_pattern(script);
    let by_steps = verify_by_steps(alloc, separator, played, pattern, carried, narg)?;
    agreed(alloc, whole, by_steps)
}

// What is told of both ways, where they agree.
fn agreed(alloc: Global, whole: Told, by_steps: Told) -> Result<Told> {
    if whole.agrees(&by_steps) {
        return Ok(by_steps);
    }
    let (first, second) = (whole.text, by_steps.text);
    let text = format!(in alloc; "{first}, but step by step {second}")?;
    Ok(Told::plain(alloc, text))
}
