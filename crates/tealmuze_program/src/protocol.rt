// A protocol, as its file has it.
use crate::steps::parse_step;
use anyhow::{Context, Result, bail};
use p3_challenger::fs::script::{Fault, Step, Suite};
use p3_challenger::fs::{DomainSeparator, InteractionPattern};
use script_lines::alone::{is_admitted, only};
use script_lines::recording::record;
use script_lines::world::{SeparatorOf, World};
use std::alloc::Global;
use tealmuze_text::entry::Entry;
use tealmuze_text::limits::MOST_OPEN;
use tealmuze_text::line::StepOnLine;
use tealmuze_text::numbers::bytes;
use tealmuze_text::refusal::RefusalShown;
use tealmuze_text::repetition::{Listed, unrolled};

/// What a file calls a step.
#[derive(Clone, Copy, Debug)]
pub struct Name<'a> {
    /// Which kind of step it is.
    pub kind: &'a str,
    /// Its label.
    pub label: &'a str,
}

/// A protocol that a suite plays.
#[derive(Drop)]
pub struct Protocol<'a, S: World> {
    /// What binds a transcript to the protocol.
    pub separator: SeparatorOf<S>,
    /// The steps, in order.
    pub steps: Vec<Step<S>>,
    /// What the file calls each of them.
    pub names: Vec<Name<'a>>,
}

impl<'a, S: World> Protocol<'a, S> {
    /// Reads a protocol. The error says what is wrong and where, or that memory ran out.
    pub fn parse(alloc: Global, file: Entry<'a>) -> Result<Protocol<'a, S>> {
        file.only(&["suite", "name", "version", "instance", "steps"])?;
        let (steps, names) = parse_steps(alloc, file.list("steps")?)?;
        let separator = parse_separator::<S>(alloc, file, steps.as_slice())?;
        Ok(Protocol {
            separator,
            steps,
            names,
        })
    }
}

/// The step of these names on a line.
pub fn step_on_line<'a>(names: &[Name<'a>], step: usize) -> Result<StepOnLine<'a>> {
    let name = names.get(step).context("a step without a name")?;
    Ok(StepOnLine {
        step,
        kind: name.kind,
        label: name.label,
    })
}

/// The refusal that a fault is of the steps of these names, at this byte of the proof if one is known.
pub fn refusal<'a>(
    alloc: Global,
    names: &[Name<'a>],
    fault: &Fault,
    byte: Option<usize>,
) -> Result<RefusalShown<'a>> {
    let error = &fault.error;
    let reason = format!(in alloc; "{error}")?;
    let name = names.get(fault.position).copied();
    Ok(RefusalShown {
        step: fault.position,
        kind: name.map(|name| name.kind),
        label: name.map(|name| name.label),
        byte,
        reason,
    })
}

fn parse_named<'a, S: World>(alloc: Global, entry: Entry<'a>) -> Result<(Step<S>, Name<'a>)> {
    let step = parse_step(alloc, entry)?;
    let name = Name {
        kind: entry.text("type")?,
        label: entry.text("label")?,
    };
    Ok((step, name))
}

// The steps, those that are repeated as many times as they are, and what the file calls each of them.
fn parse_steps<'a, S: World>(
    alloc: Global,
    list: &'a [toml::Value],
) -> Result<(Vec<Step<S>>, Vec<Name<'a>>)> {
    let mut steps = Vec::new(alloc);
    let mut names = Vec::new(alloc);
    let mut open = 0;
    for listed in unrolled(alloc, list)? {
        let Listed { entry, place } = listed;
        let (step, name) = parse_named(alloc, entry).context(place)?;
        open = opened(open, &step).context(place)?;
        steps.push(step)?;
        names.push(name)?;
        check_last(steps.as_slice()).context(place)?;
    }
    Ok((steps, names))
}

// How many containers are open after a step that found so many.
fn opened<S: Suite>(open: usize, step: &Step<S>) -> Result<usize> {
    match step {
        Step::Begin { .. } if open >= MOST_OPEN => bail!("more than {MOST_OPEN} open containers"),
        Step::Begin { .. } => Ok(open.saturating_add(1)),
        Step::End { .. } => Ok(open.saturating_sub(1)),
        _ => Ok(open),
    }
}

// Refuses steps of which the suite does not play the last.
fn check_last<S: Suite>(steps: &[Step<S>]) -> Result<()> {
    let last = &steps[steps.len().saturating_sub(1)..];
    match only(last) {
        Some(step) if is_admitted(last, step) => Ok(()),
        _ => bail!("the suite does not play this step, or not with so many bits"),
    }
}

fn parse_separator<S: World>(
    alloc: Global,
    file: Entry<'_>,
    steps: &[Step<S>],
) -> Result<SeparatorOf<S>> {
    let pattern = record::<S>(alloc, steps)?;
    let mut separator = parse_head::<S>(alloc, file, pattern)?;
    for (place, value) in file.list_or_none("instance")?.iter().enumerate() {
        add_chunk::<S>(alloc, &mut separator, value).context(format_args!("instance[{place}]"))?;
    }
    Ok(separator)
}

// What binds a transcript to the pattern, and to the protocol's version and name.
fn parse_head<S: World>(
    alloc: Global,
    file: Entry<'_>,
    pattern: InteractionPattern,
) -> Result<SeparatorOf<S>> {
    let version = parse_version(file)?;
    let name = file.text("name")?.as_bytes();
    if name.is_empty() || name.len() > 62 {
        bail!("name: expected 1 to 62 bytes");
    }
    Ok(DomainSeparator::new(alloc, version, name, pattern)?)
}

fn parse_version(file: Entry<'_>) -> Result<u8> {
    match u8::try_from(file.number("version")?) {
        Ok(version) => Ok(version),
        Err(_) => bail!("version: expected a number below 256"),
    }
}

// Adds a chunk to the instance's label.
fn add_chunk<S: World>(
    alloc: Global,
    separator: &mut SeparatorOf<S>,
    digits: &toml::Value,
) -> Result<()> {
    let chunk = bytes(alloc, digits)?;
    Ok(separator.instance(chunk.as_slice())?)
}
