// The steps of a file one by one, with those that are repeated.
use crate::entry::Entry;
use crate::limits::{MOST_STEPS, check_count};
use anyhow::{Context, Result, bail};
use std::alloc::Global;
use std::fmt;
use toml::Value;

/// A step of a file.
#[derive(Clone, Copy)]
pub struct Listed<'a> {
    /// Its table.
    pub entry: Entry<'a>,
    /// Where it stands.
    pub place: Place,
}

/// Where a step stands in a file.
#[derive(Clone, Copy)]
pub struct Place {
    // its place in the list of steps
    at: usize,
    // its place in the list there that is repeated, if it stands in one
    inside: Option<usize>,
}

impl fmt::Display for Place {
    fn fmt<W: fmt::Write>(&self, f: &mut fmt::Formatter<W>) -> fmt::Result {
        let at = self.at;
        match self.inside {
            Some(inside) => write!(f, "steps[{at}]: steps[{inside}]"),
            None => write!(f, "steps[{at}]"),
        }
    }
}

/// The steps of a list in order, those that are repeated as many times as they are.
pub fn unrolled<'a>(alloc: Global, list: &'a [Value]) -> Result<Vec<Listed<'a>>> {
    let mut steps = Vec::new(alloc);
    for (at, value) in list.iter().enumerate() {
        let place = Place { at, inside: None };
        add_once_or_more(&mut steps, place, value).context(place)?;
    }
    Ok(steps)
}

/// The key of how many times steps stand.
pub const REPEAT: &str = "repeat";

// Adds a step, or the steps of a table that says how many times they stand.
fn add_once_or_more<'a>(steps: &mut Vec<Listed<'a>>, place: Place, value: &'a Value) -> Result<()> {
    let entry = Entry::of(value)?;
    if entry.has(REPEAT) {
        return add_repeated(steps, place.at, entry);
    }
    add(steps, Listed { entry, place })
}

// Adds the steps of a table that says how many times they stand.
fn add_repeated<'a>(steps: &mut Vec<Listed<'a>>, at: usize, entry: Entry<'a>) -> Result<()> {
    entry.only(&[REPEAT, "steps"])?;
    let times = entry.count(REPEAT)?;
    if times == 0 || times > MOST_STEPS {
        bail!("repeat: expected a number from 1 to {MOST_STEPS}");
    }
    let list = entry.list("steps")?;
    if list.is_empty() {
        bail!("steps: expected a step");
    }
    for _ in 0..times {
        add_all(steps, at, list)?;
    }
    Ok(())
}

// Adds the steps of a list that is repeated.
fn add_all<'a>(steps: &mut Vec<Listed<'a>>, at: usize, list: &'a [Value]) -> Result<()> {
    for (index, value) in list.iter().enumerate() {
        let inside = Some(index);
        add_once(steps, Place { at, inside }, value).context(format_args!("steps[{index}]"))?;
    }
    Ok(())
}

fn add_once<'a>(steps: &mut Vec<Listed<'a>>, place: Place, value: &'a Value) -> Result<()> {
    let entry = Entry::of(value)?;
    if entry.has(REPEAT) {
        bail!("repeat: stands in steps that are repeated");
    }
    add(steps, Listed { entry, place })
}

fn add<'a>(steps: &mut Vec<Listed<'a>>, step: Listed<'a>) -> Result<()> {
    check_count(steps.len())?;
    Ok(steps.push(step)?)
}
