// The script of a line, in a world.
use crate::change::Change;
use crate::line::Line;
use crate::recording::record;
use crate::steps::{count_of, parse_sent, parse_unhanded, parse_value, step_sent};
use crate::values::scalars;
use crate::words::{Entry, Part, Sending, Word, part_of};
use crate::world::{SeparatorOf, World};
use anyhow::{Result, bail};
use conformance_tokens::tokens::split_name;
use p3_challenger::fs::DomainSeparator;
use p3_challenger::fs::script::{Sent, Step, Suite};
use std::alloc::Global;

// How many scalars are drawn after the steps, where a line does not say it.
const NEXT: usize = 2;

/// The steps of a script, and what the prover is handed for them.
#[derive(Drop)]
pub struct Steps<S: Suite> {
    /// The steps, in order.
    pub steps: Vec<Step<S>>,
    /// The values, in the order of their steps.
    pub sent: Vec<Sent<S>>,
    // How many values there are before each step.
    before: Vec<usize>,
    /// How many scalars the challenger draws after them, to tell what became of it.
    pub next: usize,
}

/// What is played.
#[derive(Drop)]
pub struct Script<S: Suite> {
    /// The steps that are played.
    pub played: Steps<S>,
    /// Those of the pattern, where they are others.
    pub pattern: Option<Steps<S>>,
    /// What becomes of the proof before it is read.
    pub change: Change,
    /// The witnesses that the verifier's caller carries, where they are others than the prover's.
    pub carried: Option<Vec<S::Field>>,
}

impl<S: World> Steps<S> {
    // Reads steps.
    fn parse(alloc: Global, text: &str) -> Result<Steps<S>> {
        let mut steps = Steps::new(alloc);
        steps.push_all(alloc, text)?;
        Ok(steps)
    }

    fn push_all(&mut self, alloc: Global, text: &str) -> Result<()> {
        for text in text.split(" ; ") {
            self.push(alloc, text)?;
        }
        Ok(())
    }

    // Adds a step, and what the prover is handed for it.
    fn push(&mut self, alloc: Global, text: &str) -> Result<()> {
        self.before.push(self.sent.len())?;
        let entry = Entry::parse(text)?;
        match entry.word {
            Word::Sending(sending) if !entry.is_unhanded => self.push_sent(alloc, &entry, sending),
            _ => {
                self.steps.push(parse_unhanded(alloc, &entry)?)?;
                Ok(())
            }
        }
    }
}

impl<S: Suite> Steps<S> {
    fn new(alloc: Global) -> Steps<S> {
        Steps {
            steps: Vec::new(alloc),
            sent: Vec::new(alloc),
            before: Vec::new(alloc),
            next: NEXT,
        }
    }

    fn push_sent(&mut self, alloc: Global, entry: &Entry<'_>, sending: Sending) -> Result<()> {
        let value = parse_sent(alloc, sending, entry.rest)?;
        let count = count_of(&value);
        self.sent.push(value)?;
        self.steps.push(step_sent(entry, sending, count))?;
        Ok(())
    }

    // One value more for the prover.
    fn hand(&mut self, alloc: Global, tokens: &str) -> Result<()> {
        self.sent.push(parse_value(alloc, tokens)?)?;
        Ok(())
    }

    /// The values that the prover is handed for the step at this place: none, or one.
    pub fn handed(&self, place: usize) -> &[Sent<S>] {
        let len = self.sent.len();
        let begin = value_or(self.before.get(place), len);
        let end = value_or(self.before.get(place.saturating_add(1)), len);
        self.sent.as_slice().get(begin..end).unwrap_or(&[])
    }
}

fn value_or(value: Option<&usize>, other: usize) -> usize {
    match value {
        Some(value) => *value,
        None => other,
    }
}

impl<S: World> Script<S> {
    /// Reads the script of a line. The error says what is none, or that memory ran out.
    pub fn parse(alloc: Global, line: &Line<'_>) -> Result<Script<S>> {
        let mut script = Script::new(alloc);
        script.read_all(alloc, line.script)?;
        if let Some(steps) = line.pattern {
            script.read_pattern(alloc, steps)?;
        }
        Ok(script)
    }

    fn read_all(&mut self, alloc: Global, text: &str) -> Result<()> {
        for text in text.split(" ; ") {
            self.read(alloc, text)?;
        }
        Ok(())
    }

    fn read_pattern(&mut self, alloc: Global, text: &str) -> Result<()> {
        self.pattern = Some(Steps::parse(alloc, text)?);
        Ok(())
    }

    // Reads a step, or what may stand after the steps.
    fn read(&mut self, alloc: Global, text: &str) -> Result<()> {
        let (name, tokens) = split_name(text);
        match part_of(name) {
            Part::Nothing => {}
            Part::Change => self.change = Change::parse(alloc, name, tokens)?,
            Part::Carried => self.carried = Some(scalars(alloc, tokens)?),
            Part::Next => self.played.next = tokens.parse()?,
            Part::Handed => self.played.hand(alloc, tokens)?,
            Part::Step => self.played.push(alloc, text)?,
        }
        Ok(())
    }
}

impl<S: Suite> Script<S> {
    fn new(alloc: Global) -> Script<S> {
        Script {
            played: Steps::new(alloc),
            pattern: None,
            change: Change::Nothing,
            carried: None,
        }
    }

    /// The separator of the line, with the pattern of the script or the one that the line has for it.
    pub fn separator(&self, alloc: Global, line: &Line<'_>) -> Result<SeparatorOf<S>> {
        let name = line.name.as_bytes();
        if name.is_empty() || name.len() > 62 {
            bail!("no name of a protocol");
        }
        let steps = match &self.pattern {
            Some(pattern) => pattern.steps.as_slice(),
            None => self.played.steps.as_slice(),
        };
        let pattern = record::<S>(alloc, steps)?;
        let mut separator = DomainSeparator::new(alloc, line.version, name, pattern)?;
        for chunk in &line.chunks {
            separator.instance(chunk.as_slice())?;
        }
        Ok(separator)
    }
}
