use anyhow::{Context, Result, bail};
use std::alloc::Global;

/// One line of a file: what the calls are made on, and the calls with the answer to each.
#[derive(Drop)]
pub struct Line<'a> {
    /// What the calls are made on.
    pub spec: &'a str,
    /// The calls, in order, each with its answer.
    pub steps: Vec<Step<'a>>,
}

/// A call, and what is to be answered.
#[derive(Clone, Copy)]
pub struct Step<'a> {
    pub call: &'a str,
    pub answer: &'a str,
}

impl<'a> Line<'a> {
    /// Reads a line `SPEC | CALLS | ANSWERS`. The error says what is no such line, or that memory ran out.
    pub fn parse(alloc: Global, text: &'a str) -> Result<Line<'a>> {
        let (spec, rest) = text.split_once(" | ").context("no calls")?;
        let (calls, answers) = rest.split_once(" | ").context("no answers")?;
        let mut steps = Vec::new(alloc);
        let mut answers = answers.split(" ; ");
        for call in calls.split(" ; ") {
            let answer = answers.next().context("fewer answers than calls")?;
            steps.push(Step { call, answer })?;
        }
        if answers.next().is_some() {
            bail!("more answers than calls");
        }
        Ok(Line { spec, steps })
    }
}
