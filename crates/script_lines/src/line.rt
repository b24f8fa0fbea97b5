// One line of a file: a script that both sides play, and what is to be answered.
use anyhow::{Context, Result, bail};
use std::alloc::Global;

/// How much an answer tells.
#[derive(Clone, Copy, PartialEq, Eq)]
pub enum Form {
    /// `run`: how both sides end.
    Short,
    /// `play`: also what the verifier received, and what a refused step leaves.
    Long,
}

/// A script, as the text of it, and the answer to it.
#[derive(Drop)]
pub struct Line<'a> {
    /// How much the answer tells.
    pub form: Form,
    /// The token of the world.
    pub world: &'a str,
    /// The version and the name of the protocol.
    pub version: u8,
    pub name: &'a str,
    /// The chunks of the instance's label.
    pub chunks: Vec<Vec<u8>>,
    /// The steps, in order, each with what the prover is handed for it.
    pub script: &'a str,
    /// The steps of the pattern, where they are others.
    pub pattern: Option<&'a str>,
    /// What is to be answered.
    pub answer: &'a str,
}

impl<'a> Line<'a> {
    /// Reads a line `run WORLD VERSION NAME [CHUNK..] | STEPS | ANSWER`. The error says what is no such line, or that
    /// memory ran out.
    pub fn parse(alloc: Global, text: &'a str) -> Result<Line<'a>> {
        let (spec, rest) = text.split_once(" | ").context("no steps")?;
        let (script, rest) = rest.split_once(" | ").context("no answer")?;
        let (pattern, answer) = match rest.strip_prefix("pattern ") {
            Some(rest) => {
                let (pattern, answer) = rest.split_once(" | ").context("no answer")?;
                (Some(pattern), answer)
            }
            None => (None, rest),
        };
        let mut tokens = spec.split_whitespace();
        let form = match tokens.next() {
            Some("run") => Form::Short,
            Some("play") => Form::Long,
            _ => bail!("neither run nor play"),
        };
        let world = tokens.next().context("no world")?;
        let version = tokens.next().context("no version")?.parse()?;
        let name = tokens.next().context("no name")?;
        let mut chunks = Vec::new(alloc);
        for token in tokens {
            chunks.push(hex::decode(alloc, token)?)?;
        }
        Ok(Line {
            form,
            world,
            version,
            name,
            chunks,
            script,
            pattern,
            answer,
        })
    }
}
