// What became of a proof, as it is shown.
use crate::json::{Object, ToJson, list, optional};
use crate::line::{Cut, LABEL_BYTES};
use crate::refusal::RefusalShown;
use crate::shown::{SeedLine, Shown};
use crate::table::{COLUMNS, Line, layout};
use anyhow::Result;
use std::alloc::{AllocError, Global};
use std::fmt;

/// What a step did.
#[derive(Drop)]
pub struct StepShown<'a> {
    /// The step, counted from 0.
    pub step: usize,
    /// Which kind of step it is.
    pub kind: &'a str,
    /// Its label.
    pub label: &'a str,
    /// At which byte of the proof it began to read.
    pub offset: usize,
    /// The bytes that it read, in hexadecimal.
    pub read: String,
    /// The value that it received, or that both sides know.
    pub value: Option<Shown>,
    /// What it fed the challenger, in hexadecimal, where the challenger keeps it.
    pub fed: Option<String>,
    /// What it drew.
    pub challenge: Option<Shown>,
}

impl StepShown<'_> {
    fn cells(&self) -> [Cell<'_>; COLUMNS] {
        [
            Cell::Number(self.step),
            Cell::Text(self.kind),
            Cell::Label(self.label),
            Cell::Number(self.offset),
            Cell::Text(self.read.as_str()),
            Cell::Value(&self.value),
            Cell::Digits(&self.fed),
            Cell::Value(&self.challenge),
        ]
    }
}

impl ToJson for StepShown<'_> {
    fn json(&self, alloc: Global) -> Result<String> {
        Object::new(alloc)
            .member("step", &self.step)
            .member("type", &self.kind)
            .member("label", &self.label)
            .member("offset", &self.offset)
            .member("read", &self.read)
            .shown("value", optional(alloc, &self.value))
            .member("fed", &self.fed)
            .shown("challenge", optional(alloc, &self.challenge))
            .close()
    }
}

/// What became of a proof.
#[derive(Drop)]
pub struct ExplainedShown<'a> {
    /// Whether it was accepted.
    pub accepted: bool,
    /// What the separator fed the challenger, in hexadecimal, where the challenger keeps it.
    pub seed: Option<String>,
    /// What the steps did, up to the one that was refused.
    pub steps: Vec<StepShown<'a>>,
    /// Where the proof was refused.
    pub refused: Option<RefusalShown<'a>>,
}

impl ToJson for ExplainedShown<'_> {
    fn json(&self, alloc: Global) -> Result<String> {
        Object::new(alloc)
            .member("accepted", &self.accepted)
            .member("seed", &self.seed)
            .shown("steps", list(alloc, self.steps.as_slice()))
            .shown("refused", optional(alloc, &self.refused))
            .close()
    }
}

// What stands above the columns.
const HEAD: [Cell<'static>; COLUMNS] = [
    Cell::Text("step"),
    Cell::Text("type"),
    Cell::Text("label"),
    Cell::Text("byte"),
    Cell::Text("read"),
    Cell::Text("value"),
    Cell::Text("fed"),
    Cell::Text("challenge"),
];

impl ExplainedShown<'_> {
    /// The seed, a table of the steps, and what the end was, of a proof of so many bytes. Long cells are cut, if they are
    /// not to be whole.
    pub fn text(&self, alloc: Global, len: usize, whole: bool) -> Result<String> {
        let seed = SeedLine { seed: &self.seed };
        let table = self.table(alloc, whole)?;
        let end = self.end(alloc, len)?;
        Ok(format!(in alloc; "{seed}{table}{end}")?)
    }

    fn table(&self, alloc: Global, whole: bool) -> Result<String> {
        let mut lines = Vec::new(alloc);
        lines.push(line_of(alloc, HEAD, whole)?)?;
        for row in &self.steps {
            lines.push(line_of(alloc, row.cells(), whole)?)?;
        }
        layout(alloc, lines.as_slice())
    }

    fn end(&self, alloc: Global, len: usize) -> Result<String> {
        match &self.refused {
            Some(refused) => refused.line(alloc),
            None => Ok(format!(in alloc; "accepted: {len} bytes\n")?),
        }
    }
}

// What a cell of the table shows.
#[derive(Clone, Copy)]
enum Cell<'a> {
    Number(usize),
    Text(&'a str),
    Label(&'a str),
    Digits(&'a Option<String>),
    Value(&'a Option<Shown>),
}

impl fmt::Display for Cell<'_> {
    fn fmt<W: fmt::Write>(&self, f: &mut fmt::Formatter<W>) -> fmt::Result {
        match self {
            Cell::Number(number) => write!(f, "{number}"),
            Cell::Text(text) | Cell::Label(text) => f.write_str(text),
            Cell::Digits(Some(digits)) => f.write_str(digits.as_str()),
            Cell::Value(Some(value)) => write!(f, "{value}"),
            _ => Ok(()),
        }
    }
}

// How many bytes of a cell are shown at most.
const CELL_BYTES: usize = 40;

fn line_of(alloc: Global, cells: [Cell<'_>; COLUMNS], whole: bool) -> Result<Line> {
    let line = cells.try_map(|cell| {
        let most = match cell {
            _ if whole => usize::MAX,
            Cell::Label(_) => LABEL_BYTES,
            _ => CELL_BYTES,
        };
        text(alloc, cell, most)
    });
    Ok(line?)
}

// The text of a cell, of at most so many bytes.
fn text(alloc: Global, cell: Cell<'_>, most: usize) -> Result<String, AllocError> {
    let text = format!(in alloc; "{cell}")?;
    let text = text.as_str();
    format!(in alloc; "{}", Cut { text, most })
}
