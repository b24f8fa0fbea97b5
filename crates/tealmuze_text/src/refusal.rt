// Where values or a proof are refused, and why.
use crate::json::{Object, ToJson};
use crate::line::{OneLine, StepOnLine};
use anyhow::Result;
use std::alloc::Global;
use std::fmt;

/// The step at which values or a proof are refused, and why.
#[derive(Drop)]
pub struct RefusalShown<'a> {
    /// The step, counted from 0.
    pub step: usize,
    /// Which kind of step it is; none at the end.
    pub kind: Option<&'a str>,
    /// Its label; none at the end.
    pub label: Option<&'a str>,
    /// The byte of the proof, if it is known.
    pub byte: Option<usize>,
    /// Why.
    pub reason: String,
}

impl RefusalShown<'_> {
    /// The refusal as a line of text.
    pub fn line(&self, alloc: Global) -> Result<String> {
        Ok(format!(in alloc; "refused at {self}\n")?)
    }
}

impl fmt::Display for RefusalShown<'_> {
    fn fmt<W: fmt::Write>(&self, f: &mut fmt::Formatter<W>) -> fmt::Result {
        let step = self.step;
        match (self.kind, self.label) {
            (Some(kind), Some(label)) => write!(f, "{}", StepOnLine { step, kind, label })?,
            _ => f.write_str("the end")?,
        }
        if let Some(byte) = self.byte {
            write!(f, ", byte {byte}")?;
        }
        let text = self.reason.as_str();
        write!(f, ": {}", OneLine { text })
    }
}

impl ToJson for RefusalShown<'_> {
    fn json(&self, alloc: Global) -> Result<String> {
        Object::new(alloc)
            .member("step", &self.step)
            .member("type", &self.kind)
            .member("label", &self.label)
            .member("byte", &self.byte)
            .member("reason", &self.reason)
            .close()
    }
}
