// Values as they are shown, in a table and in JSON.
use crate::json::ToJson;
use anyhow::Result;
use std::alloc::Global;
use std::fmt;

/// A value that is sent, observed or drawn.
#[derive(Drop)]
pub enum Shown {
    /// Bytes, in hexadecimal.
    Bytes(String),
    /// A scalar by its canonical number.
    Number(u64),
    /// Scalars, or the numbers of bits that were drawn.
    Numbers(Vec<u64>),
    /// Elements of the extension, each by the numbers of its coefficients.
    Elements(Vec<Vec<u64>>),
}

impl fmt::Display for Shown {
    fn fmt<W: fmt::Write>(&self, f: &mut fmt::Formatter<W>) -> fmt::Result {
        match self {
            Shown::Bytes(digits) => f.write_str(digits.as_str()),
            Shown::Number(number) => write!(f, "{number}"),
            Shown::Numbers(numbers) => write_numbers(f, ' ', numbers.as_slice()),
            Shown::Elements(elements) => write_elements(f, elements.as_slice()),
        }
    }
}

// Elements of the extension with spaces between.
fn write_elements<W: fmt::Write>(f: &mut fmt::Formatter<W>, elements: &[Vec<u64>]) -> fmt::Result {
    for (at, element) in elements.iter().enumerate() {
        if at > 0 {
            f.write_char(' ')?;
        }
        write_numbers(f, ',', element.as_slice())?;
    }
    Ok(())
}

// Numbers with this letter between.
fn write_numbers<W: fmt::Write>(
    f: &mut fmt::Formatter<W>,
    between: char,
    numbers: &[u64],
) -> fmt::Result {
    for (at, number) in numbers.iter().enumerate() {
        if at > 0 {
            f.write_char(between)?;
        }
        write!(f, "{number}")?;
    }
    Ok(())
}

impl ToJson for Shown {
    fn json(&self, alloc: Global) -> Result<String> {
        match self {
            Shown::Bytes(digits) => Ok(serde_json::to_string(alloc, digits)?),
            Shown::Number(number) => Ok(serde_json::to_string(alloc, number)?),
            Shown::Numbers(numbers) => Ok(serde_json::to_string(alloc, numbers)?),
            Shown::Elements(elements) => Ok(serde_json::to_string(alloc, elements)?),
        }
    }
}

/// Values, each on a line after this word.
#[derive(Clone, Copy)]
pub struct Lines<'a> {
    /// What stands before each.
    pub word: &'static str,
    /// The values.
    pub values: &'a [Shown],
}

impl fmt::Display for Lines<'_> {
    fn fmt<W: fmt::Write>(&self, f: &mut fmt::Formatter<W>) -> fmt::Result {
        let word = self.word;
        for value in self.values {
            writeln!(f, "{word} {value}")?;
        }
        Ok(())
    }
}

/// The line of a seed in hexadecimal, where there is one.
#[derive(Clone, Copy)]
pub struct SeedLine<'a> {
    /// The seed.
    pub seed: &'a Option<String>,
}

impl fmt::Display for SeedLine<'_> {
    fn fmt<W: fmt::Write>(&self, f: &mut fmt::Formatter<W>) -> fmt::Result {
        match self.seed {
            Some(seed) => writeln!(f, "seed {seed}"),
            None => Ok(()),
        }
    }
}
