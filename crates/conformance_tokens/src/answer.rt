// How a file writes what a call answers.
use anyhow::Result;
use std::alloc::Global;
use std::fmt::Display;

/// The answer of a call without one.
pub fn nothing(alloc: Global) -> Result<String> {
    Ok(String::from_str(alloc, "-")?)
}

/// Numbers with spaces between, `()` for none.
pub fn numbers(alloc: Global, numbers: &[u64]) -> Result<String> {
    if numbers.is_empty() {
        return Ok(String::from_str(alloc, "()")?);
    }
    let mut text = String::new(alloc);
    for number in numbers {
        if !text.is_empty() {
            text.push(' ')?;
        }
        write!(text, "{number}")?;
    }
    Ok(text)
}

/// Rows of numbers, with bars between.
pub fn bars(alloc: Global, rows: &[&[u64]]) -> Result<String> {
    let mut text = String::new(alloc);
    for row in rows {
        if !text.is_empty() {
            text.push_str(" | ")?;
        }
        text.push_str(numbers(alloc, row)?.as_str())?;
    }
    Ok(text)
}

/// A text on one line: each newline is written `\n`.
pub fn one_line(alloc: Global, text: &str) -> Result<String> {
    let mut line = String::new(alloc);
    for letter in text.chars() {
        match letter {
            '\n' => line.push_str("\\n")?,
            _ => line.push(letter)?,
        }
    }
    Ok(line)
}

/// `ok`, or the text of the error.
pub fn verdict<T: Drop, E: Display + Drop>(alloc: Global, outcome: Result<T, E>) -> Result<String> {
    match outcome {
        Ok(_) => Ok(String::from_str(alloc, "ok")?),
        Err(error) => one_line(alloc, error.to_string(alloc)?.as_str()),
    }
}
