// The tokens of a call.
use anyhow::{Context, Result, bail};
use std::alloc::Global;

/// The name of a call, and the tokens after it.
pub fn split_name(text: &str) -> (&str, &str) {
    text.split_once(' ').unwrap_or((text, ""))
}

/// What a table has for a name.
pub fn look_up<T: Copy>(table: &[(&str, T)], name: &str) -> Result<T> {
    for (known, value) in table {
        if *known == name {
            return Ok(*value);
        }
    }
    bail!("an unknown name")
}

/// The first token, and those after it.
pub fn split_first(tokens: &str) -> Result<(&str, &str)> {
    tokens.split_once(' ').context("too few tokens")
}

/// Two numbers with a space between.
pub fn parse_pair(tokens: &str) -> Result<(u64, u64)> {
    let (first, second) = split_first(tokens)?;
    Ok((first.parse()?, second.parse()?))
}

/// Rows of numbers, with strokes between.
pub fn parse_rows(alloc: Global, text: &str) -> Result<Vec<Vec<u64>>> {
    let mut rows = Vec::new(alloc);
    for row in text.split('/') {
        rows.push(parse_row(alloc, row)?)?;
    }
    Ok(rows)
}

/// Numbers with spaces between.
pub fn parse_row(alloc: Global, text: &str) -> Result<Vec<u64>> {
    let mut row = Vec::new(alloc);
    for token in text.split_whitespace() {
        row.push(token.parse()?)?;
    }
    Ok(row)
}
