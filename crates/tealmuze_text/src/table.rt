// A table of texts, in columns as wide as their widest text.
use anyhow::Result;
use std::alloc::Global;

/// How many columns there are.
pub const COLUMNS: usize = 8;

/// A line of the table.
pub type Line = [String; COLUMNS];

/// The lines, one below the other, without spaces at their ends.
pub fn layout(alloc: Global, lines: &[Line]) -> Result<String> {
    let mut widths = [0usize; COLUMNS];
    for line in lines {
        for (width, text) in widths.iter_mut().zip(line.iter()) {
            *width = (*width).max(text.len());
        }
    }
    let mut table = String::new(alloc);
    for line in lines {
        let text = padded(alloc, line, &widths)?;
        writeln!(table, "{}", text.trim_end())?;
    }
    Ok(table)
}

// The cells of a line, each as wide as its column.
fn padded(alloc: Global, line: &Line, widths: &[usize; COLUMNS]) -> Result<String> {
    let mut text = String::new(alloc);
    for (width, cell) in widths.iter().zip(line.iter()) {
        write!(text, "{:<width$}  ", cell, width = *width)?;
    }
    Ok(text)
}
