// Texts of files as lines have them.
use std::fmt;

/// A text on a line: a character that is not printed, such as a line end, stands as Rust escapes it, as `\n` or `\u{1b}`.
#[derive(Clone, Copy)]
pub struct OneLine<'a> {
    /// The text.
    pub text: &'a str,
}

impl fmt::Display for OneLine<'_> {
    fn fmt<W: fmt::Write>(&self, f: &mut fmt::Formatter<W>) -> fmt::Result {
        let mut is_escape = false;
        for letter in self.text.escape_debug() {
            // What Rust escapes too stands as it is: a quotation mark and a backslash.
            let is_mark = letter == '"' || letter == '\'' || letter == '\\';
            if is_escape && !is_mark {
                f.write_char('\\')?;
            }
            is_escape = letter == '\\' && !is_escape;
            if !is_escape {
                f.write_char(letter)?;
            }
        }
        Ok(())
    }
}

/// A text on a line, of which no more than so many bytes are shown: dots stand in place of the rest.
#[derive(Clone, Copy)]
pub struct Cut<'a> {
    /// The text.
    pub text: &'a str,
    /// How many of its bytes are shown at most.
    pub most: usize,
}

impl fmt::Display for Cut<'_> {
    fn fmt<W: fmt::Write>(&self, f: &mut fmt::Formatter<W>) -> fmt::Result {
        let end = self.text.floor_char_boundary(self.most);
        let text = &self.text[..end];
        let dots = if end < self.text.len() { "..." } else { "" };
        write!(f, "{}{dots}", OneLine { text })
    }
}

/// How many bytes of a label are shown at most.
pub const LABEL_BYTES: usize = 60;

/// A step on a line: its number, and what the file calls it.
#[derive(Clone, Copy)]
pub struct StepOnLine<'a> {
    /// The step, counted from 0.
    pub step: usize,
    /// Which kind of step it is.
    pub kind: &'a str,
    /// Its label.
    pub label: &'a str,
}

impl fmt::Display for StepOnLine<'_> {
    fn fmt<W: fmt::Write>(&self, f: &mut fmt::Formatter<W>) -> fmt::Result {
        let (step, kind) = (self.step, self.kind);
        let label = Cut {
            text: self.label,
            most: LABEL_BYTES,
        };
        write!(f, "step {step} ({kind} `{label}`)")
    }
}
