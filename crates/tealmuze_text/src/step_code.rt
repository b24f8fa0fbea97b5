// The steps of a file as code.
use crate::entry::Entry;
use crate::numbers::{bytes, items, number};
use crate::repetition::REPEAT;
use crate::steps::keys_of;
use crate::suite_code::{ChallengerCode, FieldCode, SuiteCode};
use anyhow::{Context, Result};
use std::alloc::{AllocError, Global};
use std::fmt;
use toml::Value;

// How wide a field is at most that stands on one line with its step.
const FIELD_ON_THE_LINE: usize = 18;

const SIGNATURE: &str = "/// The steps, in order.
pub fn steps(alloc: Global) -> Result<Vec<Step<Protocol>>, AllocError> {
";

// Where a step stands: the space before each of its lines, and what is around it.
struct Place {
    space: &'static str,
    open: &'static str,
    close: &'static str,
}

const LISTED: Place = Place {
    space: "        ",
    open: "",
    close: ",\n",
};

const PUSHED: Place = Place {
    space: "    ",
    open: "steps.push(",
    close: ")?;\n",
};

const PUSHED_IN_A_LOOP: Place = Place {
    space: "        ",
    open: "steps.push(",
    close: ")?;\n",
};

/// Writes the steps that a suite plays.
#[derive(Clone, Copy)]
pub struct StepWriter {
    /// Where memory comes from.
    pub alloc: Global,
    /// The suite.
    pub suite: SuiteCode,
}

impl StepWriter {
    /// Writes the function that makes the steps of a file: an array, a list where their values are on the heap, or one after
    /// another where the table repeats some.
    pub fn write_steps(&self, text: &mut String, file: Entry<'_>) -> Result<()> {
        let steps = file.list("steps")?;
        if steps.is_empty() || any_has(steps, REPEAT)? {
            self.write_pushed(text, steps)
        } else if any_has(steps, "values")? {
            self.write_list(text, steps)
        } else {
            self.write_array(text, steps)
        }
    }

    fn write_array(&self, text: &mut String, steps: &[Value]) -> Result<()> {
        let len = steps.len();
        write!(
            text,
            "/// The steps, in order.\npub fn steps() -> [Step<Protocol>; {len}] {{\n    [\n"
        )?;
        self.write_each(text, steps, &LISTED)?;
        Ok(text.push_str("    ]\n}\n\n")?)
    }

    fn write_list(&self, text: &mut String, steps: &[Value]) -> Result<()> {
        write!(text, "{SIGNATURE}    Ok(vec![in alloc;\n")?;
        self.write_each(text, steps, &LISTED)?;
        Ok(text.push_str("    ]?)\n}\n\n")?)
    }

    fn write_pushed(&self, text: &mut String, steps: &[Value]) -> Result<()> {
        write!(text, "{SIGNATURE}    let mut steps = Vec::new(alloc);\n")?;
        for value in steps {
            self.write_once_or_more(text, Entry::of(value)?)?;
        }
        Ok(text.push_str("    Ok(steps)\n}\n\n")?)
    }

    // Writes a step, or a loop where the table says how many times steps stand.
    fn write_once_or_more(&self, text: &mut String, entry: Entry<'_>) -> Result<()> {
        if !entry.has(REPEAT) {
            return self.write_step(text, entry, &PUSHED);
        }
        writeln!(text, "    for _ in 0..{} {{", entry.count(REPEAT)?)?;
        self.write_each(text, entry.list("steps")?, &PUSHED_IN_A_LOOP)?;
        Ok(text.push_str("    }\n")?)
    }

    fn write_each(&self, text: &mut String, steps: &[Value], place: &Place) -> Result<()> {
        for value in steps {
            self.write_step(text, Entry::of(value)?, place)?;
        }
        Ok(())
    }

    // Writes a step: on one line, if a short label is all that it has.
    fn write_step(&self, text: &mut String, entry: Entry<'_>, place: &Place) -> Result<()> {
        let name = entry.text("type")?;
        let keys = keys_of(name)?;
        let Place { space, open, close } = place;
        write!(text, "{space}{open}Step::{} {{", Camel { name })?;
        if keys.len() == 2 && self.has_short_label(entry)? {
            write!(text, " label: {:?} }}{close}", entry.text("label")?)?;
        } else {
            self.write_fields(text, entry, keys, space)?;
            write!(text, "\n{space}}}{close}")?;
        }
        Ok(())
    }

    fn has_short_label(&self, entry: Entry<'_>) -> Result<bool> {
        let label = entry.text("label")?;
        Ok(format!(in self.alloc; "label: {label:?}")?.len() <= FIELD_ON_THE_LINE)
    }

    // Writes the fields at these keys but the first, which is the step's type.
    fn write_fields(
        &self,
        text: &mut String,
        entry: Entry<'_>,
        keys: &[&'static str],
        space: &str,
    ) -> Result<()> {
        for key in keys.iter().skip(1) {
            write!(text, "\n{space}    {key}: ")?;
            self.write_field(text, entry, *key)?;
            text.push_str(",")?;
        }
        Ok(())
    }

    // Writes what a step has at a key.
    fn write_field(&self, text: &mut String, entry: Entry<'_>, key: &'static str) -> Result<()> {
        match key {
            "label" => write!(text, "{:?}", entry.text(key)?)?,
            "kind" => write!(
                text,
                "Kind::{}",
                Camel {
                    name: entry.text(key)?
                }
            )?,
            "value" => self.write_element(text, entry, entry.value(key)?)?,
            "values" => self.write_elements(text, entry, entry.list(key)?)?,
            _ => write!(text, "{}", entry.number(key)?)?,
        }
        Ok(())
    }

    // Writes the values of a step that has a list of them.
    fn write_elements(&self, text: &mut String, entry: Entry<'_>, values: &[Value]) -> Result<()> {
        if values.is_empty() {
            return Ok(text.push_str("Vec::new(alloc)")?);
        }
        text.push_str("vec![in alloc; ")?;
        for (at, value) in values.iter().enumerate() {
            text.push_str(comma(at))?;
            self.write_element(text, entry, value)?;
        }
        Ok(text.push_str("]?")?)
    }

    // Writes a value that both sides of a step know.
    fn write_element(&self, text: &mut String, entry: Entry<'_>, value: &Value) -> Result<()> {
        match entry.text("type")? {
            "public_scalar" | "public_scalars" | "public_scalars_bounded" => {
                self.write_scalar(text, "", value)
            }
            "opaque" => self.write_opaque(text, value),
            _ => self.write_extension(text, value),
        }
    }

    fn write_scalar(&self, text: &mut String, before: &str, value: &Value) -> Result<()> {
        let (field, number) = (self.suite.field.name(), number(value)?);
        Ok(write!(text, "{before}{field}::from_u64({number})")?)
    }

    fn write_extension(&self, text: &mut String, coefficients: &Value) -> Result<()> {
        let (open, close) = self.suite.field.around_coefficients();
        text.push_str(open)?;
        for (at, coefficient) in items(coefficients)?.iter().enumerate() {
            self.write_scalar(text, comma(at), coefficient)?;
        }
        Ok(text.push_str(close)?)
    }

    // Writes the value that the challenger observes in its own way.
    fn write_opaque(&self, text: &mut String, value: &Value) -> Result<()> {
        match (self.suite.challenger, self.suite.field) {
            (ChallengerCode::Bytes(_), _) => self.write_bytes(text, "", value, ""),
            (ChallengerCode::Elements(_), FieldCode::BabyBear) => {
                self.write_bytes(text, "Hash::from(", value, ")")
            }
            _ => Ok(self.write_digest(text, value.as_str().context("expected a text")?)?),
        }
    }

    // Writes the bytes that a text says, with this code around them.
    fn write_bytes(&self, text: &mut String, open: &str, value: &Value, close: &str) -> Result<()> {
        let bytes = bytes(self.alloc, value)?;
        Ok(write!(text, "{open}{bytes:?}{close}")?)
    }

    // Writes a digest of elements or words, whose numbers are these.
    fn write_digest(&self, text: &mut String, numbers: &str) -> Result<(), AllocError> {
        let (open, close) = self.suite.around_numbers();
        text.push_str("Hash::from([")?;
        for (at, number) in numbers.split_whitespace().enumerate() {
            let before = comma(at);
            write!(text, "{before}{open}{number}{close}")?;
        }
        text.push_str("])")
    }
}

// What stands before an element of a list.
fn comma(at: usize) -> &'static str {
    if at == 0 { "" } else { ", " }
}

// Whether any of these steps has this key.
fn any_has(steps: &[Value], key: &'static str) -> Result<bool> {
    for value in steps {
        if Entry::of(value)?.has(key) {
            return Ok(true);
        }
    }
    Ok(false)
}

// A name of words with low lines between, as Rust names a type.
#[derive(Clone, Copy)]
struct Camel<'a> {
    name: &'a str,
}

impl fmt::Display for Camel<'_> {
    fn fmt<W: fmt::Write>(&self, f: &mut fmt::Formatter<W>) -> fmt::Result {
        let mut begins = true;
        for letter in self.name.chars() {
            let shown = if begins {
                letter.to_ascii_uppercase()
            } else {
                letter
            };
            begins = letter == '_';
            if !begins {
                f.write_char(shown)?;
            }
        }
        Ok(())
    }
}
