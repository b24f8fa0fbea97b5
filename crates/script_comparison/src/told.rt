// How a file writes what a side answers.
use anyhow::Result;
use p3_challenger::fs::TranscriptError;
use p3_challenger::fs::script::{Drawn, Fault, Received};
use p3_field::{BasedVectorSpace, PrimeField64};
use script_lines::world::World;
use std::alloc::Global;

/// What a side answers, as a text, and what more can be told of it: what was received, or what a refused step leaves.
#[derive(Drop)]
pub struct Told {
    pub text: String,
    pub more: String,
}

impl Told {
    /// The answer, with nothing more.
    pub fn plain(alloc: Global, text: String) -> Told {
        Told {
            text,
            more: String::new(alloc),
        }
    }

    /// Whether both say the same, as far as both tell it.
    pub fn agrees(&self, other: &Told) -> bool {
        self.text == other.text
            && (self.more.is_empty() || other.more.is_empty() || self.more == other.more)
    }
}

/// `refused POSITION REASON`, where the reason is that of a proof's shape, or the text of another error.
pub fn refused(alloc: Global, fault: &Fault) -> Result<String> {
    let position = fault.position;
    match &fault.error {
        TranscriptError::BadProofShape { reason } => {
            Ok(format!(in alloc; "refused {position} {reason}")?)
        }
        error => Ok(format!(in alloc; "refused {position} {error}")?),
    }
}

/// Adds the numbers that were drawn, with spaces between; those of one element's coefficients with commas.
pub fn push_drawn<S: World>(text: &mut String, challenges: &[Drawn<S>]) -> Result<()> {
    let start = text.len();
    for challenge in challenges {
        match challenge {
            Drawn::Scalars(elements) => push_scalars::<S>(text, start, elements.as_slice())?,
            Drawn::Extensions(elements) => {
                for element in elements {
                    push_extension::<S>(text, start, element)?;
                }
            }
            Drawn::Bits(bits) => {
                for number in bits {
                    push_word(text, start, ' ', *number as u64)?;
                }
            }
        }
    }
    Ok(())
}

// Adds the coefficients of an element, with commas between.
fn push_extension<S: World>(text: &mut String, start: usize, element: &S::Extension) -> Result<()> {
    let mut separator = ' ';
    for coefficient in element.as_basis_coefficients_slice() {
        push_word(text, start, separator, coefficient.as_canonical_u64())?;
        separator = ',';
    }
    Ok(())
}

// Adds the numbers of scalars, with spaces between.
fn push_scalars<S: World>(text: &mut String, start: usize, scalars: &[S::Field]) -> Result<()> {
    for scalar in scalars {
        push_word(text, start, ' ', scalar.as_canonical_u64())?;
    }
    Ok(())
}

// Adds a number, after this letter where it is not the first of those that begin at the start.
fn push_word(text: &mut String, start: usize, separator: char, number: u64) -> Result<()> {
    if text.len() > start {
        text.push(separator)?;
    }
    write!(text, "{number}")?;
    Ok(())
}

/// Adds the numbers of scalars, with spaces between.
pub fn push_numbers<S: World>(text: &mut String, scalars: &[S::Field]) -> Result<()> {
    let start = text.len();
    push_scalars::<S>(text, start, scalars)
}

/// Adds bytes in hexadecimal.
pub fn push_bytes(alloc: Global, text: &mut String, bytes: &[u8]) -> Result<()> {
    text.push_str(hex::encode(alloc, bytes)?.as_str())?;
    Ok(())
}

/// ` ; received VALUES`, with strokes between: numbers, or bytes in hexadecimal after `0x`.
pub fn received<S: World>(alloc: Global, values: &[Received<'_, S>]) -> Result<String> {
    let mut text = String::from_str(alloc, " ; received")?;
    for (i, value) in values.iter().enumerate() {
        text.push_str(if i == 0 { " " } else { " / " })?;
        push_value(alloc, &mut text, value)?;
    }
    Ok(text)
}

fn push_value<S: World>(alloc: Global, text: &mut String, value: &Received<'_, S>) -> Result<()> {
    match value {
        Received::Bytes(bytes) => {
            text.push_str("0x")?;
            push_bytes(alloc, text, *bytes)
        }
        Received::Scalar(scalar) | Received::Witness(scalar) => {
            push_numbers::<S>(text, &[*scalar])
        }
        Received::Scalars(scalars) => push_numbers::<S>(text, scalars.as_slice()),
        Received::Extension(element) => {
            let start = text.len();
            push_extension::<S>(text, start, element)
        }
    }
}
