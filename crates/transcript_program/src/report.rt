//! What is printed of a proof that was accepted.
ghost use Rattle.std.specs.Prelude.{◌≡◌, IfOk, string_bytes};
ghost use Rattle.transcript_program.specs.Report as shown;

use p3_field::{BabyBear, PrimeField32};
use std::alloc::{AllocError, Global};

pub fn lines(
    alloc: Global,
    values: &[BabyBear],
    alpha: &[BabyBear],
    note: &[u8],
    indices: &[usize],
) -> Result<String, AllocError>
    ensures { IfOk result (λ text. string_bytes text ≡ shown.report values.now alpha.now note.now indices.now) }
{
    let values = scalar_items(alloc, values)?;
    let alpha = scalar_items(alloc, alpha)?;
    let note = byte_items(alloc, note)?;
    let indices = number_items(alloc, indices)?;
    format!(in alloc; "accepted\nvalues{values}\nalpha{alpha}\nnote{note}\nindices{indices}\n")
}

// Each number after a space.
fn number_items(alloc: Global, numbers: &[usize]) -> Result<String, AllocError>
    ensures { IfOk result (λ text. string_bytes text ≡ shown.number_items numbers.now) }
{
    let mut text = String::new(alloc);
    for number in numbers {
        text.push_str(format!(in alloc; " {number}")?.as_str())?;
    }
    Ok(text)
}

// Each scalar's number after a space.
fn scalar_items(alloc: Global, scalars: &[BabyBear]) -> Result<String, AllocError>
    ensures { IfOk result (λ text. string_bytes text ≡ shown.scalar_items scalars.now) }
{
    let mut text = String::new(alloc);
    for scalar in scalars {
        let number = scalar.as_canonical_u32();
        text.push_str(format!(in alloc; " {number}")?.as_str())?;
    }
    Ok(text)
}

// The bytes in hexadecimal after a space, if there are any.
fn byte_items(alloc: Global, bytes: &[u8]) -> Result<String, AllocError>
    ensures { IfOk result (λ text. string_bytes text ≡ shown.byte_items bytes.now) }
{
    if bytes.is_empty() {
        return Ok(String::new(alloc));
    }
    let digits = hex::encode(alloc, bytes)?;
    format!(in alloc; " {digits}")
}
