// The encoding of what a verifier has received, by rules of its own: elements by their numbers, the highest byte first, and
// counts likewise.
use anyhow::{Result, bail};
use p3_challenger::fs::script::{Received, Step};
use p3_field::{BasedVectorSpace, PrimeField64};
use script_lines::world::World;
use std::alloc::Global;

// How many bytes or elements a step has.
#[derive(Clone, Copy)]
enum Count {
    // Just so many.
    Fixed(usize),
    // At most so many, and their count stands before them.
    AtMost(usize),
}

/// The bytes of the values that were received at the steps, in order. The error is a value that its step cannot have, or
/// that memory ran out.
pub fn encoded<S: World>(
    alloc: Global,
    steps: &[Step<S>],
    received: &[Received<'_, S>],
) -> Result<Vec<u8>> {
    let mut bytes = Vec::new(alloc);
    let mut values = received.iter();
    for step in steps {
        if let Some(count) = sends(step) {
            match values.next() {
                Some(value) => {
                    push_count(&mut bytes, count, value)?;
                    push_value(alloc, &mut bytes, value)?;
                }
                None => bail!("accepted with a value too few"),
            }
        }
    }
    match values.next() {
        Some(_) => bail!("accepted with a value too many"),
        None => Ok(bytes),
    }
}

// How many there are of what the proof has for a step, if it has anything for it.
fn sends<S: World>(step: &Step<S>) -> Option<Count> {
    match step {
        Step::Salt { len, .. } | Step::Bytes { len, .. } | Step::Hint { len, .. } => {
            Some(Count::Fixed(*len))
        }
        Step::Scalars { n, .. } => Some(Count::Fixed(*n)),
        Step::Scalar { .. } | Step::Extension { .. } | Step::Pow { .. } => Some(Count::Fixed(1)),
        Step::BytesBounded { max, .. } | Step::HintBounded { max, .. } => Some(Count::AtMost(*max)),
        Step::ScalarsBounded { max, .. } => Some(Count::AtMost(*max)),
        _ => None,
    }
}

// Adds the count of the value, where one stands before it.
fn push_count<S: World>(bytes: &mut Vec<u8>, count: Count, value: &Received<'_, S>) -> Result<()> {
    let found = match value {
        Received::Bytes(items) => items.len(),
        Received::Scalars(items) => items.len(),
        _ => 1,
    };
    match count {
        Count::Fixed(n) if found == n => Ok(()),
        Count::AtMost(max) if found <= max => {
            push_number(bytes, found as u64, width_of(max as u64))
        }
        _ => bail!("accepted with more or less than the step has"),
    }
}

fn push_value<S: World>(alloc: Global, bytes: &mut Vec<u8>, value: &Received<'_, S>) -> Result<()> {
    let mut numbers = Vec::new(alloc);
    match value {
        Received::Bytes(items) => bytes.extend_from_slice(*items)?,
        Received::Scalar(scalar) | Received::Witness(scalar) => {
            numbers.push(scalar.as_canonical_u64())?;
        }
        Received::Scalars(scalars) => {
            for scalar in scalars {
                numbers.push(scalar.as_canonical_u64())?;
            }
        }
        Received::Extension(element) => {
            for coefficient in element.as_basis_coefficients_slice() {
                numbers.push(coefficient.as_canonical_u64())?;
            }
        }
    }
    for number in &numbers {
        push_number(bytes, *number, element_width::<S>())?;
    }
    Ok(())
}

/// How many bytes an element has.
pub fn element_width<S: World>() -> usize {
    width_of(S::Field::ORDER_U64)
}

// In how many bytes the number fits.
fn width_of(number: u64) -> usize {
    let bits = 64u32.saturating_sub(number.leading_zeros());
    (bits.div_ceil(8)) as usize
}

fn push_number(bytes: &mut Vec<u8>, number: u64, width: usize) -> Result<()> {
    for byte in number
        .to_be_bytes()
        .iter()
        .skip(8usize.saturating_sub(width))
    {
        bytes.push(*byte)?;
    }
    Ok(())
}
