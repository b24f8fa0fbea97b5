//! How numbers and values are written.
ghost use Rattle.std.specs.Prelude.{◌≡◌, ℕ, ◌≤◌, ◌∷◌, ◌++◌, length, map, flat_map, OnOk};
ghost use Rattle.p3_challenger.specs.Scripts.{value_received, challenge_of, values_received, challenges_of};
ghost use Rattle.tealmuze_calls.specs.Forms.{number_bytes, counted_bytes, listed_bytes, scalar_bytes, element_bytes};
ghost use Rattle.tealmuze_calls.specs.Forms.{value_bytes, challenge_bytes};

use p3_challenger::fs::script::{Drawn, Received, Suite};
use p3_field::{BasedVectorSpace, PrimeField64};
use std::alloc::AllocError;

// How many bytes of the text of a reason an answer has, at most.
const LONGEST: usize = 1000;

/// Adds a number.
pub fn put_number(to: &mut Vec<u8>, number: u64) -> Result<(), AllocError>
    ensures { OnOk result (to.new.items ≡ to.old.items ++ number_bytes number) }
{
    to.extend_from_slice(&number.to_le_bytes())
}

/// Adds bytes, after their number.
pub fn put_counted(to: &mut Vec<u8>, bytes: &[u8]) -> Result<(), AllocError>
    ensures { OnOk result (to.new.items ≡ to.old.items ++ counted_bytes bytes.now) }
{
    put_number(to, bytes.len() as u64)?;
    to.extend_from_slice(bytes)
}

/// Adds scalars, after their number.
pub fn put_scalars<F: PrimeField64>(to: &mut Vec<u8>, scalars: &[F]) -> Result<(), AllocError>
    ensures { OnOk result (to.new.items ≡ to.old.items
        ++ listed_bytes (λ x. number_bytes (F.residues.number x)) scalars.now) }
{
    put_number(to, scalars.len() as u64)?;
    put_each(to, scalars)
}

/// Returns the first bytes of the text of a reason, for which each answer has room.
pub fn shortened(text: &[u8]) -> &[u8]
    ensures { length result.now ≤ 1000 }
{
    if text.len() <= LONGEST {
        text
    } else {
        &text[..LONGEST]
    }
}

// Adds scalars.
fn put_each<F: PrimeField64>(to: &mut Vec<u8>, scalars: &[F]) -> Result<(), AllocError>
    ensures { OnOk result (to.new.items ≡ to.old.items
        ++ flat_map (λ x. number_bytes (F.residues.number x)) scalars.now) }
{
    for scalar in scalars {
        put_number(to, scalar.as_canonical_u64())?;
    }
    Ok(())
}

// Adds elements of the extension, after their number.
fn put_elements<F: PrimeField64, E: BasedVectorSpace<F>>(
    to: &mut Vec<u8>,
    elements: &[E],
) -> Result<(), AllocError>
    ensures { OnOk result (to.new.items ≡ to.old.items
        ++ listed_bytes (element_bytes F.residues.number E.coefficients) elements.now) }
{
    put_number(to, elements.len() as u64)?;
    for element in elements {
        put_each(to, element.as_basis_coefficients_slice())?;
    }
    Ok(())
}

// Adds numbers, after how many they are.
fn put_numbers(to: &mut Vec<u8>, numbers: &[usize]) -> Result<(), AllocError>
    ensures { OnOk result (to.new.items ≡ to.old.items ++ listed_bytes number_bytes numbers.now) }
{
    put_number(to, numbers.len() as u64)?;
    for number in numbers {
        put_number(to, *number as u64)?;
    }
    Ok(())
}

/// Adds what was received, after how many values they are.
pub fn put_received<S: Suite>(
    to: &mut Vec<u8>,
    received: &[Received<'_, S>],
) -> Result<(), AllocError>
    ensures { OnOk result (to.new.items ≡ to.old.items
        ++ listed_bytes (value_bytes S.Field.residues.number S.Extension.coefficients)
        (values_received received.now)) }
{
    put_number(to, received.len() as u64)?;
    for value in received {
        put_value(to, value)?;
    }
    Ok(())
}

/// Adds a value.
pub fn put_value<S: Suite>(to: &mut Vec<u8>, value: &Received<'_, S>) -> Result<(), AllocError>
    ensures { OnOk result (to.new.items ≡ to.old.items
        ++ value_bytes S.Field.residues.number S.Extension.coefficients (value_received value.now)) }
{
    match value {
        Received::Bytes(bytes) => {
            to.push(0)?;
            put_counted(to, bytes)
        }
        Received::Scalar(scalar) => {
            to.push(1)?;
            put_number(to, scalar.as_canonical_u64())
        }
        Received::Scalars(scalars) => {
            to.push(2)?;
            put_scalars(to, scalars.as_slice())
        }
        Received::Extension(element) => {
            to.push(3)?;
            put_each(to, element.as_basis_coefficients_slice())
        }
        Received::Witness(scalar) => {
            to.push(4)?;
            put_number(to, scalar.as_canonical_u64())
        }
    }
}

/// Adds what was drawn, after at how many steps.
pub fn put_challenges<S: Suite>(to: &mut Vec<u8>, challenges: &[Drawn<S>]) -> Result<(), AllocError>
    ensures { OnOk result (to.new.items ≡ to.old.items
        ++ listed_bytes (challenge_bytes S.Field.residues.number S.Extension.coefficients)
        (challenges_of challenges.now)) }
{
    put_number(to, challenges.len() as u64)?;
    for drawn in challenges {
        put_challenge(to, drawn)?;
    }
    Ok(())
}

/// Adds what was drawn at a step.
pub fn put_challenge<S: Suite>(to: &mut Vec<u8>, drawn: &Drawn<S>) -> Result<(), AllocError>
    ensures { OnOk result (to.new.items ≡ to.old.items
        ++ challenge_bytes S.Field.residues.number S.Extension.coefficients (challenge_of drawn.now)) }
{
    match drawn {
        Drawn::Scalars(scalars) => {
            to.push(2)?;
            put_scalars(to, scalars.as_slice())
        }
        Drawn::Extensions(elements) => {
            to.push(5)?;
            put_elements(to, elements.as_slice())
        }
        Drawn::Bits(numbers) => {
            to.push(6)?;
            put_numbers(to, numbers.as_slice())
        }
    }
}
