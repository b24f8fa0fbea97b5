// Values of a suite as they are shown.
use anyhow::Result;
use p3_challenger::fs::script::{Drawn, Received, Step, Suite};
use p3_field::{BasedVectorSpace, PrimeField64};
use std::alloc::Global;
use tealmuze_text::shown::Shown;

/// The canonical numbers of scalars.
pub fn numbers<S: Suite>(alloc: Global, scalars: &[S::Field]) -> Result<Vec<u64>> {
    let mut numbers = Vec::new(alloc);
    for scalar in scalars {
        numbers.push(scalar.as_canonical_u64())?;
    }
    Ok(numbers)
}

fn elements<S: Suite>(alloc: Global, extensions: &[S::Extension]) -> Result<Vec<Vec<u64>>> {
    let mut elements = Vec::new(alloc);
    for extension in extensions {
        elements.push(numbers::<S>(alloc, extension.as_basis_coefficients_slice())?)?;
    }
    Ok(elements)
}

/// Shows what a verifier received.
pub fn received<S: Suite>(alloc: Global, value: &Received<'_, S>) -> Result<Shown> {
    match value {
        Received::Bytes(bytes) => Ok(Shown::Bytes(hex::encode(alloc, *bytes)?)),
        Received::Scalar(scalar) | Received::Witness(scalar) => {
            Ok(Shown::Number(scalar.as_canonical_u64()))
        }
        Received::Scalars(scalars) => Ok(Shown::Numbers(numbers::<S>(alloc, scalars.as_slice())?)),
        Received::Extension(element) => {
            let coefficients = element.as_basis_coefficients_slice();
            Ok(Shown::Numbers(numbers::<S>(alloc, coefficients)?))
        }
    }
}

/// Shows what both sides know at a step, if it has a value of that kind.
pub fn known<S: Suite>(alloc: Global, step: &Step<S>) -> Result<Option<Shown>> {
    match step {
        Step::PublicScalar { value, .. } => Ok(Some(Shown::Number(value.as_canonical_u64()))),
        Step::PublicScalars { values, .. } | Step::PublicScalarsBounded { values, .. } => {
            Ok(Some(Shown::Numbers(numbers::<S>(alloc, values.as_slice())?)))
        }
        Step::ObserveExtension { value, .. } => {
            let coefficients = value.as_basis_coefficients_slice();
            Ok(Some(Shown::Numbers(numbers::<S>(alloc, coefficients)?)))
        }
        Step::ObserveExtensions { values, .. } | Step::ObserveExtensionsBounded { values, .. } => {
            Ok(Some(Shown::Elements(elements::<S>(alloc, values.as_slice())?)))
        }
        _ => Ok(None),
    }
}

/// Shows what was drawn.
pub fn drawn<S: Suite>(alloc: Global, drawn: &Drawn<S>) -> Result<Shown> {
    match drawn {
        Drawn::Scalars(scalars) => Ok(Shown::Numbers(numbers::<S>(alloc, scalars.as_slice())?)),
        Drawn::Extensions(extensions) => {
            Ok(Shown::Elements(elements::<S>(alloc, extensions.as_slice())?))
        }
        Drawn::Bits(bits) => {
            let mut numbers = Vec::new(alloc);
            for number in bits {
                numbers.push(*number as u64)?;
            }
            Ok(Shown::Numbers(numbers))
        }
    }
}

/// Shows all that a verifier received.
pub fn all_received<S: Suite>(alloc: Global, values: &[Received<'_, S>]) -> Result<Vec<Shown>> {
    let mut shown = Vec::new(alloc);
    for value in values {
        shown.push(received::<S>(alloc, value)?)?;
    }
    Ok(shown)
}

/// Shows all that was drawn.
pub fn all_drawn<S: Suite>(alloc: Global, challenges: &[Drawn<S>]) -> Result<Vec<Shown>> {
    let mut shown = Vec::new(alloc);
    for values in challenges {
        shown.push(drawn::<S>(alloc, values)?)?;
    }
    Ok(shown)
}
