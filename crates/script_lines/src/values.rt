// The values of a line, by their numbers.
use anyhow::{Result, bail};
use conformance_tokens::symbol::{element, element_of};
use p3_field::{BasedVectorSpace, PrimeField64};
use std::alloc::Global;

/// The scalars of these numbers.
pub fn scalars<F: PrimeField64>(alloc: Global, tokens: &str) -> Result<Vec<F>> {
    let mut scalars = Vec::new(alloc);
    for token in tokens.split_whitespace() {
        scalars.push(element(token.parse()?)?)?;
    }
    Ok(scalars)
}

/// The elements of the extension of which these numbers are the coefficients, one element after the other.
pub fn extensions<F: PrimeField64, A: BasedVectorSpace<F>>(
    alloc: Global,
    tokens: &str,
) -> Result<Vec<A>> {
    let scalars = scalars::<F>(alloc, tokens)?;
    let mut extensions = Vec::new(alloc);
    let mut coefficients = Vec::new(alloc);
    for scalar in &scalars {
        coefficients.push(*scalar)?;
        if coefficients.len() == A::DIMENSION {
            extensions.push(element_of(coefficients.as_slice())?)?;
            coefficients.clear();
        }
    }
    if !coefficients.is_empty() {
        bail!("no whole element of the extension");
    }
    Ok(extensions)
}

/// The scalar of the one number.
pub fn scalar<F: PrimeField64>(alloc: Global, tokens: &str) -> Result<F> {
    match scalars(alloc, tokens)?.as_slice() {
        &[value] => Ok(value),
        _ => bail!("no one value"),
    }
}

/// The element of the extension of which these numbers are the coefficients.
pub fn extension<F: PrimeField64, A: BasedVectorSpace<F>>(
    alloc: Global,
    tokens: &str,
) -> Result<A> {
    element_of(scalars::<F>(alloc, tokens)?.as_slice())
}
