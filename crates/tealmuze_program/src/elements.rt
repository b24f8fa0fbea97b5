// Elements that a file has.
use anyhow::{Context, Result};
use conformance_tokens::symbol::{element, element_of};
use p3_challenger::fs::script::Suite;
use std::alloc::Global;
use tealmuze_text::numbers::{items, number};
use toml::Value;

/// The scalar of a value.
pub fn scalar<S: Suite>(value: &Value) -> Result<S::Field> {
    element(number(value)?)
}

/// The scalars of a list.
pub fn scalars<S: Suite>(alloc: Global, values: &[Value]) -> Result<Vec<S::Field>> {
    let mut scalars = Vec::new(alloc);
    for (at, value) in values.iter().enumerate() {
        scalars.push(scalar::<S>(value).context(format_args!("[{at}]"))?)?;
    }
    Ok(scalars)
}

/// The element of the extension that a list of coefficients is.
pub fn extension<S: Suite>(alloc: Global, value: &Value) -> Result<S::Extension> {
    element_of(scalars::<S>(alloc, items(value)?)?.as_slice())
}

/// The elements of the extension of a list of such lists.
pub fn extensions<S: Suite>(alloc: Global, values: &[Value]) -> Result<Vec<S::Extension>> {
    let mut extensions = Vec::new(alloc);
    for (at, value) in values.iter().enumerate() {
        extensions.push(extension::<S>(alloc, value).context(format_args!("[{at}]"))?)?;
    }
    Ok(extensions)
}
