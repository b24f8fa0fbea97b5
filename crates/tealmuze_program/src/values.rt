// What a prover is handed, as a file has it.
use crate::elements::{extension, scalar, scalars};
use anyhow::{Context, Result, bail};
use p3_challenger::fs::script::{Sent, Step, Suite};
use p3_script::{Standing, standing_of};
use std::alloc::Global;
use tealmuze_text::numbers::{bytes, items};
use toml::Value;

/// The values that steps are sent.
#[derive(Drop)]
pub struct Values<S: Suite> {
    /// They, in order.
    pub sent: Vec<Sent<S>>,
    /// The first step that sends a value and has none.
    pub missing: Option<usize>,
}

/// Reads the values of the steps that send one, in order, as many as there are. The error says what is wrong and where,
/// or that memory ran out.
pub fn parse_values<S: Suite>(
    alloc: Global,
    steps: &[Step<S>],
    list: &[Value],
) -> Result<Values<S>> {
    let mut sent = Vec::new(alloc);
    let mut values = list.iter();
    for (place, step) in steps.iter().enumerate() {
        if matches!(standing_of(step), Standing::Sent) {
            let number = sent.len();
            let Some(value) = values.next() else {
                return Ok(Values {
                    sent,
                    missing: Some(place),
                });
            };
            let value = parse_value(alloc, step, value).context(format_args!(
                "values[{number}], of step {place}"
            ))?;
            sent.push(value)?;
        }
    }
    if values.next().is_some() {
        let number = sent.len();
        bail!("values[{number}]: no step is left that sends it");
    }
    Ok(Values {
        sent,
        missing: None,
    })
}

fn parse_value<S: Suite>(alloc: Global, step: &Step<S>, value: &Value) -> Result<Sent<S>> {
    match step {
        Step::Scalar { .. } => Ok(Sent::Scalar(scalar::<S>(value)?)),
        Step::Scalars { .. } | Step::ScalarsBounded { .. } => {
            let values = scalars::<S>(alloc, items(value)?)?;
            check_len(step, values.len())?;
            Ok(Sent::Scalars(values))
        }
        Step::Extension { .. } => Ok(Sent::Extension(extension::<S>(alloc, value)?)),
        _ => {
            let values = bytes(alloc, value)?;
            check_len(step, values.len())?;
            Ok(Sent::Bytes(values))
        }
    }
}

// Refuses another length than the step has. What is longer than the step lets it be, the prover itself refuses.
fn check_len<S: Suite>(step: &Step<S>, found: usize) -> Result<()> {
    let expected = match step {
        Step::Salt { len, .. } | Step::Bytes { len, .. } | Step::Hint { len, .. } => *len,
        Step::Scalars { n, .. } => *n,
        _ => found,
    };
    if found != expected {
        bail!("length {found}, and the step has {expected}");
    }
    Ok(())
}
