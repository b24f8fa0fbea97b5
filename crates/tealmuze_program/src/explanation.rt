// What became of a proof, as it is shown.
use crate::explaining::{Explained, Row};
use crate::protocol::{Name, refusal};
use anyhow::{Context, Result};
use std::alloc::Global;
use tealmuze_text::explanation::{ExplainedShown, StepShown};

/// Names the steps of a proof that was explained.
pub fn explanation<'a>(
    alloc: Global,
    names: &[Name<'a>],
    explained: Explained<'_>,
) -> Result<ExplainedShown<'a>> {
    let refused = match &explained.refused {
        Some((fault, byte)) => Some(refusal(alloc, names, fault, Some(*byte))?),
        None => None,
    };
    Ok(ExplainedShown {
        accepted: refused.is_none(),
        seed: digits(alloc, explained.seed.as_deref())?,
        steps: steps_shown(alloc, names, explained.rows)?,
        refused,
    })
}

fn steps_shown<'a>(
    alloc: Global,
    names: &[Name<'a>],
    rows: Vec<Row<'_>>,
) -> Result<Vec<StepShown<'a>>> {
    let mut steps = Vec::new(alloc);
    for row in rows {
        let step = steps.len();
        let name = names.get(step).context("a step without a name")?;
        steps.push(step_shown(alloc, step, *name, row)?)?;
    }
    Ok(steps)
}

fn step_shown<'a>(
    alloc: Global,
    step: usize,
    name: Name<'a>,
    row: Row<'_>,
) -> Result<StepShown<'a>> {
    Ok(StepShown {
        step,
        kind: name.kind,
        label: name.label,
        offset: row.offset,
        read: hex::encode(alloc, row.read)?,
        value: row.value,
        fed: digits(alloc, row.fed.as_deref())?,
        challenge: row.drawn,
    })
}

/// Bytes in hexadecimal, if they are known.
pub fn digits(alloc: Global, bytes: Option<&[u8]>) -> Result<Option<String>> {
    match bytes {
        Some(bytes) => Ok(Some(hex::encode(alloc, bytes)?)),
        None => Ok(None),
    }
}
