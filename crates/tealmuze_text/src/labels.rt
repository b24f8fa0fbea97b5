// Labels that a file has.
ghost use Rattle.std.specs.Prelude.{◌≡◌, IfOk};

use anyhow::{Context, Result};
use std::alloc::Global;

/// The label of this text, which is kept until the program ends: a step's label is a text of the whole program.
pub fn label(alloc: Global, text: &str) -> Result<&'static str>
    ensures { IfOk result (λ label. label.now ≡ text.now) }
{
    let mut bytes = Vec::with_capacity(alloc, text.len())?;
    bytes.extend_from_slice(text.as_bytes())?;
    let kept: &'static [u8] = bytes.leak();
    std::str::from_utf8(kept).context("no text")
}
