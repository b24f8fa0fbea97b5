// The calls of a line, made in order.
use anyhow::{Context, Result};
use conformance_tokens::answer;
use conformance_tokens::line::Step;
use std::alloc::Global;

/// What calls of a file are made on.
pub trait Replayed {
    /// Makes the call, and gives its answer as a file writes it. The error says what is no call here.
    fn answer(&mut self, alloc: Global, call: &str) -> Result<String>;
}

/// Makes the calls in order. The first one with another answer than the file's is given: its index,
/// and its answer here.
pub fn first_difference<S: Replayed + Drop>(
    alloc: Global,
    mut subject: S,
    steps: &[Step<'_>],
) -> Result<Option<(usize, String)>> {
    for (index, step) in steps.iter().enumerate() {
        let answer = subject.answer(alloc, step.call).context(step.call)?;
        if answer.as_str() != step.answer {
            return Ok(Some((index, answer)));
        }
    }
    Ok(None)
}

/// The answer of a call without one, once it was made.
pub fn answer_made(alloc: Global, made: Result<()>) -> Result<String> {
    made?;
    answer::nothing(alloc)
}
