//! What a call writes into its caller's bytes.
ghost use Rattle.std.specs.Prelude.{◌≡◌, ◌≤◌, ◌++◌, ◌∷◌, [], length, drop, IfOk, IfErr};
ghost use Rattle.tealmuze_calls.specs.{Forms.IsWritten, Written.{IsUnasked, IsNoVerdict, IsTold, ByAnswer}};
ghost use Rattle.tealmuze_calls.specs.declared.unanswered.Unanswered.TheVariants.{OutOfMemory};

use crate::answers::shortened;
use crate::unanswered::Unanswered;
use std::alloc::{AllocError, Global};

/// The first byte of an answer that gives no verdict: nothing was asked that can be answered.
const UNASKED: u8 = 2;

/// The first byte of an answer that gives no verdict: memory ran out.
const OUT_OF_MEMORY: u8 = 3;

/// What there is for the caller.
#[derive(Drop)]
pub enum Answer {
    /// A verdict, with what is told of it.
    Told(Vec<u8>),
    /// An answer may have so many bytes, and less room was given.
    Wants(usize),
}

/// Writes the answer, or why there is none, and returns how many bytes that has; or how many are wanted.
pub fn tell(alloc: Global, found: Result<Answer, Unanswered>, answer: &mut [u8]) -> usize
    ensures found { IfOk found (ByAnswer (λ bytes. IsWritten bytes answer.old result answer.new)
        (λ wanted. (result ≡ wanted) × (answer.new ≡ answer.old))) }
    ensures none { IfErr found (λ e. IsTold (IsNoVerdict (e ≡ OutOfMemory)) answer.old result answer.new) }
{
    match found {
        Ok(Answer::Told(bytes)) => write(bytes.as_slice(), answer),
        Ok(Answer::Wants(wanted)) => wanted,
        Err(Unanswered::OutOfMemory) => write(&[OUT_OF_MEMORY], answer),
        Err(reason) => tell_reason(alloc, reason, answer),
    }
}

// Writes why nothing was asked that can be answered.
fn tell_reason(alloc: Global, reason: Unanswered, answer: &mut [u8]) -> usize
    ensures { IsTold (IsNoVerdict ⊥) answer.old result answer.new }
{
    match unasked(alloc, reason) {
        Ok(bytes) => write(bytes.as_slice(), answer),
        Err(_) => write(&[OUT_OF_MEMORY], answer),
    }
}

fn unasked(alloc: Global, reason: Unanswered) -> Result<Vec<u8>, AllocError>
    ensures { IfOk result (λ bytes. IsUnasked bytes.items) }
{
    let text = format!(in alloc; "{reason}")?;
    let mut bytes = Vec::new(alloc);
    bytes.push(UNASKED)?;
    bytes.extend_from_slice(shortened(text.as_bytes()))?;
    Ok(bytes)
}

// Writes bytes where they fit in, and answers their number.
fn write(bytes: &[u8], answer: &mut [u8]) -> usize
    ensures { IsWritten bytes.now answer.old result answer.new }
{
    let len = bytes.len();
    if len <= answer.len() {
        answer[..len].copy_from_slice(bytes);
    }
    len
}
