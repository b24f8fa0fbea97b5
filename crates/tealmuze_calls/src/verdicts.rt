//! The first byte of an answer that gives a verdict, and what is told of a refusal.
ghost use Rattle.std.specs.Prelude.{◌≡◌, ℕ, ◌≤◌, List, ◌∷◌, ◌++◌, length, IfOk, IfErr};
ghost use Rattle.p3_challenger.specs.TranscriptError.TheVariants as error;
ghost use Rattle.tealmuze_calls.specs.{Forms.number_bytes, Told.TellsFault};
ghost use Rattle.tealmuze_calls.specs.declared.unanswered.Unanswered.TheVariants.{OutOfMemory};

use crate::answers::{put_number, shortened};
use crate::unanswered::Unanswered;
use p3_challenger::fs::TranscriptError;
use p3_challenger::fs::script::Fault;
use std::alloc::{AllocError, Global};

/// A proof is accepted, or values are proved: what is told of it stands after this byte.
pub const DONE: u8 = 0;

/// A proof or values are refused: the position and the reason stand after this byte.
pub const REFUSED: u8 = 1;

/// What is told of a fault: its position, and its reason as a text. That memory ran out is no verdict.
pub fn refused(alloc: Global, fault: &Fault) -> Result<Vec<u8>, Unanswered>
    ensures ok { IfOk result (λ bytes. TellsFault fault.now bytes.items) }
    ensures err { IfErr result (λ e. e ≡ OutOfMemory) }
{
    match &fault.error {
        TranscriptError::OutOfMemory => Err(Unanswered::OutOfMemory),
        error => Ok(told(alloc, fault.position, error)?),
    }
}

fn told(alloc: Global, position: usize, error: &TranscriptError) -> Result<Vec<u8>, AllocError>
    ensures { IfOk result (λ bytes. (reason : List ℕ)
        × ((length reason ≤ 1000) × (bytes.items ≡ 1 ∷ (number_bytes position ++ reason)))) }
{
    let reason = format!(in alloc; "{error}")?;
    let mut bytes = Vec::new(alloc);
    bytes.push(REFUSED)?;
    put_number(&mut bytes, position as u64)?;
    bytes.extend_from_slice(shortened(reason.as_bytes()))?;
    Ok(bytes)
}
