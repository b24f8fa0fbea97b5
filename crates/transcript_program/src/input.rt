//! Standard input, read to its end.
ghost use Rattle.std.specs.{Prelude.{IfOk, OnOk, IfErr, List, ℕ}, Io.KnownBytes.{Consumes, IsAtEnd}};

use std::alloc::Global;
use std::io::{ErrorKind, Read};

// How many reads there are at most.
const MAX_READS: u32 = 1048576;

// How many bytes a read asks for: more than a proof of the demo protocol has.
const READ_LEN: usize = 64;

/// Why standard input was not read.
#[derive(Clone, Copy, Debug)]
pub enum Unread {
    /// It could not be read, or has not ended after so many reads as there may be.
    NoEnd,
    /// Memory was refused.
    OutOfMemory,
}

/// Reads all bytes that are left. A read that was interrupted is tried again, and counts.
pub fn read_all<R: Read>(alloc: Global, reader: &mut R) -> Result<Vec<u8>, Unread>
    ensures bytes { IfOk result (λ bytes.
        Consumes (R.remaining reader.old) (R.remaining reader.new) bytes.items) }
    ensures err { IfErr result (λ _. (taken : List ℕ) ×
        Consumes (R.remaining reader.old) (R.remaining reader.new) taken) }
    ensures end { OnOk result (IsAtEnd (R.remaining reader.new)) }
{
    let mut bytes = Vec::new(alloc);
    for _ in 0..MAX_READS {
        let mut buffer = [0; READ_LEN];
        match reader.read(&mut buffer) {
            Ok(0) => return Ok(bytes),
            Ok(n) => match bytes.extend_from_slice(&buffer[..n]) {
                Ok(()) => {}
                Err(_) => return Err(Unread::OutOfMemory),
            },
            Err(error) => {
                if !matches!(error.kind(), ErrorKind::Interrupted) {
                    return Err(Unread::NoEnd);
                }
            }
        }
    }
    Err(Unread::NoEnd)
}
