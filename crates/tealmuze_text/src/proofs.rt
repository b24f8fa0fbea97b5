// Proofs as files have them.
use crate::command::Request;
use crate::numbers::{NOT_HEXADECIMAL, decoded};
use anyhow::{Context, Result};
use std::alloc::Global;

/// The bytes of a proof in a file, which may be in hexadecimal.
pub fn proof_of(alloc: Global, request: &Request<'_>, second: &[u8]) -> Result<Vec<u8>> {
    if !request.hex {
        return copied(alloc, second);
    }
    digits_of(alloc, second).context(request.second.unwrap_or("proof"))
}

// The bytes of hexadecimal digits, between which there may be blanks and line ends.
fn digits_of(alloc: Global, text: &[u8]) -> Result<Vec<u8>> {
    let text = std::str::from_utf8(text).context(NOT_HEXADECIMAL)?;
    let mut digits = String::new(alloc);
    for part in text.split_whitespace() {
        digits.push_str(part)?;
    }
    decoded(alloc, digits.as_str())
}

/// A copy of bytes.
pub fn copied(alloc: Global, bytes: &[u8]) -> Result<Vec<u8>> {
    let mut copy = Vec::with_capacity(alloc, bytes.len())?;
    copy.extend_from_slice(bytes)?;
    Ok(copy)
}
