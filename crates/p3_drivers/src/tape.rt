//! The proof in the form of each driver.
ghost use Rattle.std.specs.Prelude.{List, ℕ};

/// The bytes of a proof in the form of a driver. This trait is internal to the drivers. Not in the Rust crate.
pub trait Tape: Drop {
    // The bytes that were written, or that are left to read.
    ghost bytes: { Self → List ℕ };
}

/// The bytes that a prover has written. Not in the Rust crate.
#[derive(Debug, Drop)]
pub struct Written {
    pub(crate) narg: Vec<u8>,
}

/// The bytes that a verifier has left to read, borrowed from the caller. Not in the Rust crate.
#[derive(Debug, Drop)]
pub struct Unread<'a> {
    pub(crate) bytes: &'a [u8],
}

impl Tape for Written {
    ghost bytes = { λ written. written.narg.items };
}

impl Tape for Unread<'_> {
    ghost bytes = { λ unread. unread.bytes.now };
}
