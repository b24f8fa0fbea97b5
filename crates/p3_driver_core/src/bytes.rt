//! The law that a program's slices of bytes are bytes.
ghost use Rattle.p3_challenger_core.specs.Reading.{AreBytes};

/// The items of a slice of bytes are below 256.
///
/// A law: its body does nothing, and a caller cites the clause.
pub fn slices_are_bytes(bytes: &[u8])
    ensures { AreBytes bytes.now }
{
    let _len = bytes.len();
}
