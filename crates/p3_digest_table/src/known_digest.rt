//! A line of a table of digests.

/// A text, and the digest that a table gives for it.
#[derive(Clone, Copy, Debug, PartialEq, Eq)]
pub struct KnownDigest {
    /// The bytes of the text.
    pub text: &'static [u8],
    /// The digest of the text.
    pub digest: [u8; 32],
}
