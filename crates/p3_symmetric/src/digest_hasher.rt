//! Hash functions of bytes that are determined by a type. They hash patterns and the identities of algebras.
ghost use Rattle.std.specs.Prelude.{◌≡◌, ℕ, List};
ghost use Rattle.p3_symmetric.specs.Digests.{IsDigest};

/// A hash function of bytes that is determined by the type alone. It maps a byte string to 32 bytes, and equal byte
/// strings to equal digests. Contracts know nothing more of it.
///
/// Not in the Rust crate, which uses Keccak-256 instead.
pub trait DigestHasher {
    // The digest of a byte string.
    ghost digest_of: { List ℕ → List ℕ };

    /// Returns the digest of a byte string. This call takes no memory.
    fn digest(message: &[u8]) -> [u8; 32]
        ensures { result ≡ digest_of message.now };

    // A digest has 32 places, and each is a byte.
    ghost digests: { (message : List ℕ) → IsDigest (digest_of message) };
}
