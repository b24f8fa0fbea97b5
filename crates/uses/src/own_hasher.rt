//! A user-defined hasher, for a [`HashChallenger`](p3_challenger::HashChallenger) and for the digests of patterns.
//!
//! A challenger needs a function of lists whose digests have a fixed length. A separator needs a function of bytes that
//! is determined by its type, and whose digests have 32 bytes. No contract says that two lists with one digest are hard
//! to find. [`Polynomial`] shows the form and has no cryptographic strength.
ghost use Rattle.std.specs.Prelude.{◌≡◌, ◌%◌};
ghost use Rattle.uses.specs.OwnHasher.{polynomial};

use p3_symmetric::{CryptographicHasher, DigestHasher};

/// Takes the bytes as the coefficients of a polynomial; each place of the digest is its value at 31 modulo 256.
#[derive(Clone, Copy, Debug)]
pub struct Polynomial;

impl CryptographicHasher<u8, [u8; 32]> for Polynomial {
    ghost use Rattle.std.{specs.Prelude.refl, proofs.Common.lit<};
    ghost use Rattle.uses.specs.OwnHasher.{polynomial_digest};

    const LANES: usize = 1;

    ghost LANES = { 1 };

    ghost hash = { λ _ message. polynomial_digest message };

    ghost filler = { 0 };

    ghost some_lanes = { lit< tt };

    ghost digests = { λ _ _. refl };

    fn hash_slice(&self, input: &[u8]) -> [u8; 32] {
        [evaluate(input); 32]
    }
}

impl DigestHasher for Polynomial {
    ghost use Rattle.uses.specs.OwnHasher.{polynomial_digest, polynomial-is_digest};

    ghost digest_of = { polynomial_digest };

    ghost digests = { polynomial-is_digest };

    fn digest(message: &[u8]) -> [u8; 32] {
        [evaluate(message); 32]
    }
}

// The value of the polynomial, the first byte being the highest coefficient.
fn evaluate(bytes: &[u8]) -> u8
    ensures { result ≡ polynomial bytes.now % 256 }
{
    let mut value = 0u8;
    for byte in bytes {
        value = value.wrapping_mul(31).wrapping_add(*byte);
    }
    value
}
