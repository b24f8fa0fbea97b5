//! SHA-256, by the kit's `sha2`.
ghost use Rattle.std.{specs.Prelude.◌≡◌, proofs.Common.lit<};
ghost use Rattle.sha2.specs.Sha256.{sha256};
ghost use Rattle.p3_symmetric.specs.DigestLaws.{sha256-is_digest};

use crate::{CryptographicHasher, DigestHasher};
use p3_sha256_lanes::four_digests;
use sha2::{Digest, Sha256};

/// SHA-256 (FIPS 180-4), from bytes to 32 bytes, by the kit's crate `sha2`. It is a hash function of lists of
/// bytes, and a [`DigestHasher`](crate::DigestHasher).
#[derive(Clone, Copy, Debug, PartialEq, Eq)]
pub struct Sha256Hasher;

impl CryptographicHasher<u8, [u8; 32]> for Sha256Hasher {
    const LANES: usize = 8;

    ghost LANES = { 8 };

    ghost hash = { λ _ xs. sha256 xs };

    ghost filler = { 0 };

    ghost some_lanes = { lit< tt };

    ghost digests = { λ _ message. (sha256-is_digest message).places };

    fn hash_slice(&self, input: &[u8]) -> [u8; 32]
        ensures { result ≡ sha256 input.now }
    {
        Sha256::digest(input)
    }

    // Four messages at a time stand in the lanes of a vector; up to three that are left are hashed one by one.
    fn hash_many(&self, messages: &[u8], digests: &mut [[u8; 32]]) {
        let count = digests.len();
        if count == 0 {
            return;
        }
        let each = messages.len() / count;
        let in_fours = count - count % 4;
        'fours: for group in 0..count / 4 {
            let start = 4 * group;
            let four = four_digests(&messages[start * each..start * each + 4 * each]);
            digests[start..start + 4].copy_from_slice(&four);
        }
        'rest: for j in in_fours..count {
            let start = j * each;
            digests[j] = self.hash_slice(&messages[start..start + each]);
        }
    }
}

impl DigestHasher for Sha256Hasher {
    ghost digest_of = { sha256 };

    ghost digests = { sha256-is_digest };

    fn digest(message: &[u8]) -> [u8; 32] {
        Sha256::digest(message)
    }
}
