//! Keccak-256 as a hash function.
ghost use Rattle.std.{specs.Prelude.◌≡◌, proofs.Common.lit<};
ghost use Rattle.p3_keccak.specs.{Keccak.keccak256, KeccakLaws.keccak256-is_digest};

use crate::sponge::keccak256;
use p3_symmetric::{CryptographicHasher, DigestHasher};

/// Keccak-256, from bytes to 32 bytes, as Ethereum uses it. It is a hash function of lists of bytes, and a
/// `DigestHasher`.
///
/// It is `KECCAK[512]` of FIPS 202 with a digest of 256 bits. The padding is that of the Keccak submission: the byte
/// 0x01, zeros and a final bit. SHA3-256, whose padding begins with 0x06, gives other digests. A digest takes no
/// memory, and there are no errors.
///
/// Corresponds to `p3-keccak`'s `Keccak256Hash`.
#[derive(Clone, Copy, Debug, PartialEq, Eq)]
pub struct Keccak256Hasher;

impl CryptographicHasher<u8, [u8; 32]> for Keccak256Hasher {
    const LANES: usize = 1;

    ghost LANES = { 1 };

    ghost hash = { λ _ message. keccak256 message };

    ghost filler = { 0 };

    ghost some_lanes = { lit< tt };

    ghost digests = { λ _ message. (keccak256-is_digest message).places };

    fn hash_slice(&self, input: &[u8]) -> [u8; 32]
        ensures { result ≡ keccak256 input.now }
    {
        keccak256(input)
    }
}

impl DigestHasher for Keccak256Hasher {
    ghost digest_of = { keccak256 };

    ghost digests = { keccak256-is_digest };

    fn digest(message: &[u8]) -> [u8; 32]
        ensures { result ≡ keccak256 message.now }
    {
        keccak256(message)
    }
}
