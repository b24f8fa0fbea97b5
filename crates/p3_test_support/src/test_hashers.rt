ghost use Rattle.std.specs.{Prelude.{◌≡◌, ◌%◌, [], length, replicate, IfOk}, List.sum};
ghost use Rattle.p3_test_support.specs.LengthHasher.{digest_of_length};

use p3_hash_challenger::HashChallenger;
use p3_symmetric::CryptographicHasher;
use std::alloc::{AllocError, Global};

/// A hasher for tests: place `i` of the digest is the length of the message plus `i`, modulo 256.
#[derive(Clone, Copy)]
pub struct LengthHasher;

/// A hasher for tests: place `i` of the digest is the sum of the bytes of the message plus `i`, modulo
/// 256.
#[derive(Clone, Copy)]
pub struct SumHasher;

impl CryptographicHasher<u8, [u8; 32]> for LengthHasher {
    ghost use Rattle.std.{specs.Prelude.refl, proofs.Common.lit<};
    ghost use Rattle.p3_test_support.specs.LengthHasher.{length_digest};

    const LANES: usize = 4;

    ghost LANES = { 4 };

    ghost hash = { λ _ message. length_digest message };

    ghost filler = { 0 };

    ghost some_lanes = { lit< tt };

    ghost digests = { λ _ _. refl };

    fn hash_slice(&self, input: &[u8]) -> [u8; 32] {
        digest_from((input.len() % 256) as u8)
    }
}

impl CryptographicHasher<u8, [u8; 32]> for SumHasher {
    ghost use Rattle.std.{specs.Prelude.refl, proofs.Common.lit<};
    ghost use Rattle.p3_test_support.specs.TestHashers.{sum_digest};

    const LANES: usize = 1;

    ghost LANES = { 1 };

    ghost hash = { λ _ message. sum_digest message };

    ghost filler = { 0 };

    ghost some_lanes = { lit< tt };

    ghost digests = { λ _ _. refl };

    fn hash_slice(&self, input: &[u8]) -> [u8; 32] {
        digest_from(byte_sum(input))
    }
}

// The sum of the bytes, modulo 256.
#[tactic(auto, using(crate::proofs::Digests::sum_more))]
fn byte_sum(bytes: &[u8]) -> u8
    ensures { result ≡ sum bytes.now % 256 }
{
    let mut total = 0u8;
    for byte in bytes {
        total = total.wrapping_add(*byte);
    }
    total
}

// The bytes that count on from a first one, modulo 256.
fn digest_from(first: u8) -> [u8; 32]
    ensures { result ≡ digest_of_length first }
{
    let mut digest = [0; 32];
    for i in 0..32 {
        digest[i] = first.wrapping_add(i as u8);
    }
    digest
}

/// A hasher with one digest for all messages.
#[derive(Clone, Copy)]
pub struct FixedHasher {
    digest: [u8; 24],
    ghost full: { length digest ≡ 24 },
}

impl CryptographicHasher<u8, [u8; 24]> for FixedHasher {
    ghost use Rattle.std.proofs.Common.{lit<};

    const LANES: usize = 1;

    ghost LANES = { 1 };

    ghost hash = { λ hasher _. hasher.digest };

    ghost filler = { 0 };

    ghost some_lanes = { lit< tt };

    ghost digests = { λ hasher _. hasher.full };

    fn hash_slice(&self, _input: &[u8]) -> [u8; 24] {
        self.digest
    }
}

/// Returns a challenger that draws these bytes, the last one first.
pub fn fixed_challenger(alloc: Global, digest: [u8; 24]) -> HashChallenger<u8, FixedHasher, 24>
    ensures pending { result.sponge.pending ≡ [] }
    ensures digest { result.hasher.digest ≡ digest }
{
    HashChallenger::new(Vec::new(alloc), FixedHasher { digest })
}

/// Returns a challenger of [`LengthHasher`] with this many bytes pending. The one error is out of memory.
pub fn length_challenger(
    alloc: Global,
    pending: usize,
) -> Result<HashChallenger<u8, LengthHasher, 32>, AllocError>
    ensures { IfOk result (λ challenger. challenger.sponge.pending ≡ replicate pending 0) }
{
    let initial_state = vec![in alloc; 0u8; pending]?;
    Ok(HashChallenger::new(initial_state, LengthHasher))
}
