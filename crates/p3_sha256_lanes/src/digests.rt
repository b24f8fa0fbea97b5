// The digests of four messages of one length.
ghost use Rattle.std.specs.Prelude.{◌≡◌, ◌+◌, ◌*◌, ◌/◌, ◌%◌, ◌<◌, ◌≤◌, ℕ, Some, length, slice_get, slice_index};
ghost use Rattle.std.specs.Prelude.{slice_range, take, drop};
ghost use Rattle.sha2.specs.Sha256.{digest_bytes, initial_hash_256, padded_message, sha256, word_at};
ghost use Rattle.p3_sha256_lanes.specs.{Lanes.{state_in, words_in}, Padding.padded_length};

use crate::compression::compress;
use crate::padding::{padded_words, zero_count};
use crate::words::Words;

// The hash values before the first block (FIPS 180-4, 5.3.3).
fn initial_hash_values() -> [Words; 8]
    ensures { (lane : ℕ) → lane < 4 → state_in lane result ≡ initial_hash_256 }
{
    [
        Words::splat(0x6a09e667),
        Words::splat(0xbb67ae85),
        Words::splat(0x3c6ef372),
        Words::splat(0xa54ff53a),
        Words::splat(0x510e527f),
        Words::splat(0x9b05688c),
        Words::splat(0x1f83d9ab),
        Words::splat(0x5be0cd19),
    ]
}

// The 16 words of the block with this index, of each padded message.
#[inline(always)]
fn block_words(messages: &[u8], each: usize, index: usize) -> [Words; 16]
    requires whole { length messages.now ≡ 4 * each }
    requires inside { 64 * index + 64 ≤ padded_length each }
    ensures { (lane : ℕ) → lane < 4 →
        let padded = padded_message (slice_range messages.now (lane * each) (lane * each + each)) in
        (i : ℕ) → i < 16 →
        slice_index (words_in lane result) i ≡ word_at (take 64 (drop (index * 64) padded)) (4 * i) }
{
    let mut words = [Words::splat(0); 16];
    // The words before the padding, and then those of it.
    let whole = (each.saturating_sub(64 * index) / 4).min(16);
    'whole: for i in 0..whole {
        words[i] = crate::padding::message_words(messages, each, 64 * index + 4 * i);
    }
    'padded: for i in whole..16 {
        words[i] = padded_words(messages, each, 64 * index + 4 * i);
    }
    words
}

// The digest of the message in a lane, from its last hash value.
fn digest_in_lane(hash_values: &[Words; 8], lane: usize) -> [u8; 32]
    requires { lane < 4 }
    ensures { result ≡ digest_bytes (state_in lane hash_values.now) 8 }
{
    let mut digest = [0u8; 32];
    'words: for i in 0..8 {
        let words = hash_values[i].to_array();
        digest[4 * i..4 * i + 4].copy_from_slice(&words[lane].to_be_bytes());
    }
    digest
}

/// Returns the SHA-256 digests of four messages of one length, each a fourth of the bytes. Digest `lane` is
/// that of message `lane`, as the kit's `sha2` computes it. This call takes no memory.
///
/// The number of bytes is a multiple of 4; without bytes, each digest is that of the empty message.
pub fn four_digests(messages: &[u8]) -> [[u8; 32]; 4]
    requires whole { length messages.now % 4 ≡ 0 }
    ensures { (lane : ℕ) → lane < 4 →
        let each = length messages.now / 4 in
        slice_get result lane ≡ Some (sha256 (slice_range messages.now (lane * each) (lane * each + each))) }
{
    let each = messages.len() / 4;
    let mut hash_values = initial_hash_values();
    // After the message come the byte 0x80, the zeros, and 8 bytes of its length.
    let block_count = (each + zero_count(each) + 9) / 64;
    'each_block: for index in 0..block_count {
        compress(&mut hash_values, &block_words(messages, each, index));
    }
    [
        digest_in_lane(&hash_values, 0),
        digest_in_lane(&hash_values, 1),
        digest_in_lane(&hash_values, 2),
        digest_in_lane(&hash_values, 3),
    ]
}
