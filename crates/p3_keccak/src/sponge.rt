//! Keccak-256 by the sponge over Keccak-f[1600] (FIPS 202, 4), with blocks of 136 bytes.
ghost use Rattle.std.specs.Prelude.{◌≡◌, ◌<◌, ◌≤◌, ◌+◌, ◌-◌, ◌++◌, length};
ghost use Rattle.p3_keccak.specs.Keccak.{absorb, keccak256, lane_at, lane_bytes, pad10star1};

use crate::permutation::keccak_f;

// The bytes of a block.
const RATE: usize = 136;

// The lane that begins at a byte of a block: its lowest byte stands first.
fn lane_at(block: &[u8], i: usize) -> u64
    requires { i + 8 ≤ length block.now }
    ensures { result ≡ lane_at block.now i }
{
    u64::from_le_bytes([
        block[i],
        block[i + 1],
        block[i + 2],
        block[i + 3],
        block[i + 4],
        block[i + 5],
        block[i + 6],
        block[i + 7],
    ])
}

// Absorbs a block: its 17 lanes are added to the state, which then is permuted.
fn absorb(state: &mut [u64; 25], block: &[u8])
    requires { length block.now ≡ 136 }
    ensures { state.new ≡ absorb state.old block.now }
{
    let mut a = *state;
    'lanes: for i in 0..17 {
        a[i] = a[i] ^ lane_at(block, 8 * i);
    }
    *state = keccak_f(a);
}

// The last block of a message: the bytes after its whole blocks, and pad10*1. The first and the last bit of the
// padding may stand in one byte.
fn last_block(tail: &[u8]) -> [u8; 136]
    requires { length tail.now < 136 }
    ensures { result ≡ tail.now ++ pad10star1 (135 - length tail.now) }
{
    let mut block = [0u8; 136];
    let used = tail.len();
    block[..used].copy_from_slice(tail);
    block[used] = 0x01;
    block[135] = block[135] ^ 0x80;
    block
}

// The digest that a state gives: its first four lanes.
fn squeeze(state: &[u64; 25]) -> [u8; 32]
    ensures { result ≡ lane_bytes state.now 4 }
{
    let mut digest = [0u8; 32];
    'lanes: for i in 0..4 {
        digest[8 * i..8 * i + 8].copy_from_slice(&state[i].to_le_bytes());
    }
    digest
}

/// Returns the digest of a message under Keccak-256, 32 bytes. This call takes no memory.
pub(crate) fn keccak256(message: &[u8]) -> [u8; 32]
    ensures { result ≡ keccak256 message.now }
{
    let mut state = [0u64; 25];
    let block_count = message.len() / RATE;
    'whole_blocks: for i in 0..block_count {
        let start = RATE * i;
        absorb(&mut state, &message[start..start + RATE]);
    }
    absorb(&mut state, &last_block(&message[RATE * block_count..]));
    squeeze(&state)
}
