//! A search for a witness that hashes as many candidates at once as the hasher has lanes.
//!
//! The message of a candidate is the pending values followed by the candidate's bytes. The messages of a
//! batch stand one after another in one buffer, which is allocated once. From batch to batch only the
//! candidates' bytes are written.
ghost use Rattle.std.specs.Prelude.{◌≡◌, ◌<◌, ◌≤◌, ◌+◌, ◌*◌, ◌^◌, ℕ, length, IfOk, IfErr};
ghost use Rattle.p3_challenger_core.specs.declared.error.ChallengerError.TheVariants.{OutOfMemory};
ghost use Rattle.p3_grinding.specs.Checks.{Finds};
ghost use Rattle.p3_hash_challenger.specs.WitnessSearch.{candidate_check, digest_check, first_outputs, BeginWith};
ghost use Rattle.p3_hash_challenger.specs.WitnessSearch.{IsDigestOf, IsMessageOf};

use crate::HashChallenger;
use p3_challenger_core::ChallengerError;
use p3_grinding::ByteCandidates;
use p3_symmetric::CryptographicHasher;
use std::alloc::{AllocError, Global};

/// Returns the least candidate below `num_candidates` that passes, or `None` where none does.
///
/// The one error is [`ChallengerError::OutOfMemory`]: all memory is allocated before the first candidate.
pub(super) fn least_in_batches<
    H: CryptographicHasher<u8, [u8; OUT_LEN]>,
    K: ByteCandidates<W, S>,
    const OUT_LEN: usize,
    const W: usize,
    const S: usize,
>(
    challenger: &HashChallenger<u8, H, OUT_LEN>,
    num_candidates: u64,
    candidates: &K,
) -> Result<Option<u64>, ChallengerError>
    requires some_bytes { 0 < W }
    requires one_digest { S ≤ OUT_LEN }
    ensures found { IfOk result (Finds (candidate_check H.hash OUT_LEN H.filler S
        (K.encoded candidates.now) (K.accepted candidates.now)) challenger.now num_candidates) }
    ensures err { IfErr result (λ e. e ≡ OutOfMemory) }
{
    let alloc = *challenger.input_buffer.allocator();
    let mut messages = messages_with_room::<W>(alloc, challenger.input(), H::LANES)?;
    let mut digests = vec![in alloc; [0; OUT_LEN]; H::LANES]?;
    Ok(search_batches::<H, K, OUT_LEN, W, S>(
        challenger,
        num_candidates,
        candidates,
        messages.as_mut_slice(),
        digests.as_mut_slice(),
    ))
}

// So many messages, one after another: each is what is pending, and room for the bytes of a candidate.
fn messages_with_room<const W: usize>(
    alloc: Global,
    pending: &[u8],
    count: usize,
) -> Result<Vec<u8>, AllocError>
    requires { W < 2 ^ 63 }
    ensures begin { IfOk result
        (λ messages. BeginWith pending.now (length pending.now + W) messages.items) }
    ensures room { IfOk result
        (λ messages. length messages.items ≡ count * (length pending.now + W)) }
{
    let bytes = (pending.len() + W).saturating_mul(count);
    let mut messages = Vec::with_capacity(alloc, bytes)?;
    'messages: for _j in 0..count {
        messages.extend_from_slice(pending)?;
        messages.extend_from_slice(&[0; W])?;
    }
    Ok(messages)
}

// The search itself, in batches of as many candidates as there is room for digests.
fn search_batches<
    H: CryptographicHasher<u8, [u8; OUT_LEN]>,
    K: ByteCandidates<W, S>,
    const OUT_LEN: usize,
    const W: usize,
    const S: usize,
>(
    challenger: &HashChallenger<u8, H, OUT_LEN>,
    num_candidates: u64,
    candidates: &K,
    messages: &mut [u8],
    digests: &mut [[u8; OUT_LEN]],
) -> Option<u64>
    requires some_bytes { 0 < W }
    requires one_digest { S ≤ OUT_LEN }
    requires begin { let pending = challenger.now.sponge.pending in
        BeginWith pending (length pending + W) messages.old }
    requires room { length messages.old
        ≡ length digests.old * (length challenger.now.sponge.pending + W) }
    requires some_room { 0 < length digests.old }
    ensures { Finds (candidate_check H.hash OUT_LEN H.filler S (K.encoded candidates.now)
        (K.accepted candidates.now)) challenger.now num_candidates result }
{
    let pending = challenger.input();
    let mut first = 0;
    'batches: while first < num_candidates {
        let count = (digests.len() as u64).min(num_candidates - first) as usize;
        let batch = &mut digests[..count];
        hash_candidates::<H, K, OUT_LEN, W, S>(
            &challenger.hasher,
            pending,
            candidates,
            first,
            messages,
            batch,
        );
        match first_accepted::<K, OUT_LEN, W, S>(candidates, batch) {
            Some(lane) => return Some(first + lane as u64),
            None => first += count as u64,
        }
    }
    None
}

// Hashes the messages of as many candidates as there is room for digests, from a first one on.
fn hash_candidates<
    H: CryptographicHasher<u8, [u8; OUT_LEN]>,
    K: ByteCandidates<W, S>,
    const OUT_LEN: usize,
    const W: usize,
    const S: usize,
>(
    hasher: &H,
    pending: &[u8],
    candidates: &K,
    first: u64,
    messages: &mut [u8],
    digests: &mut [[u8; OUT_LEN]],
)
    requires begin { BeginWith pending.now (length pending.now + W) messages.old }
    requires room { length digests.old * (length pending.now + W) ≤ length messages.old }
    requires below { first + length digests.old < 2 ^ 64 }
    ensures kept { BeginWith pending.now (length pending.now + W) messages.new }
    ensures same_room { length messages.new ≡ length messages.old }
    ensures same_count { length digests.new ≡ length digests.old }
    ensures each_digest { (j : ℕ) → j < length digests.old → IsDigestOf
        (H.hash hasher.now) pending.now (K.encoded candidates.now) W first digests.new j }
{
    let count = digests.len();
    write_candidates::<K, W, S>(pending, candidates, first, count, messages);
    let end = count * (pending.len() + W);
    hasher.hash_many(&messages[..end], digests);
}

// Writes the bytes of so many candidates, from a first one on, at the ends of their messages.
fn write_candidates<K: ByteCandidates<W, S>, const W: usize, const S: usize>(
    pending: &[u8],
    candidates: &K,
    first: u64,
    count: usize,
    messages: &mut [u8],
)
    requires begin { BeginWith pending.now (length pending.now + W) messages.old }
    requires room { count * (length pending.now + W) ≤ length messages.old }
    requires below { first + count < 2 ^ 64 }
    ensures kept { BeginWith pending.now (length pending.now + W) messages.new }
    ensures same_room { length messages.new ≡ length messages.old }
    ensures each_message { (j : ℕ) → j < count →
        IsMessageOf pending.now (K.encoded candidates.now) W first messages.new j }
{
    let each = pending.len() + W;
    'candidates: for j in 0..count {
        let bytes = candidates.encode(first + j as u64);
        let end = j * each + each;
        messages[end - W..end].copy_from_slice(&bytes[..]);
    }
}

// The first digest whose first outputs are accepted, or `None` where those of none are.
fn first_accepted<K: ByteCandidates<W, S>, const OUT_LEN: usize, const W: usize, const S: usize>(
    candidates: &K,
    digests: &[[u8; OUT_LEN]],
) -> Option<usize>
    requires { S ≤ OUT_LEN }
    ensures { Finds (digest_check S (K.accepted candidates.now)) digests.now (length digests.now)
        result }
{
    for j in 0..digests.len() {
        if candidates.accepts(&outputs_of::<OUT_LEN, S>(&digests[j])) {
            return Some(j);
        }
    }
    None
}

// The first outputs of a digest: its last places, the last of them first.
fn outputs_of<const OUT_LEN: usize, const S: usize>(digest: &[u8; OUT_LEN]) -> [u8; S]
    requires { S ≤ OUT_LEN }
    ensures { result ≡ first_outputs S digest.now }
{
    let mut outputs = [0; S];
    for i in 0..S {
        outputs[i] = digest[OUT_LEN - 1 - i];
    }
    outputs
}
