//! The challenger over a hash function, with its observations of values and arrays.
//!
//! ```text
//! observe ->  pending values  <-------------------+
//!                |  a draw where no output is left |
//!                v                                 |
//!             the digest of all that is pending ---+   is what is pending then
//!                |
//!                v
//! sample  <-  outputs: the places of the digest, the last of them first
//! ```
//!
//! An observation drops the outputs that are left.
ghost use Rattle.std.specs.Prelude.{◌≡◌, ◌<◌, List, Some, OnOk, OnErr, IfOk, IfErr, refl, []};
ghost use Rattle.p3_challenger_core.specs.Segments.{Call, segments, run_segments, run_segments_to_digest};
ghost use Rattle.p3_challenger_core.specs.{Observation.{RefusesObserve, LeavesBeginning}, Sponge.IsNonEmpty};
ghost use Rattle.p3_challenger_core.specs.{declared.error.ChallengerError.ChallengerError, Sampling.unrefused_draw};
ghost use Rattle.p3_hash_challenger.specs.{HashSegments.hash_by_segments, HashCalls.{with_pending, outputs}};
ghost use Rattle.p3_hash_challenger.specs.HashReadBack.{ReadsBack, ReadsBackToDigest, ReadsBackOrCollides};
ghost use Rattle.p3_hash_challenger.specs.HashState.{function_of, pending_of, run, run_to_digest};
ghost use Rattle.p3_hash_challenger.specs.HashStateLaws.{fed-append, values-observed, values-front, values-sampled};
ghost use Rattle.p3_hash_challenger.specs.HashStateLaws.{arrays-observed};
ghost use Rattle.p3_sponge.specs.CallPromises.{QueriesDecide, IsUnrefusedDraw};
ghost use Rattle.p3_read_back.specs.Queries.{Decides};
ghost use Rattle.p3_hash_challenger.specs.HashState as hash_state;

mod calls;
mod digests;
mod grinding;
mod witness_search;

use p3_challenger_core::{CanFinalizeDigest, CanObserve, CanSample, ChallengerError, Sponge};
use p3_symmetric::CryptographicHasher;
use std::alloc::AllocError;
use std::marker::Model;

/// A challenger over a hash function.
///
/// Observed values are pending until a draw finds no output left. Then all pending values are hashed. The digest
/// becomes the pending value, so that each hash chains to the one before. Its places are the outputs, drawn from the
/// last one backwards. An observation drops the outputs left, and so does that of an empty array. Any other observation
/// that feeds nothing changes nothing.
///
/// `OUT_LEN` is the number of values in a digest, and a symbol is one value. The final digest is one more hash of the
/// pending values.
///
/// No draw of a value is refused, and an observation only when out of memory. A refused value, array or digest leaves
/// the challenger as it was. A refused cap or list of lists leaves the roots or lists before the refused one fed.
///
/// In the Rust crate's `HashChallenger` values are `Clone`.
#[derive(Debug, Drop)]
pub struct HashChallenger<T, H, const OUT_LEN: usize> {
    // What is pending, where `digest` is `None`; else of no meaning, and kept for its capacity.
    input_buffer: Vec<T>,
    // The digest of the last flush, while nothing was observed since: all that is pending.
    digest: Option<[T; OUT_LEN]>,
    // How many places of the digest are left to draw: its first ones.
    outputs_left: usize,
    hasher: H,
}

impl<T, H, const OUT_LEN: usize> Model for HashChallenger<T, H, OUT_LEN> {
    ghost use Rattle.p3_hash_challenger.specs.HashState.{HashState, KeepsOutputs, pending_of};

    ghost Value = { HashState T H };

    ghost view = { λ c. record {
      sponge = record {
        pending = pending_of c.digest c.input_buffer.items;
        outputs_left = c.outputs_left;
      };
      hasher = c.hasher;
    } };

    ghost invariant = { λ c. KeepsOutputs OUT_LEN c.digest c.outputs_left };
}

impl<T: Copy, H: CryptographicHasher<T, [T; OUT_LEN]>, const OUT_LEN: usize> HashChallenger<
    T,
    H,
    OUT_LEN,
> {
    /// Returns a challenger with the initial state pending and without outputs. `OUT_LEN` is at least 1.
    ///
    /// For those who check the hashes and not the calls, the hashed strings determine the observed values. If two lists
    /// of calls hash the same strings, and leave the same pending values or end in a digest, they observed the same
    /// values. If they only hash equally many strings and leave the same pending values, two cases remain. Either they
    /// observed the same values, or two different strings at one place have one digest. The last claim is for values
    /// with decidable equality, such as bytes and field elements.
    pub fn new(initial_state: Vec<T>, hasher: H) -> Self
        requires { 0 < OUT_LEN }
        ensures value { result
            ≡ record { sponge = with_pending initial_state.items; hasher = hasher } }
        ensures reads_back { ReadsBack (function_of H.hash OUT_LEN H.filler hasher) result.sponge }
        ensures to_digest { ReadsBackToDigest
            (function_of H.hash OUT_LEN H.filler hasher) result.sponge }
        ensures or_collides { Decides T →
            ReadsBackOrCollides (function_of H.hash OUT_LEN H.filler hasher) result.sponge }
    {
        HashChallenger {
            input_buffer: initial_state,
            digest: None,
            outputs_left: 0,
            hasher,
        }
    }

    /// Returns an equal challenger, which shares nothing with this one.
    ///
    /// The one error is [`ChallengerError::OutOfMemory`]. The Rust crate's `Clone` returns no error.
    pub fn clone(&self) -> Result<Self, ChallengerError>
        ensures ok { IfOk result (λ c. c ≡ self.now) }
        ensures err { IfErr result (λ e. e ≡ ChallengerError.OutOfMemory) }
    {
        let alloc = *self.input_buffer.allocator();
        let input_buffer = match &self.digest {
            Some(_) => Vec::new(alloc),
            None => Vec::from_slice(alloc, self.input_buffer.as_slice())?,
        };
        Ok(HashChallenger {
            input_buffer,
            digest: self.digest,
            outputs_left: self.outputs_left,
            hasher: self.hasher,
        })
    }

    /// Segments determine all calls. From this challenger on, every list of calls has the results, the queries to the
    /// hash function and the final challenger that its segments name. So have calls that end in a digest. The queries
    /// are complete: another hash function with the same digests of the queried strings gives the same calls.
    ///
    /// A law: the body does nothing, and a caller cites the clauses.
    pub fn follows_segments(&self)
        ensures calls { (calls : List (Call T)) → let h = function_of H.hash OUT_LEN H.filler in
            run h self.now calls
            ≡ run_segments (hash_by_segments (h self.now.hasher)) self.now.sponge (segments calls) }
        ensures digest { (calls : List (Call T)) → let h = function_of H.hash OUT_LEN H.filler in
            run_to_digest h self.now calls ≡ run_segments_to_digest
            (hash_by_segments (h self.now.hasher)) self.now.sponge (segments calls) }
        ensures queries { (calls : List (Call T)) → QueriesDecide (H.hash self.now.hasher)
            (λ hash. run (function_of (λ _. hash) OUT_LEN H.filler) self.now calls) }
        ensures queries_to_digest { (calls : List (Call T)) → QueriesDecide (H.hash self.now.hasher)
            (λ hash. run_to_digest (function_of (λ _. hash) OUT_LEN H.filler) self.now calls) }
    {
        let _ = &self.outputs_left;
    }

    /// Each draw gives a place that its digest has. Whatever the dummy for a missing place is, every list of calls has
    /// the same results and leaves the same challenger.
    ///
    /// A law: the body does nothing, and a caller cites the clause.
    pub fn draws_are_outputs(&self)
        ensures { (calls : List (Call T)) (other : T) → run (function_of H.hash OUT_LEN other)
            self.now calls ≡ run (function_of H.hash OUT_LEN H.filler) self.now calls }
    {
        let _ = &self.outputs_left;
    }

    /// Draws are never refused: no number of them leaves any challenger with an error.
    ///
    /// A law: the body is empty, and a caller cites the clause.
    pub fn draws_are_not_refused()
        ensures { IsUnrefusedDraw ⟦<Self as CanSample<T>>⟧.sampling }
    {}

    /// Returns the input of the next hash: the last digest, and the values observed since. Not in the Rust crate.
    pub fn input(&self) -> &[T]
        ensures { result.now ≡ self.now.sponge.pending }
    {
        match &self.digest {
            Some(digest) => &digest[..],
            None => self.input_buffer.as_slice(),
        }
    }

    /// Returns the outputs that are left. The last one is drawn next. Not in the Rust crate.
    pub fn output(&self) -> &[T]
        ensures { result.now ≡ outputs self.now.sponge }
    {
        match &self.digest {
            Some(digest) => &digest[..self.outputs_left],
            None => &[],
        }
    }

    /// Returns the hasher. Not in the Rust crate.
    pub fn hasher(&self) -> &H
        ensures { result.now ≡ self.now.hasher }
    {
        &self.hasher
    }

    // Adds the values to what is pending, and drops the outputs. A refused call changes nothing.
    fn absorb(&mut self, values: &[T]) -> Result<(), ChallengerError>
        ensures ok { OnOk result (self.new ≡ hash_state.array_observed self.old values.now) }
        ensures err { IfErr result (λ e. RefusesObserve (λ t. t ≡ self.old) e self.new) }
    {
        copy_digest(&self.digest, &mut self.input_buffer)?;
        self.input_buffer.extend_from_slice(values)?;
        if self.digest.is_some() {
            self.digest = None;
            self.outputs_left = 0;
        }
        Ok(())
    }

    // Feeds the values: as `absorb`, but nothing changes where there are none, and that is not refused.
    fn feed(&mut self, values: &[T]) -> Result<(), ChallengerError>
        ensures ok { OnOk result (self.new ≡ hash_state.fed self.old values.now) }
        ensures err { IfErr result
            (λ e. RefusesObserve (λ t. IsNonEmpty values.now × (t ≡ self.old)) e self.new) }
    {
        if values.is_empty() {
            return Ok(());
        }
        self.absorb(values)
    }

    // Hashes all that is pending. The digest is pending in its place, and all of it is left to draw.
    fn flush(&mut self)
        ensures { self.new ≡ hash_state.flushed (function_of H.hash OUT_LEN H.filler) self.old }
    {
        self.digest = Some(self.hasher.hash_slice(self.input()));
        self.outputs_left = OUT_LEN;
    }
}

// Makes the buffer what is pending, so that values can be added after it.
fn copy_digest<T: Copy, const OUT_LEN: usize>(
    digest: &Option<[T; OUT_LEN]>,
    buffer: &mut Vec<T>,
) -> Result<(), AllocError>
    ensures ok { OnOk result (buffer.new.items ≡ pending_of digest.now buffer.old.items) }
    ensures err { OnErr result
        (pending_of digest.now buffer.new.items ≡ pending_of digest.now buffer.old.items) }
{
    if let Some(digest) = digest {
        buffer.clear();
        buffer.extend_from_slice(&digest[..])?;
    }
    Ok(())
}

impl<T: Copy, H: CryptographicHasher<T, [T; OUT_LEN]>, const OUT_LEN: usize> Sponge
    for HashChallenger<T, H, OUT_LEN> {
    type State = Self;

    type Symbol = T;

    ghost state = { λ c. c };

    ghost fed = { λ s xs. hash_state.fed s xs };

    ghost next = { hash_state.after_sampled (hash_state.function_of H.hash OUT_LEN H.filler) };

    ghost fed_nothing = { λ _. refl };

    ghost fed_more = { fed-append };
}

impl<T: Copy, H: CryptographicHasher<T, [T; OUT_LEN]>, const OUT_LEN: usize> CanObserve<T>
    for HashChallenger<T, H, OUT_LEN> {
    // A refused call changes nothing.
    ghost observation = { hash_state.observation_of_value };

    // A slice of no values is not refused.
    ghost slice_may_leave = { λ s xs t. IsNonEmpty xs × (t ≡ s) };

    ghost observes = { values-observed };

    ghost slice_leaves = { values-front };

    fn observe(&mut self, value: T) -> Result<(), ChallengerError> {
        // Most values come while no output is left: then there is no digest.
        if self.digest.is_some() {
            return self.absorb(&[value]);
        }
        self.input_buffer.push(value)?;
        Ok(())
    }

    fn observe_slice(&mut self, values: &[T]) -> Result<(), ChallengerError> {
        self.feed(values)
    }
}

impl<T: Copy, H: CryptographicHasher<T, [T; OUT_LEN]>, const OUT_LEN: usize> CanSample<T>
    for HashChallenger<T, H, OUT_LEN> {
    // A draw takes no memory and has no limit: it is never refused, and it always gives a value.
    ghost sampling = { unrefused_draw
        (λ s. Some (hash_state.sampled (hash_state.function_of H.hash OUT_LEN H.filler) s))
        (hash_state.after_sampled (hash_state.function_of H.hash OUT_LEN H.filler)) };

    ghost samples = { values-sampled (hash_state.function_of H.hash OUT_LEN H.filler) };

    fn sample(&mut self) -> Result<T, ChallengerError> {
        if self.outputs_left == 0 {
            self.flush();
        }
        self.outputs_left -= 1;
        match &self.digest {
            Some(digest) => Ok(digest[self.outputs_left]),
            None => unreachable!(),
        }
    }
}

impl<T: Copy, H: CryptographicHasher<T, [T; OUT_LEN]>, const OUT_LEN: usize> CanFinalizeDigest
    for HashChallenger<T, H, OUT_LEN> {
    type Digest = [T; OUT_LEN];

    // One more hash of all that is pending, whatever outputs are left.
    ghost digest_of = { λ s. hash_state.digest (hash_state.function_of H.hash OUT_LEN H.filler) s };

    fn finalize(self) -> [T; OUT_LEN] {
        self.hasher.hash_slice(self.input())
    }
}

impl<
    T: Copy,
    H: CryptographicHasher<T, [T; OUT_LEN]>,
    const N: usize,
    const OUT_LEN: usize,
> CanObserve<[T; N]> for HashChallenger<T, H, OUT_LEN> {
    // A refused call changes nothing.
    ghost observation = { hash_state.observation_of_array };

    // A refused slice has observed the arrays before the refused one.
    ghost slice_may_leave = { LeavesBeginning hash_state.array_observed };

    ghost observes = { arrays-observed };

    ghost slice_leaves = { λ _ _ _ h. h };

    fn observe(&mut self, value: [T; N]) -> Result<(), ChallengerError> {
        self.absorb(&value[..])
    }

    fn observe_slice(&mut self, values: &[[T; N]]) -> Result<(), ChallengerError> {
        for value in values {
            self.absorb(&value[..])?;
        }
        Ok(())
    }
}
