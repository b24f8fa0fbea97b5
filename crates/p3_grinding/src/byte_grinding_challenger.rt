//! Candidates of bytes: each is observed on a copy of the challenger, and the bytes drawn after it decide whether it
//! passes.
ghost use Rattle.std.specs.Prelude.{◌≡◌, ◌<◌, ◌^◌, ℕ, List, Bool, Some, IfOk, IfErr};
ghost use Rattle.p3_challenger_core.specs.{Observation.in_slice, Reading.{IsByte, IsPrefixCodeOn}};
ghost use Rattle.p3_challenger_core.specs.Sampling.{in_row, RefusesDraw};
ghost use Rattle.p3_challenger_core.specs.declared.error.ChallengerError.TheVariants.{OutOfMemory};
ghost use Rattle.p3_grinding.specs.Checks.{byte_check, Finds, MayRunOut};

use crate::CanCopy;
use p3_challenger_core::{CanObserve, CanSample, ChallengerError, sample_array};

/// The candidates of a search, each encoded as `W` bytes, and a test of the `S` bytes that are drawn after a candidate.
///
/// `W` and `S` are below 2^63. Not in the Rust crate, where the two members are closures.
pub trait ByteCandidates<const W: usize, const S: usize> {
    // The bytes of each candidate.
    ghost encoded: { Self → ℕ → List ℕ };

    // Whether so many drawn bytes let a candidate pass.
    ghost accepted: { Self → List ℕ → Bool };

    /// Returns the bytes of a candidate.
    fn encode(&self, candidate: u64) -> [u8; W]
        ensures { result ≡ encoded self.now candidate };

    /// Returns whether a candidate passes if these bytes are drawn after it.
    fn accepts(&self, drawn: &[u8; S]) -> bool
        ensures { result ≡ accepted self.now drawn.now };

    // Such strings fit in memory.
    ghost encoded_fit: { W < 2 ^ 63 };

    ghost drawn_fit: { S < 2 ^ 63 };
}

/// A challenger of bytes that searches candidates: each feeds `W` bytes, and the next `S` bytes drawn are tested.
///
/// Corresponds to the Rust crate's `ByteGrindingChallenger`, where `W` and `S` are parameters of `find_witness`.
pub trait ByteGrindingChallenger<const W: usize, const S: usize>: CanCopy
    + CanObserve<u8>
    + CanSample<u8> {
    /// Returns the least candidate below `num_candidates` that passes, or `None` where none does. Nothing changes.
    ///
    /// A candidate passes where the `S` bytes drawn after its `W` bytes, observed as one slice, are accepted. A
    /// candidate whose draws meet a limit does not pass. The one error is [`ChallengerError::OutOfMemory`]. The Rust
    /// crate returns any candidate that passes.
    fn find_witness<K: ByteCandidates<W, S>>(
        &self,
        num_candidates: u64,
        candidates: &K,
    ) -> Result<Option<u64>, ChallengerError>
        ensures found { IfOk result
            (Finds (byte_check (in_slice Self.observation Self.slice_may_leave)
            (in_row Self.sampling S) (K.encoded candidates.now) (K.accepted candidates.now))
            (Self.state self.now) num_candidates) }
        ensures err { IfErr result (λ e. (e ≡ OutOfMemory) × MayRunOut Self.copies_may_fail
            (byte_check (in_slice Self.observation Self.slice_may_leave) (in_row Self.sampling S)
            (K.encoded candidates.now) (K.accepted candidates.now)) (Self.state self.now)) }
    {
        find_witness_plainly(self, num_candidates, candidates)
    }

    // What bytes feed tells them apart.
    ghost bytes_prefix_free: { IsPrefixCodeOn IsByte Self.CanObserve.observation.symbols };
}

/// Returns the least candidate below `num_candidates` that passes, or `None` where none does. Each is tried in turn on
/// one copy of the challenger. A challenger without a faster search implements [`ByteGrindingChallenger::find_witness`]
/// so.
///
/// The one error is [`ChallengerError::OutOfMemory`]. Not in the Rust crate.
pub fn find_witness_plainly<
    C: CanObserve<u8> + CanSample<u8> + CanCopy,
    K: ByteCandidates<W, S>,
    const W: usize,
    const S: usize,
>(challenger: &C, num_candidates: u64, candidates: &K) -> Result<Option<u64>, ChallengerError>
    ensures found { IfOk result (Finds (byte_check (in_slice C.observation C.slice_may_leave)
        (in_row C.sampling S) (K.encoded candidates.now) (K.accepted candidates.now))
        (C.state challenger.now) num_candidates) }
    ensures err { IfErr result (λ e. (e ≡ OutOfMemory) × MayRunOut C.copies_may_fail
        (byte_check (in_slice C.observation C.slice_may_leave) (in_row C.sampling S)
        (K.encoded candidates.now) (K.accepted candidates.now)) (C.state challenger.now)) }
{
    let mut trial = challenger.copy()?;
    for candidate in 0..num_candidates {
        match check_bytes::<C, K, W, S>(&mut trial, candidates, candidate) {
            Ok(true) => return Ok(Some(candidate)),
            Ok(false) => trial.copy_from(challenger)?,
            Err(ChallengerError::DrawLimit) => trial.copy_from(challenger)?,
            Err(error) => return Err(error),
        }
    }
    Ok(None)
}

// Whether a candidate passes, on the challenger itself.
fn check_bytes<
    C: CanObserve<u8> + CanSample<u8>,
    K: ByteCandidates<W, S>,
    const W: usize,
    const S: usize,
>(challenger: &mut C, candidates: &K, candidate: u64) -> Result<bool, ChallengerError>
    ensures answered { IfOk result (λ passes. (byte_check
        (in_slice C.observation C.slice_may_leave) (in_row C.sampling S) (K.encoded candidates.now)
        (K.accepted candidates.now) candidate).sampled (C.state challenger.old) ≡ Some passes) }
    ensures err { IfErr result
        (λ e. RefusesDraw (byte_check (in_slice C.observation C.slice_may_leave)
        (in_row C.sampling S) (K.encoded candidates.now) (K.accepted candidates.now) candidate) e
        (C.state challenger.old) (C.state challenger.new)) }
{
    let bytes = candidates.encode(candidate);
    challenger.observe_slice(&bytes[..])?;
    let drawn = sample_array(challenger)?;
    Ok(candidates.accepts(&drawn))
}
