//! The driver of a transcript: it plays a pattern while it writes or reads the proof. This file has its state,
//! beginning and end.
//!
//! ```text
//! prover                                                      verifier
//! add_scalar ..        value -> its encoding -> the proof     next_scalar ..   the proof -> its encoding -> value
//!                      value -> its symbols -> the challenger                  value -> its symbols -> the challenger
//! challenge_scalar ..  the challenger -> value                challenge_scalar ..    the challenger -> value
//! observe_extension .. value -> its symbols -> the challenger observe_extension ..   the same
//! add_hint             bytes -> the proof                     next_hint        the proof -> bytes
//! finalize             the pattern is played whole            finalize         the same, and the proof is read whole
//! ```
//!
//! Each step is compared with the pattern first.
ghost use Rattle.std.specs.{Borrow.sem, Prelude.{◌≡◌, [], length, OnOk, IfOk, IfErr, IsOk}};
ghost use Rattle.p3_challenger_core.specs.Reading.{AreBytes};
ghost use Rattle.p3_domain_separator.specs.SeparatorSeed.{seed_of_separator, pattern_of};
ghost use Rattle.p3_driver_core.specs.{Driving.RefusesStart, Reads.trailing_bytes, Verifying.{EndsReading, RefusesEnd}};
ghost use Rattle.p3_driver_core.specs.Transcripts.{halted, RefusesPlayEnd};
ghost use Rattle.p3_drivers.specs.DriverLends.{lends_challenger};
ghost use Rattle.p3_drivers.specs.Drivers.{driving_of, played_by, proving_of, verifying_of, beginning};
ghost use Rattle.p3_fs_core.specs.Errors.{IsBadShape};
ghost use Rattle.p3_patterns.specs.Playing.{IsPlayed};

mod draws;
mod markers;
mod observes;
mod receives;
mod sends;
mod symmetric;
mod work;

use crate::tape::{Tape, Unread, Written};
use p3_challenger_core::{CanObserve, Sponge};
use p3_codecs::Unit;
use p3_domain_separator::DomainSeparator;
use p3_driver_core::{Steps, slices_are_bytes};
use p3_fs_core::TranscriptError;
use p3_symmetric::DigestHasher;
use std::alloc::Global;
use std::marker::PhantomData;

/// One side of a transcript: it plays a pattern step by step while it writes or reads the proof.
///
/// `C` is the challenger, `U` the alphabet in which it observes bytes, and `D` the hash function for the digests of
/// algebras and of the pattern. `P` is the proof in the form of the side. The two sides are [`ProverState`] and
/// [`VerifierState`].
///
/// A step is refused with [`TranscriptError::Pattern`] where it may not be played. The reason is
/// [`PatternError::Finished`](p3_fs_core::PatternError::Finished) once a step was refused,
/// [`PatternError::NoMoreSteps`](p3_fs_core::PatternError::NoMoreSteps) at the end of the pattern, and
/// [`PatternError::WrongStep`](p3_fs_core::PatternError::WrongStep) where the pattern has another step next. Then
/// nothing is absorbed, written or read. The pattern's next step is refused with [`TranscriptError::Challenger`] where
/// the challenger or the alphabet refuses it. It is refused with [`TranscriptError::OutOfMemory`] after a prefix of its
/// values is absorbed or drawn. All this holds for every step of either side, in addition to the errors of the step.
///
/// A refused step leaves the driver finished. The driver must still be spent, by `finalize`, by `finish` or by
/// [`abort`](DriverState::abort).
///
/// In the Rust crate the prover and the verifier are two types.
#[derive_where(Debug; C, P)]
pub struct DriverState<C, U, D: DigestHasher, P> {
    challenger: C,
    steps: Steps<D>,
    tape: P,
    // Where lists are kept.
    alloc: Global,
    unit: PhantomData<U>,
}

/// The prover's side of a transcript: it plays a pattern step by step and writes the proof.
///
/// The challenger observes each value that is sent, and the proof receives it after that. A hint is only written.
///
/// The errors are those of [`DriverState`]. With [`TranscriptError::Challenger`] nothing is written, and with
/// [`TranscriptError::OutOfMemory`] a prefix of the step's bytes is written.
///
/// Corresponds to the Rust crate's `ProverState`, which panics where a step is refused here, and where it is dropped
/// unfinished.
pub type ProverState<C, U, D> = DriverState<C, U, D, Written>;

/// The verifier's side of a transcript: it plays a pattern step by step and reads the proof.
///
/// The proof belongs to the caller, and steps that read bytes borrow them from it. The challenger observes what is
/// read, except hints. It observes each value of a list before the next one is read.
///
/// The errors are those of [`DriverState`], and [`TranscriptError::BadProofShape`] where the proof does not have what the
/// pattern's next step reads. Then no missing byte is consumed, and nothing of a single value or of bytes is absorbed. Of
/// a list, its count and the values before the invalid one are absorbed. With [`TranscriptError::OutOfMemory`] a suffix
/// of the bytes is left unread.
///
/// The reason is `NARG ended before all expected bytes were read` where bytes are missing. It is `message length
/// exceeds declared maximum` or `hint length exceeds declared maximum` where a count is above its maximum. It is `step
/// declares more values than the wire holds` where the bytes left cannot hold a list. Else it is the reason of the
/// codec or of the step.
///
/// Corresponds to the Rust crate's `VerifierState`, which panics on a step that is not the next one, and where it is
/// dropped unfinished.
pub type VerifierState<'a, C, U, D> = DriverState<C, U, D, Unread<'a>>;

impl<U: Unit, C: CanObserve<U::Item> + Drop, D: DigestHasher> ProverState<C, U, D> {
    /// Returns a prover before its first step, whose challenger has observed the seed of the separator.
    ///
    /// Condition: `U` is an alphabet. The errors are
    /// [`ChallengerError::TooLong`](p3_challenger_core::ChallengerError::TooLong) in [`TranscriptError::Challenger`],
    /// where the seed is too long for the alphabet, and [`TranscriptError::OutOfMemory`]. The challenger is dropped
    /// then. In the Rust crate this function returns no error.
    pub fn new(
        alloc: Global,
        challenger: C,
        separator: &DomainSeparator<U, D>,
    ) -> Result<Self, TranscriptError>
        requires { U.is_alphabet }
        ensures ok { IfOk result
            (λ prover. proving_of C.state prover ≡ beginning C.observation (C.state challenger)
            (U.items (seed_of_separator D.digest_of separator.now)) (pattern_of separator.now) []) }
        ensures fits { OnOk result
            (U.is_too_long (length (seed_of_separator D.digest_of separator.now)) → ⊥) }
        ensures err { IfErr result
            (RefusesStart (U.is_too_long (length (seed_of_separator D.digest_of separator.now)))) }
    {
        let tape = Written {
            narg: Vec::new(alloc),
        };
        DriverState::begin_with(alloc, challenger, separator, tape)
    }
}

impl<'a, U: Unit, C: CanObserve<U::Item> + Drop, D: DigestHasher> VerifierState<'a, C, U, D> {
    /// Returns a verifier of a proof before its first step, whose challenger has observed the seed of the separator.
    ///
    /// The condition and the errors are those of the prover's `new`.
    pub fn new(
        alloc: Global,
        challenger: C,
        separator: &DomainSeparator<U, D>,
        narg: &'a [u8],
    ) -> Result<Self, TranscriptError>
        requires { U.is_alphabet }
        ensures ok { IfOk result (λ verifier. verifying_of C.state verifier
            ≡ beginning C.observation (C.state challenger) (U.items
            (seed_of_separator D.digest_of separator.now)) (pattern_of separator.now) narg.now) }
        ensures fits { OnOk result
            (U.is_too_long (length (seed_of_separator D.digest_of separator.now)) → ⊥) }
        ensures err { IfErr result
            (RefusesStart (U.is_too_long (length (seed_of_separator D.digest_of separator.now)))) }
    {
        DriverState::begin_with(alloc, challenger, separator, Unread { bytes: narg })
    }
}

impl<U: Unit, C: CanObserve<U::Item> + Drop, D: DigestHasher, P: Tape> DriverState<C, U, D, P> {
    // A driver over the tape, of which no step was played yet.
    fn begin_with(
        alloc: Global,
        mut challenger: C,
        separator: &DomainSeparator<U, D>,
        tape: P,
    ) -> Result<Self, TranscriptError>
        requires { U.is_alphabet }
        ensures ok { IfOk result
            (λ driver. driving_of C.state P.bytes driver ≡ beginning C.observation
            (C.state challenger) (U.items (seed_of_separator D.digest_of separator.now))
            (pattern_of separator.now) (P.bytes tape)) }
        ensures fits { OnOk result
            (U.is_too_long (length (seed_of_separator D.digest_of separator.now)) → ⊥) }
        ensures err { IfErr result
            (RefusesStart (U.is_too_long (length (seed_of_separator D.digest_of separator.now)))) }
    {
        separator.seed(&mut challenger)?;
        let steps = Steps::new(alloc, separator.pattern().clone()?)?;
        Ok(DriverState {
            challenger,
            steps,
            tape,
            alloc,
            unit: PhantomData,
        })
    }
}

impl<C: Sponge, U, D: DigestHasher, P: Tape> DriverState<C, U, D, P> {
    /// Returns the challenger.
    pub fn challenger(&self) -> &C
        ensures { C.state result.now ≡ (played_by C.state self.now).challenger }
    {
        &self.challenger
    }

    /// Returns the challenger by `&mut`, for calls that the caller makes on it between steps.
    ///
    /// When the loan ends, the driver has the challenger that the caller left, and is otherwise unchanged. The next
    /// step is played from there, the pattern's order is kept, and the bytes of the proof are those of its steps. The
    /// two sides draw the same challenges only if both callers made the same changes between the same steps.
    pub fn challenger_mut(&mut self) -> &mut C
        ensures* writes_back { sem 𝓛
            (lends_challenger C.row U.row D.row P.row D.DigestHasher self.entry result) }
        ensures lent { C.state result.now ≡ (played_by C.state self.old).challenger }
    {
        &mut self.challenger
    }

    /// Ends the play, as a refused step does. It is for a caller whose own work between two steps fails, because memory
    /// is refused, say.
    ///
    /// From then on each step, and the end, is refused with
    /// [`PatternError::Finished`](p3_fs_core::PatternError::Finished). The challenger and the bytes of the proof stay
    /// as they are. Not in the Rust crate.
    pub fn halt(&mut self)
        ensures transcript { played_by C.state self.new ≡ halted (played_by C.state self.old) }
        ensures bytes { (driving_of C.state P.bytes self.new).bytes
            ≡ (driving_of C.state P.bytes self.old).bytes }
    {
        self.steps.halt();
    }
}

impl<C: Sponge + Drop, U, D: DigestHasher, P: Tape> DriverState<C, U, D, P> {
    /// Gives up and spends the driver, without a check of what was played. The Rust crate takes the driver by
    /// reference.
    pub fn abort(self) {
        let DriverState {
            challenger: _,
            steps,
            tape: _,
            alloc: _,
            unit: _,
        } = self;
        steps.abort();
    }
}

impl<C: Sponge + Drop, U, D: DigestHasher> ProverState<C, U, D> {
    /// Returns the bytes of the proof so far.
    pub fn narg(&self) -> &[u8]
        ensures narg { result.now ≡ (proving_of C.state self.now).bytes }
        ensures bytes { AreBytes result.now }
    {
        let narg = &self.tape.narg[..];
        slices_are_bytes(narg);
        narg
    }

    /// Spends the prover and returns the bytes of the proof. The result is `Ok` exactly where no step was refused and
    /// none is left.
    ///
    /// Else the error is [`PatternError::Finished`](p3_fs_core::PatternError::Finished) where a step was refused, and
    /// [`PatternError::Unplayed`](p3_fs_core::PatternError::Unplayed) with the next step where one is left. This call
    /// takes no memory. The Rust crate panics in place of both errors.
    pub fn finalize(self) -> Result<Vec<u8>, TranscriptError>
        ensures ok { IfOk result (λ narg. IsPlayed (proving_of C.state self).transcript.playing
            × (narg.items ≡ (proving_of C.state self).bytes)) }
        ensures err { IfErr result (RefusesPlayEnd (proving_of C.state self).transcript.playing) }
        ensures only { IsPlayed (proving_of C.state self).transcript.playing → IsOk result }
    {
        let (narg, _challenger) = self.finish()?;
        Ok(narg)
    }

    /// Spends the prover as [`finalize`](ProverState::finalize) does, and returns the bytes of the proof and the
    /// challenger.
    ///
    /// The errors are those of [`finalize`](ProverState::finalize). Not in the Rust crate.
    pub fn finish(self) -> Result<(Vec<u8>, C), TranscriptError>
        ensures ok { IfOk result (λ end. IsPlayed (proving_of C.state self).transcript.playing
            × (end.0.items ≡ (proving_of C.state self).bytes)
            × (C.state end.1 ≡ (proving_of C.state self).transcript.challenger)) }
        ensures err { IfErr result (RefusesPlayEnd (proving_of C.state self).transcript.playing) }
        ensures only { IsPlayed (proving_of C.state self).transcript.playing → IsOk result }
    {
        let DriverState {
            challenger,
            steps,
            tape,
            alloc: _,
            unit: _,
        } = self;
        steps.finalize()?;
        Ok((tape.narg, challenger))
    }
}

impl<'a, C: Sponge + Drop, U, D: DigestHasher> VerifierState<'a, C, U, D> {
    /// Returns how many bytes of the proof are left to read.
    pub fn remaining_narg(&self) -> usize
        ensures { result ≡ length (verifying_of C.state self.now).bytes }
    {
        let unread = self.unread();
        unread.len()
    }

    /// Returns the bytes of the proof that are left to read. Not in the Rust crate.
    pub fn unread(&self) -> &'a [u8]
        ensures unread { result.now ≡ (verifying_of C.state self.now).bytes }
        ensures bytes { AreBytes result.now }
    {
        slices_are_bytes(self.tape.bytes);
        self.tape.bytes
    }

    /// Spends the verifier, and returns one at the same step with the same challenger, whose unread bytes are `narg`.
    ///
    /// A caller that keeps the proof itself lends it for a step at a time by this call: what `unread` returned after one
    /// step is what is lent for the next. Not in the Rust crate.
    pub fn with_unread<'b>(self, narg: &'b [u8]) -> VerifierState<'b, C, U, D>
        ensures transcript { played_by C.state result ≡ played_by C.state self.entry }
        ensures unread { (verifying_of C.state result).bytes ≡ narg.now }
    {
        let DriverState {
            challenger,
            steps,
            tape: _,
            alloc,
            unit,
        } = self;
        DriverState {
            challenger,
            steps,
            tape: Unread { bytes: narg },
            alloc,
            unit,
        }
    }

    /// Spends the verifier. The result is `Ok` exactly where no step was refused, none is left, and the whole proof was
    /// read.
    ///
    /// Else the error is [`PatternError::Finished`](p3_fs_core::PatternError::Finished) where a step was refused. It is
    /// [`PatternError::Unplayed`](p3_fs_core::PatternError::Unplayed) with the next step where one is left. Where only
    /// bytes are left, it is [`TranscriptError::BadProofShape`] with `trailing NARG bytes after final verifier step`.
    /// This call takes no memory. The Rust crate panics in place of the first two.
    pub fn finalize(self) -> Result<(), TranscriptError>
        ensures ok { OnOk result (EndsReading (verifying_of C.state self.entry)) }
        ensures err { IfErr result (RefusesEnd (verifying_of C.state self.entry)) }
        ensures only { EndsReading (verifying_of C.state self.entry) → IsOk result }
    {
        let _challenger = self.finish()?;
        Ok(())
    }

    /// Spends the verifier as [`finalize`](VerifierState::finalize) does, and returns the challenger.
    ///
    /// The errors are those of [`finalize`](VerifierState::finalize). Not in the Rust crate.
    pub fn finish(self) -> Result<C, TranscriptError>
        ensures ok { IfOk result (λ challenger. EndsReading (verifying_of C.state self.entry)
            × (C.state challenger ≡ (verifying_of C.state self.entry).transcript.challenger)) }
        ensures err { IfErr result (RefusesEnd (verifying_of C.state self.entry)) }
        ensures only { EndsReading (verifying_of C.state self.entry) → IsOk result }
    {
        let DriverState {
            challenger,
            steps,
            tape,
            alloc: _,
            unit: _,
        } = self;
        steps.finalize()?;
        check_end(tape.bytes)?;
        Ok(challenger)
    }
}

// No bytes are left.
fn check_end(unread: &[u8]) -> Result<(), TranscriptError>
    ensures ok { OnOk result (unread.now ≡ []) }
    ensures err { IfErr result (IsBadShape trailing_bytes) }
    ensures only { unread.now ≡ [] → IsOk result }
{
    if !unread.is_empty() {
        return Err(TranscriptError::BadProofShape {
            reason: "trailing NARG bytes after final verifier step",
        });
    }
    Ok(())
}
