//! One side of a transcript that a suite plays.
ghost use Rattle.std.specs.Prelude.{◌≡◌, ◌⊎◌, ◌<◌, [], IfOk, IfErr};
ghost use Rattle.tealmuze_calls.specs.Written.{ByAnswer};
ghost use Rattle.tealmuze_calls.specs.declared.unanswered.Unanswered.TheVariants.{OutOfMemory};
ghost use Rattle.tealmuze_live.specs.{Lives.IsNotBegun, Sides.TellsOfSide, Starts.SideIsAtStart};

use crate::prover::Prover;
use crate::starts::Starts;
use crate::tells::Tells;
use crate::verifier::Verifier;
use p3_challenger::Sponge;
use p3_challenger::fs::TranscriptError;
use p3_challenger::fs::script::{Fault, Meaning, Suite};
use p3_field::{BasedVectorSpace, PrimeCharacteristicRing};
use std::alloc::Global;
use tealmuze_calls::{Answer, Called, Cursor, Protocol, Unanswered, refused};

/// One side of a transcript that a suite plays.
pub enum Side<'a, S: Called> {
    /// It writes the proof.
    Prover(Prover<'a, S>),
    /// It reads the proof.
    Verifier(Verifier<'a, S>),
    /// It has ended.
    Ended,
}

impl<S: Called> Drop for Side<'_, S> {
    fn drop(self) {
        self.abort();
    }
}

/// Why a side is not made: what is told of the refusal of its seed, or that memory ran out.
#[derive(Drop)]
pub struct NotBegun {
    /// What there is for the caller.
    pub found: Result<Answer, Unanswered>,
}

fn not_begun(alloc: Global, error: TranscriptError) -> NotBegun
    ensures { IsNotBegun result.found }
{
    let found = match refused(alloc, &Fault { position: 0, error }) {
        Ok(bytes) => Ok(Answer::Told(bytes)),
        Err(reason) => Err(reason),
    };
    NotBegun { found }
}

// What a side answers at its end may have so many bytes, beside those of a proof.
const END_ROOM: usize = 1024;

impl<S: Called> Tells for Side<'_, S> {
    ghost tells = { λ degree was request told is.
        let rules = ⟦<S as Meaning>⟧.rules degree in
        TellsOfSide rules S.Field.residues.number S.Extension.coefficients S.opaque_numbers S.are_opaque
        S.Challenger.state was request told is };
}

impl<S: Called> Starts for Side<'_, S> {
    type Played = Protocol<S>;

    ghost starts = { λ degree protocol proof side.
        let rules = ⟦<S as Meaning>⟧.rules degree in
        SideIsAtStart rules S.is_fresh S.Challenger.state protocol proof side };
}

impl<'a, S: Called> Side<'a, S> {
    /// Returns a prover at the start of the protocol.
    ///
    /// The error tells that the seed is refused, as it is where it is too long for the alphabet, or that memory ran out.
    pub fn prover(alloc: Global, protocol: &'a Protocol<S>) -> Result<Side<'a, S>, NotBegun>
        ensures ok { IfOk result (⟦<Side<'a, S> as Starts>⟧.starts S.Field.DIMENSION protocol.now None) }
        ensures err { IfErr result (λ e. IsNotBegun e.found) }
    {
        match Prover::new(alloc, protocol) {
            Ok(prover) => Ok(Side::Prover(prover)),
            Err(error) => Err(not_begun(alloc, error)),
        }
    }

    /// Returns a verifier of the proof, which is copied, at the start of the protocol.
    ///
    /// The errors are those of [`Side::prover`].
    pub fn verifier(
        alloc: Global,
        protocol: &'a Protocol<S>,
        proof: &[u8],
    ) -> Result<Side<'a, S>, NotBegun>
        ensures ok { IfOk result
            (⟦<Side<'a, S> as Starts>⟧.starts S.Field.DIMENSION protocol.now (Some proof.now)) }
        ensures err { IfErr result (λ e. IsNotBegun e.found) }
    {
        let Ok(proof) = Vec::from_slice(alloc, proof) else {
            return Err(not_begun(alloc, TranscriptError::OutOfMemory));
        };
        match Verifier::new(alloc, protocol, proof) {
            Ok(verifier) => Ok(Side::Verifier(verifier)),
            Err(error) => Err(not_begun(alloc, error)),
        }
    }

    /// Plays the step that is asked for; or ends where the request has no bytes. `room` bytes are given for the answer:
    /// where it may have more, nothing is done.
    pub fn step(
        self,
        alloc: Global,
        request: &[u8],
        room: usize,
    ) -> (Side<'a, S>, Result<Answer, Unanswered>)
        ensures ok { IfOk result.1 (ByAnswer
            (λ told. ⟦<Side<'a, S> as Tells>⟧.tells S.Field.DIMENSION self.entry request.now told result.0)
            (λ wanted. (room < wanted) × (result.0 ≡ self.entry))) }
        ensures err { IfErr result.1 (λ e. (result.0 ≡ self.entry) ⊎ (e ≡ OutOfMemory)) }
    {
        if request.is_empty() {
            return self.end(alloc, room);
        }
        match self {
            Side::Prover(prover) => {
                let mut prover = prover;
                let answer = prover.play(alloc, Cursor::new(request), room);
                (Side::Prover(prover), answer)
            }
            Side::Verifier(verifier) => {
                let (verifier, answer) = verifier.play(alloc, Cursor::new(request), room);
                (Side::Verifier(verifier), answer)
            }
            Side::Ended => (Side::Ended, Err(Unanswered::Ended)),
        }
    }

    // Ends the transcript.
    fn end(self, alloc: Global, room: usize) -> (Side<'a, S>, Result<Answer, Unanswered>)
        ensures ok { IfOk result.1 (ByAnswer
            (λ told. ⟦<Side<'a, S> as Tells>⟧.tells S.Field.DIMENSION self.entry [] told result.0)
            (λ wanted. (room < wanted) × (result.0 ≡ self.entry))) }
        ensures err { IfErr result.1 (λ e. (result.0 ≡ self.entry) ⊎ (e ≡ OutOfMemory)) }
    {
        let wanted = self.end_room();
        if wanted > room {
            return (self, Ok(Answer::Wants(wanted)));
        }
        match self {
            Side::Prover(prover) => match prover.finish(alloc) {
                Ok(bytes) => (Side::Ended, Ok(Answer::Told(bytes))),
                Err(reason) => (Side::Ended, Err(reason)),
            },
            Side::Verifier(verifier) => match verifier.finish(alloc) {
                Ok(bytes) => (Side::Ended, Ok(Answer::Told(bytes))),
                Err(reason) => (Side::Ended, Err(reason)),
            },
            Side::Ended => (Side::Ended, Err(Unanswered::Ended)),
        }
    }

    /// Gives up, wherever the transcript stands.
    pub fn abort(self) {
        match self {
            Side::Prover(prover) => prover.abort(),
            Side::Verifier(verifier) => verifier.abort(),
            Side::Ended => {}
        }
    }

    fn end_room(&self) -> usize {
        match self {
            Side::Prover(prover) => prover.end_room(),
            _ => END_ROOM,
        }
    }
}
