//! A verifier that is played step by step, and keeps its proof.
ghost use Rattle.std.specs.Prelude.{◌≡◌, ◌↔◌, ◌⊎◌, ◌<◌, IfOk, IfErr, IsTrue};
ghost use Rattle.p3_challenger.specs.{Drivers.verifying_of, Scripts.play_of, Stepping.IsCarriedTo};
ghost use Rattle.tealmuze_calls.specs.declared.unanswered.Unanswered.TheVariants.{OutOfMemory};
ghost use Rattle.tealmuze_calls.specs.{Descriptions.IsRead, Forms.scalar_bytes, Written.ByAnswer};
ghost use Rattle.tealmuze_live.specs.Lives.{ByTold, HasEnded, bytes_if_given, TellsOfTaking, TellsOfVerifierEnd, TellsTaken, TellsNotTaken};
ghost use Rattle.tealmuze_live.specs.{Readings.reading_of, Starts.VerifierIsAtStart};

use crate::request::{parse_carried, parse_next_step};
use crate::telling::{Told, told_of_received};
use p3_challenger::Sponge;
use p3_challenger::fs::script::{Fault, Meaning, Step, Suite, step_admitted, verifier_step};
use p3_challenger::fs::{TranscriptError, VerifierState};
use p3_field::{BasedVectorSpace, PrimeCharacteristicRing};
use std::alloc::Global;
use tealmuze_calls::{
    Answer, Called, Cursor, DONE, Protocol, Unanswered, refused, wanted_room_of_step,
};

/// A verifier of a protocol, between two steps, and the proof that it reads.
pub struct Verifier<'a, S: Called> {
    protocol: &'a Protocol<S>,
    proof: Vec<u8>,
    // How many bytes of the proof are left to read.
    left: usize,
    // It is lent the proof for one step at a time, and has no bytes to read in between.
    driver: VerifierState<
        'static,
        <S as Suite>::Challenger,
        <S as Suite>::Unit,
        <S as Suite>::Digest,
    >,
    // How many steps were played.
    position: usize,
}

impl<S: Called> Drop for Verifier<'_, S> {
    fn drop(self) {
        self.abort();
    }
}

// What is asked of a verifier: a step, and the witness that is carried to it.
#[derive(Drop)]
struct Asked<S: Called> {
    step: Step<S>,
    witness: Option<S::Field>,
}

impl<'a, S: Called> Verifier<'a, S> {
    /// Returns a verifier of the proof at the start of the protocol: its challenger observed nothing but the seed, no step was
    /// played, and the whole proof is left to read.
    ///
    /// The errors are those of [`VerifierState::new`].
    pub fn new(
        alloc: Global,
        protocol: &'a Protocol<S>,
        proof: Vec<u8>,
    ) -> Result<Verifier<'a, S>, TranscriptError>
        ensures { let rules = ⟦<S as Meaning>⟧.rules S.Field.DIMENSION in
            IfOk result (VerifierIsAtStart rules S.is_fresh S.Challenger.state protocol.now proof.items) }
    {
        let driver = VerifierState::new(alloc, S::fresh(alloc), &protocol.separator, &[])?;
        let left = proof.len();
        Ok(Verifier {
            protocol,
            proof,
            left,
            driver,
            position: 0,
        })
    }

    /// Gives up, wherever the transcript stands.
    pub fn abort(self) {
        let Verifier {
            protocol: _,
            proof: _,
            left: _,
            driver,
            position: _,
        } = self;
        driver.abort();
    }

    /// Plays the step that is asked for, with the witness that is carried there. `room` bytes are given for the answer:
    /// where it may have more, nothing is played.
    ///
    /// After an error other than [`Unanswered::OutOfMemory`] nothing was played.
    pub fn play(
        self,
        alloc: Global,
        request: Cursor<'_>,
        room: usize,
    ) -> (Verifier<'a, S>, Result<Answer, Unanswered>)
        ensures ok { let rules = ⟦<S as Meaning>⟧.rules S.Field.DIMENSION in IfOk result.1 (ByAnswer
            (TellsOfTaking S S.Unit S.Challenger S.Codec S.Digest S.Group
            rules S.Field.residues.number S.Extension.coefficients S.opaque_numbers S.are_opaque
            request.entry.left.now self.entry.position (reading_of S.Challenger.state self.entry)
            (reading_of S.Challenger.state result.0))
            (λ wanted. (room < wanted) × (result.0 ≡ self.entry))) }
        ensures err { IfErr result.1 (λ e. (result.0 ≡ self.entry)
            ⊎ ((e ≡ OutOfMemory) × HasEnded (reading_of S.Challenger.state result.0))) }
    {
        let asked = match read_asked(alloc, self.protocol, self.position, request) {
            Ok(asked) => asked,
            Err(reason) => return (self, Err(reason)),
        };
        let wanted = wanted_room_of_step(&asked.step, self.left);
        if wanted > room {
            return (self, Ok(Answer::Wants(wanted)));
        }
        self.play_step(alloc, &asked.step, asked.witness)
    }

    // Lends the proof for a step, and plays it.
    fn play_step(
        self,
        alloc: Global,
        step: &Step<S>,
        witness: Option<S::Field>,
    ) -> (Verifier<'a, S>, Result<Answer, Unanswered>)
        requires admitted { (play_of (⟦<S as Meaning>⟧.rules S.Field.DIMENSION) step.now).admitted }
        requires carried { let rules = ⟦<S as Meaning>⟧.rules S.Field.DIMENSION in
            IsCarriedTo (play_of rules step.now).place witness }
        ensures ok { let rules = ⟦<S as Meaning>⟧.rules S.Field.DIMENSION in IfOk result.1 (ByAnswer
            (λ told. TellsTaken rules S.Field.residues.number S.Extension.coefficients step.now witness
            (reading_of S.Challenger.state self.entry) (reading_of S.Challenger.state result.0) told
            ⊎ TellsNotTaken rules S.Field.residues.number S.Extension.coefficients step.now witness self.entry.position
            (reading_of S.Challenger.state self.entry) (reading_of S.Challenger.state result.0) told) (λ wanted. ⊥)) }
        ensures err { IfErr result.1 (λ e. (e ≡ OutOfMemory)
            × HasEnded (reading_of S.Challenger.state result.0)) }
    {
        let Verifier {
            protocol,
            proof,
            left,
            driver,
            position,
        } = self;
        let read = proof.len().saturating_sub(left);
        let mut driver = driver.with_unread(&proof[read..]);
        let told = take(alloc, &mut driver, step, witness, position);
        let left = driver.remaining_narg();
        let driver = driver.with_unread(&[]);
        let mut verifier = Verifier {
            protocol,
            proof,
            left,
            driver,
            position,
        };
        match told {
            Ok(told) => match told {
                Told::Played(bytes) => {
                    verifier.position = position.saturating_add(1);
                    (verifier, Ok(Answer::Told(bytes)))
                }
                Told::Refused(bytes) => (verifier, Ok(Answer::Told(bytes))),
            },
            Err(reason) => (verifier, Err(reason)),
        }
    }

    /// Ends the transcript. The answer of the end has at most 1024 bytes.
    pub fn finish(self, alloc: Global) -> Result<Vec<u8>, Unanswered>
        ensures ok { IfOk result (λ bytes. TellsOfVerifierEnd self.entry.position
            (reading_of S.Challenger.state self.entry) bytes.items) }
        ensures err { IfErr result (λ e. e ≡ OutOfMemory) }
    {
        let Verifier {
            protocol: _,
            proof,
            left,
            driver,
            position,
        } = self;
        let read = proof.len().saturating_sub(left);
        match driver.with_unread(&proof[read..]).finalize() {
            Ok(()) => {
                let mut bytes = Vec::new(alloc);
                bytes.push(DONE)?;
                Ok(bytes)
            }
            Err(error) => refused(alloc, &Fault { position, error }),
        }
    }
}

// Reads what is asked of a verifier at a step that its suite plays.
fn read_asked<S: Called>(
    alloc: Global,
    protocol: &Protocol<S>,
    position: usize,
    request: Cursor<'_>,
) -> Result<Asked<S>, Unanswered>
    ensures admitted { let rules = ⟦<S as Meaning>⟧.rules S.Field.DIMENSION in
        IfOk result (λ asked. (play_of rules asked.step).admitted) }
    ensures carried { let rules = ⟦<S as Meaning>⟧.rules S.Field.DIMENSION in
        IfOk result (λ asked. IsCarriedTo (play_of rules asked.step).place asked.witness) }
    ensures asked { IfOk result (λ asked. IsRead S.Field.residues.number S.Extension.coefficients S.opaque_numbers
        S.are_opaque request.entry.left.now
        (bytes_if_given (scalar_bytes S.Field.residues.number S.Extension.coefficients) asked.witness) asked.step) }
{
    let mut from = request;
    let step = parse_next_step(alloc, protocol, position, &mut from)?;
    let witness = parse_carried::<S>(&mut from)?;
    if !step_admitted(&step) {
        return Err(Unanswered::NotPlayed);
    }
    if !is_carried(&step, witness) {
        return Err(Unanswered::Carried);
    }
    Ok(Asked { step, witness })
}

// Whether there is a witness exactly where the step is carried one.
fn is_carried<S: Called>(step: &Step<S>, witness: Option<S::Field>) -> bool
    ensures { let rules = ⟦<S as Meaning>⟧.rules S.Field.DIMENSION in
        IsTrue result ↔ IsCarriedTo (play_of rules step.now).place witness }
{
    match step {
        Step::ObservePow { .. } => witness.is_some(),
        _ => witness.is_none(),
    }
}

// Plays a step with the witness that is carried there, and tells of it. After an error no step may follow.
fn take<S: Called>(
    alloc: Global,
    driver: &mut VerifierState<'_, S::Challenger, S::Unit, S::Digest>,
    step: &Step<S>,
    witness: Option<S::Field>,
    position: usize,
) -> Result<Told, Unanswered>
    requires admitted { (play_of (⟦<S as Meaning>⟧.rules S.Field.DIMENSION) step.now).admitted }
    requires carried { let rules = ⟦<S as Meaning>⟧.rules S.Field.DIMENSION in
        IsCarriedTo (play_of rules step.now).place witness }
    ensures ok { let rules = ⟦<S as Meaning>⟧.rules S.Field.DIMENSION in IfOk result (ByTold
        (TellsTaken rules S.Field.residues.number S.Extension.coefficients step.now witness
        (verifying_of S.Challenger.state driver.old) (verifying_of S.Challenger.state driver.new))
        (TellsNotTaken rules S.Field.residues.number S.Extension.coefficients step.now witness position
        (verifying_of S.Challenger.state driver.old) (verifying_of S.Challenger.state driver.new))) }
    ensures err { IfErr result (λ e. (e ≡ OutOfMemory) × HasEnded (verifying_of S.Challenger.state driver.new)) }
{
    match verifier_step(alloc, driver, step, witness) {
        Ok((received, drawn)) => {
            match told_of_received(alloc, received.as_ref(), drawn.as_ref()) {
                Ok(bytes) => Ok(Told::Played(bytes)),
                Err(_) => {
                    driver.halt();
                    Err(Unanswered::OutOfMemory)
                }
            }
        }
        Err(error) => {
            driver.halt();
            Ok(Told::Refused(refused(alloc, &Fault { position, error })?))
        }
    }
}
