//! A prover that is played step by step.
ghost use Rattle.std.specs.Prelude.{◌≡◌, ◌⊎◌, ◌<◌, IfOk, IfErr};
ghost use Rattle.p3_challenger.specs.{Drivers.proving_of, ProverAnswers.value_given, Scripts.play_of};
ghost use Rattle.tealmuze_calls.specs.declared.unanswered.Unanswered.TheVariants.{OutOfMemory};
ghost use Rattle.tealmuze_calls.specs.Written.{ByAnswer};
ghost use Rattle.tealmuze_live.specs.Lives.{ByTold, HasEnded, TellsOfProverEnd, TellsOfSending, TellsSent, TellsNotSent};
ghost use Rattle.tealmuze_live.specs.Starts.{ProverIsAtStart};

use crate::request::{parse_next_step, parse_sent};
use crate::telling::{Told, told_of_sent};
use p3_challenger::Sponge;
use p3_challenger::fs::script::{
    Fault, Meaning, Sent, Step, Suite, prover_step, step_admitted, step_matches,
};
use p3_challenger::fs::{ProverState, TranscriptError};
use p3_field::{BasedVectorSpace, PrimeCharacteristicRing};
use std::alloc::Global;
use tealmuze_calls::{
    Answer, Called, Cursor, DONE, Protocol, Unanswered, put_counted, refused, wanted_room_of_step,
};

/// A prover of a protocol, between two steps.
pub struct Prover<'a, S: Called> {
    protocol: &'a Protocol<S>,
    driver: ProverState<<S as Suite>::Challenger, <S as Suite>::Unit, <S as Suite>::Digest>,
    // How many steps were played.
    position: usize,
}

impl<S: Called> Drop for Prover<'_, S> {
    fn drop(self) {
        self.abort();
    }
}

impl<'a, S: Called> Prover<'a, S> {
    /// Returns a prover at the start of the protocol: its challenger observed nothing but the seed, no step was played, and no
    /// byte of the proof is written.
    ///
    /// The errors are those of [`ProverState::new`].
    pub fn new(alloc: Global, protocol: &'a Protocol<S>) -> Result<Prover<'a, S>, TranscriptError>
        ensures { let rules = ⟦<S as Meaning>⟧.rules S.Field.DIMENSION in
            IfOk result (ProverIsAtStart rules S.is_fresh S.Challenger.state protocol.now) }
    {
        let driver = ProverState::new(alloc, S::fresh(alloc), &protocol.separator)?;
        Ok(Prover {
            protocol,
            driver,
            position: 0,
        })
    }

    /// Gives up, wherever the transcript stands.
    pub fn abort(self) {
        let Prover {
            protocol: _,
            driver,
            position: _,
        } = self;
        driver.abort();
    }

    /// Plays the step that is asked for, with the value that is sent there. `room` bytes are given for the answer: where
    /// it may have more, nothing is played.
    ///
    /// After an error other than [`Unanswered::OutOfMemory`] nothing was played.
    pub fn play(
        &mut self,
        alloc: Global,
        request: Cursor<'_>,
        room: usize,
    ) -> Result<Answer, Unanswered>
        ensures ok { let rules = ⟦<S as Meaning>⟧.rules S.Field.DIMENSION in IfOk result (ByAnswer
            (TellsOfSending S S.Unit S.Challenger S.Codec S.Digest S.Group
            rules S.Field.residues.number S.Extension.coefficients S.opaque_numbers S.are_opaque
            request.entry.left.now self.old.position (proving_of S.Challenger.state self.old.driver)
            (proving_of S.Challenger.state self.new.driver))
            (λ wanted. (room < wanted) × (self.new ≡ self.old))) }
        ensures err { IfErr result (λ e. (self.new ≡ self.old)
            ⊎ ((e ≡ OutOfMemory) × HasEnded (proving_of S.Challenger.state self.new.driver))) }
    {
        let mut from = request;
        let step = parse_next_step(alloc, self.protocol, self.position, &mut from)?;
        let sent = parse_sent::<S>(alloc, &mut from)?;
        if !step_admitted(&step) {
            return Err(Unanswered::NotPlayed);
        }
        let given = sent.as_ref();
        if !step_matches(&step, given) {
            return Err(Unanswered::Values);
        }
        let wanted = wanted_room_of_step(&step, 0);
        if wanted > room {
            return Ok(Answer::Wants(wanted));
        }
        let told = send(alloc, &mut self.driver, &step, given, self.position)?;
        match told {
            Told::Played(bytes) => {
                self.position = self.position.saturating_add(1);
                Ok(Answer::Told(bytes))
            }
            Told::Refused(bytes) => Ok(Answer::Told(bytes)),
        }
    }

    /// Returns how many bytes the answer of the end may have.
    pub fn end_room(&self) -> usize {
        self.driver.narg().len().saturating_add(1024)
    }

    /// Ends the transcript, and tells the proof.
    pub fn finish(self, alloc: Global) -> Result<Vec<u8>, Unanswered>
        ensures ok { IfOk result (λ bytes. TellsOfProverEnd self.entry.position
            (proving_of S.Challenger.state self.entry.driver) bytes.items) }
        ensures err { IfErr result (λ e. e ≡ OutOfMemory) }
    {
        let Prover {
            protocol: _,
            driver,
            position,
        } = self;
        match driver.finalize() {
            Ok(narg) => {
                let mut bytes = Vec::new(alloc);
                bytes.push(DONE)?;
                put_counted(&mut bytes, narg.as_slice())?;
                Ok(bytes)
            }
            Err(error) => refused(alloc, &Fault { position, error }),
        }
    }
}

// Plays a step with what is sent there, and tells of it. After an error no step may follow.
fn send<S: Called>(
    alloc: Global,
    driver: &mut ProverState<S::Challenger, S::Unit, S::Digest>,
    step: &Step<S>,
    sent: Option<&Sent<S>>,
    position: usize,
) -> Result<Told, Unanswered>
    requires admitted { (play_of (⟦<S as Meaning>⟧.rules S.Field.DIMENSION) step.now).admitted }
    requires handed { let rules = ⟦<S as Meaning>⟧.rules S.Field.DIMENSION in
        (play_of rules step.now).IsHanded (value_given sent) }
    ensures ok { let rules = ⟦<S as Meaning>⟧.rules S.Field.DIMENSION in IfOk result (ByTold
        (TellsSent rules S.Field.residues.number S.Extension.coefficients step.now (value_given sent.entry)
        (proving_of S.Challenger.state driver.old) (proving_of S.Challenger.state driver.new))
        (TellsNotSent rules S.Field.residues.number S.Extension.coefficients step.now (value_given sent.entry)
        position (proving_of S.Challenger.state driver.old) (proving_of S.Challenger.state driver.new))) }
    ensures err { IfErr result (λ e. (e ≡ OutOfMemory) × HasEnded (proving_of S.Challenger.state driver.new)) }
{
    match prover_step(alloc, driver, step, sent) {
        Ok((witness, drawn)) => match told_of_sent(alloc, witness, drawn.as_ref()) {
            Ok(bytes) => Ok(Told::Played(bytes)),
            Err(_) => {
                driver.halt();
                Err(Unanswered::OutOfMemory)
            }
        },
        Err(error) => {
            driver.halt();
            Ok(Told::Refused(refused(alloc, &Fault { position, error })?))
        }
    }
}
