//! The steps of proof of work: a prover searches for a witness, and a verifier checks it.
ghost use Rattle.std.specs.Prelude.{◌≡◌, ◌≤◌};
ghost use Rattle.p3_driver_core.specs.{Proving.{GrindsAndWrites, GrindsAndKeeps}, Reads.AnswersRead};
ghost use Rattle.p3_driver_core.specs.{Verifying.{ReceivesWork, ChecksAndKeeps}, Working.work_of};
ghost use Rattle.p3_fs_core.specs.{Scalar.encoding, declared.step.{Kind.TheVariants.Pow, Length.TheVariants.Fixed}};
ghost use Rattle.p3_drivers.specs.Drivers.{proving_of, verifying_of};
ghost use Rattle.p3_driver_core.specs.Reads as reads;

use crate::{ProverState, VerifierState};
use p3_driver_core::check_work;
use p3_field_core::{AlgebraIdentity, Named};
use p3_fs_core::{Declared, Kind, Label, Length, TranscriptError, TranscriptField};
use p3_grinding::GrindingChallenger;
use p3_symmetric::DigestHasher;

impl<C: GrindingChallenger, U, D: DigestHasher> ProverState<C, U, D> {
    /// Searches for the least witness that passes a check of `bits` bits, and sends it. The challenger is left as that
    /// check leaves it. With 0 bits each witness passes, and 0 is sent.
    ///
    /// Where no witness passes, the step is refused with
    /// [`ChallengerError::NoWitness`](p3_challenger_core::ChallengerError::NoWitness). Where the search is refused
    /// memory, it is refused with [`TranscriptError::OutOfMemory`]. In both cases the challenger is as it was, and
    /// nothing is written. [`TranscriptError::OutOfMemory`] comes too where the proof is refused memory for the
    /// witness. Then the challenger is as the witness's check leaves it, and a prefix of the witness's bytes is
    /// written. Condition: `bits` is at most [`max_bits`](p3_challenger_core::CanSampleBits::max_bits).
    pub fn pow(&mut self, label: Label, bits: usize) -> Result<(), TranscriptError>
    where
        C::Witness: AlgebraIdentity<C::Witness> + Named,
        requires { bits ≤ C.most_bits }
        ensures { GrindsAndWrites
            (work_of (⟦<C::Witness as Declared<C::Witness, D>>⟧.step Pow label.now (Fixed bits))
            C.Witness.residues C.before_witness C.observation C.bits_sampling bits)
            (encoding C.Witness.residues C.Witness.bit_length) C.may_run_out
            (proving_of C.state self.old) result (proving_of C.state self.new) }
    {
        self.steps
            .take_algebra::<C::Witness, C::Witness>(Kind::Pow, label, Length::Fixed(bits))?;
        let sent = self.challenger.grind(bits)?;
        TranscriptField::encode(&sent, &mut self.tape.narg)?;
        self.steps.done();
        Ok(())
    }

    /// Searches for the least witness that passes a check of `bits` bits, and returns it; the proof does not carry it.
    /// The challenger is left as that check leaves it. With 0 bits each witness passes, and the result is 0.
    ///
    /// The errors and the condition are those of [`pow`](ProverState::pow), but nothing is written. After each error
    /// the challenger is as it was.
    pub fn observe_pow(&mut self, label: Label, bits: usize) -> Result<C::Witness, TranscriptError>
    where
        C::Witness: AlgebraIdentity<C::Witness> + Named,
        requires { bits ≤ C.most_bits }
        ensures { GrindsAndKeeps
            (work_of (⟦<C::Witness as Declared<C::Witness, D>>⟧.step Pow label.now (Fixed bits))
            C.Witness.residues C.before_witness C.observation C.bits_sampling bits) C.may_run_out
            (proving_of C.state self.old) (λ x. x) result (proving_of C.state self.new) }
    {
        self.steps
            .take_algebra::<C::Witness, C::Witness>(Kind::Pow, label, Length::Fixed(bits))?;
        let witness = self.challenger.grind(bits)?;
        self.steps.done();
        Ok(witness)
    }
}

impl<C: GrindingChallenger, U, D: DigestHasher> VerifierState<'_, C, U, D> {
    /// Reads a witness and checks that the next `bits` bits drawn are 0. With 0 bits each witness passes, and is still
    /// read.
    ///
    /// Where too few bits are 0, the step is refused with [`TranscriptError::BadProofShape`] and `pow witness does not
    /// produce enough zero bits`, after the check. Bytes that encode no witness are consumed.
    /// [`TranscriptError::OutOfMemory`] comes only where the check is refused memory. Then the witness is read, and the
    /// challenger is as that check leaves it. Condition: `bits` is at most
    /// [`max_bits`](p3_challenger_core::CanSampleBits::max_bits).
    pub fn check_pow(&mut self, label: Label, bits: usize) -> Result<(), TranscriptError>
    where
        C::Witness: AlgebraIdentity<C::Witness> + Named,
        requires { bits ≤ C.most_bits }
        ensures { ReceivesWork
            (work_of (⟦<C::Witness as Declared<C::Witness, D>>⟧.step Pow label.now (Fixed bits))
            C.Witness.residues C.before_witness C.observation C.bits_sampling bits)
            (encoding C.Witness.residues C.Witness.bit_length)
            (verifying_of C.state self.old) result (verifying_of C.state self.new) }
    {
        self.steps
            .take_algebra::<C::Witness, C::Witness>(Kind::Pow, label, Length::Fixed(bits))?;
        let sent = self.read_witness()?;
        check_work(&mut self.challenger, bits, sent)?;
        self.steps.done();
        Ok(())
    }

    /// Checks a witness that the caller carries: the next `bits` bits drawn are 0. With 0 bits each witness passes.
    ///
    /// Where too few bits are 0, or the check is refused memory, the step is refused as by
    /// [`check_pow`](VerifierState::check_pow). Condition: `bits` is at most
    /// [`max_bits`](p3_challenger_core::CanSampleBits::max_bits).
    pub fn observe_pow(
        &mut self,
        label: Label,
        bits: usize,
        witness: C::Witness,
    ) -> Result<(), TranscriptError>
    where
        C::Witness: AlgebraIdentity<C::Witness> + Named,
        requires { bits ≤ C.most_bits }
        ensures { ChecksAndKeeps
            (work_of (⟦<C::Witness as Declared<C::Witness, D>>⟧.step Pow label.now (Fixed bits))
            C.Witness.residues C.before_witness C.observation C.bits_sampling bits) witness
            (verifying_of C.state self.old) result (verifying_of C.state self.new) }
    {
        self.steps
            .take_algebra::<C::Witness, C::Witness>(Kind::Pow, label, Length::Fixed(bits))?;
        check_work(&mut self.challenger, bits, witness)?;
        self.steps.done();
        Ok(())
    }

    // Reads a witness.
    fn read_witness(&mut self) -> Result<C::Witness, TranscriptError>
        ensures read { AnswersRead (reads.read_value {S = C.State} (encoding C.Witness.residues
            C.Witness.bit_length) self.old.tape.bytes.now) (λ x. x) result self.new.tape.bytes.now }
        ensures steps { self.new.steps ≡ self.old.steps }
        ensures challenger { self.new.challenger ≡ self.old.challenger }
    {
        let bytes = self.read_bytes(C::Witness::wire_len())?;
        TranscriptField::decode(bytes)
    }
}
