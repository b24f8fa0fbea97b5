//! A whole script, on the verifier's side.
ghost use Rattle.std.specs.Prelude.{◌≡◌, ◌≤◌, ◌++◌, length, drop, Some, OnOk, IfOk, IfErr};
ghost use Rattle.p3_fs_core.specs.declared.error.TranscriptError.TheVariants.{OutOfMemory};
ghost use Rattle.p3_drivers.specs.Drivers.{verifying_of};
ghost use Rattle.p3_runs.specs.{Runs.{AreAdmitted, carried_count, if_carried, if_drawn}, Verdicts.script_of};
ghost use Rattle.p3_runs.specs.Stepping.{one_of, IsCarriedTo};
ghost use Rattle.p3_script.specs.ScriptRefusals.{sides_of};
ghost use Rattle.p3_script.specs.Scripts.{play_of, received_of, drawn_of, values_received, challenges_of};
ghost use Rattle.p3_script_verifier.specs.VerifierAnswers.{IsRefused, KeepsStep, IsVerifiedScript, IsRefusedProof};

use crate::stepping::verifier_step;
use p3_challenger_core::Sponge;
use p3_domain_separator::DomainSeparator;
use p3_drivers::VerifierState;
use p3_fs_core::TranscriptError;
use p3_script::{Drawn, Fault, Meaning, Received, Step, Suite, script_steps_are_lawful};
use std::alloc::Global;

/// What a verifier received and drew in an accepted proof, in order, and its challenger. Not in the Rust crate.
#[derive(Drop)]
pub struct Verified<'a, S: Suite> {
    /// One value for each step whose value the proof carries. Bytes are borrowed from the proof.
    pub received: Vec<Received<'a, S>>,
    /// One challenge for each step that draws.
    pub challenges: Vec<Drawn<S>>,
    /// The challenger after the last step.
    pub challenger: S::Challenger,
}

// The witness that the caller carries to a step, if it does and there is one, and that one more was used.
fn witness_for<S: Suite>(step: &Step<S>, carried: &[S::Field], used: &mut usize) -> Option<S::Field>
    ensures carried { let rules = ⟦<S as Meaning>⟧.rules S.Field.DIMENSION in
        let place = (play_of rules step.now).place in length (if_carried place (tt {0}))
        ≤ length (drop used.old carried.now) → IsCarriedTo place result }
    ensures uses { drop used.old carried.now ≡ one_of result ++ drop used.new carried.now }
{
    match step {
        Step::ObservePow { .. } => {
            let witness = *carried.get(*used)?;
            *used += 1;
            Some(witness)
        }
        _ => None,
    }
}

// Keeps what is received, if anything is.
fn keep_received<'a, S: Suite>(
    list: &mut Vec<Received<'a, S>>,
    value: Option<Received<'a, S>>,
) -> Result<(), TranscriptError>
    ensures ok { OnOk result (values_received list.new.items
        ≡ values_received list.old.items ++ received_of value.entry) }
    ensures err { IfErr result (λ e. e ≡ OutOfMemory) }
{
    if let Some(value) = value {
        list.push(value)?;
    }
    Ok(())
}

// Keeps what is drawn, if anything is.
fn keep_drawn<S: Suite>(
    list: &mut Vec<Drawn<S>>,
    value: Option<Drawn<S>>,
) -> Result<(), TranscriptError>
    ensures ok { OnOk result (challenges_of list.new.items
        ≡ challenges_of list.old.items ++ if_drawn (Some (drawn_of value))) }
    ensures err { IfErr result (λ e. e ≡ OutOfMemory) }
{
    if let Some(value) = value {
        list.push(value)?;
    }
    Ok(())
}

// Plays one step, and keeps what is received and drawn.
fn take_step<'a, S: Suite>(
    alloc: Global,
    verifier: &mut VerifierState<'a, S::Challenger, S::Unit, S::Digest>,
    step: &Step<S>,
    witness: Option<S::Field>,
    received: &mut Vec<Received<'a, S>>,
    challenges: &mut Vec<Drawn<S>>,
) -> Result<(), TranscriptError>
    requires admitted { (play_of (⟦<S as Meaning>⟧.rules S.Field.DIMENSION) step.now).admitted }
    requires carried { let rules = ⟦<S as Meaning>⟧.rules S.Field.DIMENSION in
        IsCarriedTo (play_of rules step.now).place witness }
    ensures ok { OnOk result (KeepsStep (⟦<S as Meaning>⟧.rules S.Field.DIMENSION) S.Challenger.state
        step.now witness verifier.old received.old.items challenges.old.items verifier.new
        received.new.items challenges.new.items) }
    ensures err { IfErr result (IsRefused (sides_of (⟦<S as Meaning>⟧.rules S.Field.DIMENSION)
        step.now) witness (verifying_of S.Challenger.state verifier.old)) }
{
    let (value, drawn) = verifier_step(alloc, verifier, step, witness)?;
    keep_received(received, value)?;
    keep_drawn(challenges, drawn)?;
    Ok(())
}

/// Verifies a proof of a script: plays the steps on a verifier of the separator over the bytes `narg`. The caller
/// supplies the witnesses of the `ObservePow` steps.
///
/// The result is `Ok` exactly where two conditions hold. The script's steps are those of the separator's pattern. The
/// bytes are the whole encoding of a list of values. Each value fits its step, each witness passes, and no draw meets
/// its limit. There is at most one such list, and it is what is received.
///
/// Else the error is a [`Fault`] with the place and the reason of the refusal. The place is the first refused step. It
/// is position 0 where the seed is too long for the alphabet, and the script's length where pattern steps or bytes are
/// left. Only [`TranscriptError::OutOfMemory`] can come in place of an acceptance. After an error the challenger is
/// dropped.
///
/// Conditions: the steps are admitted, and there are as many witnesses as `ObservePow` steps. Not in the Rust crate.
pub fn verify<'a, S: Suite>(
    alloc: Global,
    challenger: S::Challenger,
    separator: &DomainSeparator<S::Unit, S::Digest>,
    steps: &[Step<S>],
    carried: &[S::Field],
    narg: &'a [u8],
) -> Result<Verified<'a, S>, Fault>
    requires admitted { AreAdmitted (play_of (⟦<S as Meaning>⟧.rules S.Field.DIMENSION)) steps.now }
    requires carried { let rules = ⟦<S as Meaning>⟧.rules S.Field.DIMENSION in
        carried_count (play_of rules) steps.now ≡ length carried.now }
    ensures accepted { let rules = ⟦<S as Meaning>⟧.rules S.Field.DIMENSION in
        let script = script_of (S.Challenger.state challenger) separator.now steps.now in
        IfOk result (IsVerifiedScript rules script narg.now carried.now S.Challenger.state) }
    ensures refused { let rules = ⟦<S as Meaning>⟧.rules S.Field.DIMENSION in
        let script = script_of (S.Challenger.state challenger) separator.now steps.now in
        IfErr result (IsRefusedProof rules script narg.now carried.now) }
{
    script_steps_are_lawful::<S>();
    let mut verifier = match VerifierState::new(alloc, challenger, separator, narg) {
        Ok(verifier) => verifier,
        Err(error) => return Err(Fault { position: 0, error }),
    };
    let mut received = Vec::new(alloc);
    let mut challenges = Vec::new(alloc);
    let mut used = 0;
    for (position, step) in steps.iter().enumerate() {
        let witness = witness_for(step, carried, &mut used);
        let taken = take_step(
            alloc,
            &mut verifier,
            step,
            witness,
            &mut received,
            &mut challenges,
        );
        if let Err(error) = taken {
            verifier.abort();
            return Err(Fault { position, error });
        }
    }
    match verifier.finish() {
        Ok(challenger) => Ok(Verified {
            received,
            challenges,
            challenger,
        }),
        Err(error) => Err(Fault {
            position: steps.len(),
            error,
        }),
    }
}
