//! Whole scripts, on the prover's side.
ghost use Rattle.std.specs.{Option.OnSome, Prelude.{◌≡◌, ◌<◌, ◌++◌, drop, length, IfOk, IfErr, OnOk}};
ghost use Rattle.p3_runs.specs.{Provings.{StartsHanded, AreHanded}, Runs.AreAdmitted, Stepping.one_of};
ghost use Rattle.p3_runs.specs.Verdicts.{script_of};
ghost use Rattle.p3_script.specs.Scripts.{play_of, values_sent};
ghost use Rattle.p3_script_prover.specs.Nexts.{IsGivenAt, next_place, carried_at, PlaysNextStep};
ghost use Rattle.p3_script_prover.specs.ProverAnswers.{IsProvedScript, IsRefusedScript};

use crate::stepping::prover_step;
use p3_challenger_core::{CanObserve, Sponge};
use p3_codecs::{AlphabetOf, Codec, ExtensionFieldCodec, Unit};
use p3_domain_separator::DomainSeparator;
use p3_drivers::ProverState;
use p3_field_core::Named;
use p3_fs_core::TranscriptError;
use p3_script::{
    Drawn, Fault, Meaning, Sent, Standing, Step, StepGroup, Suite, script_steps_are_lawful,
    standing_of,
};
use p3_symmetric::DigestHasher;
use std::alloc::{AllocError, Global};

/// A proof, with the witnesses found, the challenges drawn and the final challenger. Not in the Rust crate.
#[derive(Drop)]
pub struct Proved<S: Suite> {
    /// The bytes of the proof.
    pub narg: Vec<u8>,

    /// The witnesses of all proofs of work, in the order of their steps.
    pub witnesses: Vec<S::Field>,

    /// The witnesses that the proof does not carry. They have to reach the verifier's caller.
    pub carried: Vec<S::Field>,

    /// The challenges drawn, in the order of the steps.
    pub challenges: Vec<Drawn<S>>,

    /// The challenger after the last step.
    pub challenger: S::Challenger,
}

// What was found and drawn so far.
#[derive(Drop)]
struct Made<S: Suite> {
    witnesses: Vec<S::Field>,
    carried: Vec<S::Field>,
    challenges: Vec<Drawn<S>>,
}

// What is handed for a step whose value stands so: the value at the place, or nothing.
fn given_at<T>(standing: Standing, sent: &[T], at: usize) -> Option<&T>
    ensures given { IsGivenAt standing sent.now at result }
    ensures within { OnSome result (at < length sent.now) }
{
    match standing {
        Standing::Nowhere => None,
        Standing::Sent => sent.get(at),
        Standing::Found => None,
        Standing::Carried => None,
    }
}

// The place of the next value.
fn place_after<T>(at: usize, given: Option<&T>, len: usize) -> usize
    requires { OnSome given (at < len) }
    ensures { result ≡ next_place at given.entry }
{
    match given {
        Some(_) => at + 1,
        None => at,
    }
}

// A witness, where the caller carries it.
fn where_carried<T: Copy>(standing: Standing, witness: Option<T>) -> Option<T>
    ensures { one_of result ≡ carried_at standing (one_of witness) }
{
    match standing {
        Standing::Nowhere => None,
        Standing::Sent => None,
        Standing::Found => None,
        Standing::Carried => witness,
    }
}

// Keeps a value, if there is one.
fn keep<T: Drop>(list: &mut Vec<T>, value: Option<T>) -> Result<(), AllocError>
    ensures { OnOk result (list.new.items ≡ list.old.items ++ one_of value) }
{
    if let Some(value) = value {
        list.push(value)?;
    }
    Ok(())
}

// Keeps what a step answered.
fn keep_all<S: Suite>(
    made: &mut Made<S>,
    standing: Standing,
    witness: Option<S::Field>,
    drawn: Option<Drawn<S>>,
) -> Result<(), AllocError>
    ensures witnesses { OnOk result
        (made.new.witnesses.items ≡ made.old.witnesses.items ++ one_of witness) }
    ensures carried { OnOk result
        (made.new.carried.items ≡ made.old.carried.items ++ carried_at standing (one_of witness)) }
    ensures challenges { OnOk result
        (made.new.challenges.items ≡ made.old.challenges.items ++ one_of drawn) }
{
    keep(&mut made.witnesses, witness)?;
    keep(&mut made.carried, where_carried(standing, witness))?;
    keep(&mut made.challenges, drawn)
}

// Plays the next step, with what it is handed, and keeps what it answers.
fn play_next<S: Suite>(
    alloc: Global,
    prover: &mut ProverState<S::Challenger, S::Unit, S::Digest>,
    step: &Step<S>,
    sent: &[Sent<S>],
    next: &mut usize,
    made: &mut Made<S>,
) -> Result<(), TranscriptError>
    requires admitted { (play_of (⟦<S as Meaning>⟧.rules S.Field.DIMENSION) step.now).admitted }
    requires handed { let play = play_of (⟦<S as Meaning>⟧.rules S.Field.DIMENSION) step.now in
        StartsHanded play.place play.IsHanded (drop next.old (values_sent sent.now)) }
    ensures { PlaysNextStep (⟦<S as Meaning>⟧.rules S.Field.DIMENSION) S.Challenger.state step.now
        sent.now next.old prover.old made.old result next.new prover.new made.new }
{
    let standing = standing_of(step);
    let given = given_at(standing, sent, *next);
    let (witness, drawn) = prover_step(alloc, prover, step, given)?;
    match keep_all(made, standing, witness, drawn) {
        Ok(()) => {
            *next = place_after(*next, given, sent.len());
            Ok(())
        }
        Err(_) => {
            prover.halt();
            Err(TranscriptError::OutOfMemory)
        }
    }
}

/// Plays a script from its first step to its last, as the prover. Seeds the challenger with the separator, plays the
/// steps in order, and returns the proof.
///
/// `sent` has one value for each step that sends one, in the order of the steps, and none for the others.
///
/// The result is `Ok` exactly under four conditions. The script's steps are those of the separator's pattern, the
/// values fit them, each proof of work has a witness that passes, and no draw meets its limit. Only out of memory may
/// come in place of that. The witnesses are the least ones.
///
/// The position of a [`Fault`] is that of the refused step, or 0 for the seed. For the end, where the pattern has more
/// steps, it is the number of steps. The error is that of the driver's `new`, of [`prover_step`] or of the driver's
/// `finish`. It is [`TranscriptError::OutOfMemory`] too where memory for the results of a step is refused. After an
/// error the challenger and the proof so far are dropped.
///
/// Conditions: each step may be played by this suite, and each value of `sent` is of its step's type and, where the
/// step fixes a length, of that length. Not in the Rust crate.
pub fn prove<S: Suite>(
    alloc: Global,
    challenger: S::Challenger,
    separator: &DomainSeparator<S::Unit, S::Digest>,
    steps: &[Step<S>],
    sent: &[Sent<S>],
) -> Result<Proved<S>, Fault>
    requires admitted { AreAdmitted (play_of (⟦<S as Meaning>⟧.rules S.Field.DIMENSION)) steps.now }
    requires handed { let rules = ⟦<S as Meaning>⟧.rules S.Field.DIMENSION in
        AreHanded (play_of rules) steps.now (values_sent sent.now) }
    ensures proved { let rules = ⟦<S as Meaning>⟧.rules S.Field.DIMENSION in
        let script = script_of (S.Challenger.state challenger) separator.now steps.now in
        IfOk result (IsProvedScript rules script (values_sent sent.now) S.Challenger.state) }
    ensures refused { let rules = ⟦<S as Meaning>⟧.rules S.Field.DIMENSION in
        let script = script_of (S.Challenger.state challenger) separator.now steps.now in
        IfErr result (IsRefusedScript rules script (values_sent sent.now)) }
{
    script_steps_are_lawful::<S>();
    let mut prover = match ProverState::new(alloc, challenger, separator) {
        Ok(prover) => prover,
        Err(error) => return Err(Fault { position: 0, error }),
    };
    let mut made = Made {
        witnesses: Vec::new(alloc),
        carried: Vec::new(alloc),
        challenges: Vec::new(alloc),
    };
    let mut next = 0;
    for (i, step) in steps.iter().enumerate() {
        if let Err(error) = play_next(alloc, &mut prover, step, sent, &mut next, &mut made) {
            prover.abort();
            return Err(Fault { position: i, error });
        }
    }
    let Made {
        witnesses,
        carried,
        challenges,
    } = made;
    match prover.finish() {
        Ok((narg, challenger)) => Ok(Proved {
            narg,
            witnesses,
            carried,
            challenges,
            challenger,
        }),
        Err(error) => Err(Fault {
            position: steps.len(),
            error,
        }),
    }
}
