//! Proving a script and verifying the proof.
ghost use Rattle.std.specs.Prelude.{◌≡◌, ◌⊎◌, IfOk, IfErr};
ghost use Rattle.p3_fs_core.specs.declared.error.TranscriptError.TheVariants.{OutOfMemory};
ghost use Rattle.p3_runs.specs.{Provings.AreHanded, Runs.AreAdmitted, Verdicts.script_of};
ghost use Rattle.p3_script.specs.Scripts.{play_of, values_sent, challenges_of};
ghost use Rattle.p3_script_prover.specs.ProverAnswers.{IsProvedScript, IsRefusedScript};
ghost use Rattle.p3_script_round_trip.specs.RoundTrips.{AreOfOneRun, IsAcceptedProof};
ghost use Rattle.p3_script_verifier.specs.VerifierAnswers.{IsVerifiedScript};

use p3_challenger_core::Sponge;
use p3_domain_separator::DomainSeparator;
use p3_script::{Drawn, Fault, Meaning, Sent, Step, Suite};
use p3_script_prover::{Proved, prove};
use p3_script_verifier::{Verified, verify};
use std::alloc::Global;

/// Verifies what [`prove`] returned for the script, from a challenger that equals the prover's.
///
/// The proof is accepted. The received values are those that were sent, with the witnesses in their places. The
/// challenges and the final challenger are the prover's. The one error is
/// [`TranscriptError::OutOfMemory`](p3_fs_core::TranscriptError::OutOfMemory).
///
/// Conditions: the steps are admitted, and `proved` is a result of [`prove`] for them, from this state of a challenger.
/// Not in the Rust crate.
pub fn verify_proved<'a, S: Suite>(
    alloc: Global,
    challenger: S::Challenger,
    separator: &DomainSeparator<S::Unit, S::Digest>,
    steps: &[Step<S>],
    sent: &[Sent<S>],
    proved: &'a Proved<S>,
) -> Result<Verified<'a, S>, Fault>
    requires admitted { AreAdmitted (play_of (⟦<S as Meaning>⟧.rules S.Field.DIMENSION)) steps.now }
    requires proved { let rules = ⟦<S as Meaning>⟧.rules S.Field.DIMENSION in
        let script = script_of (S.Challenger.state challenger) separator.now steps.now in
        IsProvedScript rules script (values_sent sent.now) S.Challenger.state proved.now }
    ensures accepted { let rules = ⟦<S as Meaning>⟧.rules S.Field.DIMENSION in
        let script = script_of (S.Challenger.state challenger) separator.now steps.now in
        IfOk result (IsVerifiedScript rules script proved.now.narg.items proved.now.carried.items S.Challenger.state) }
    ensures same { let script = script_of (S.Challenger.state challenger) separator.now steps.now in
        IfOk result (AreOfOneRun (⟦<S as Meaning>⟧.rules S.Field.DIMENSION) script
        (values_sent sent.now) S.Challenger.state proved.now) }
    ensures only_memory { IfErr result (λ f. f.error ≡ OutOfMemory) }
{
    let _sent = sent;
    verify(
        alloc,
        challenger,
        separator,
        steps,
        &proved.carried,
        &proved.narg,
    )
}

/// Proves a script and verifies the proof, from two challengers of one state.
///
/// Returns what [`prove`] returns for the values, with the challenges and the challenger of [`verify`]. [`verify`] has
/// accepted the proof, and its challenges and challenger are the prover's.
///
/// The errors are those of [`prove`], and [`TranscriptError::OutOfMemory`](p3_fs_core::TranscriptError::OutOfMemory).
/// Conditions: those of [`prove`], and that the challengers are equal. Not in the Rust crate.
pub fn prove_and_verify<S: Suite>(
    alloc: Global,
    first: S::Challenger,
    second: S::Challenger,
    separator: &DomainSeparator<S::Unit, S::Digest>,
    steps: &[Step<S>],
    sent: &[Sent<S>],
) -> Result<(Proved<S>, Vec<Drawn<S>>, S::Challenger), Fault>
    requires equal { S.Challenger.state second ≡ S.Challenger.state first }
    requires admitted { AreAdmitted (play_of (⟦<S as Meaning>⟧.rules S.Field.DIMENSION)) steps.now }
    requires handed { let rules = ⟦<S as Meaning>⟧.rules S.Field.DIMENSION in
        AreHanded (play_of rules) steps.now (values_sent sent.now) }
    ensures proved { let rules = ⟦<S as Meaning>⟧.rules S.Field.DIMENSION in
        let script = script_of (S.Challenger.state first) separator.now steps.now in
        IfOk result (λ r. IsProvedScript rules script (values_sent sent.now) S.Challenger.state r.0) }
    ensures accepted { let rules = ⟦<S as Meaning>⟧.rules S.Field.DIMENSION in
        let script = script_of (S.Challenger.state first) separator.now steps.now in
        IfOk result (λ r. IsAcceptedProof rules script S.Challenger.state r.0 r.1.items r.2) }
    ensures challenges { IfOk result
        (λ r. challenges_of r.1.items ≡ challenges_of r.0.challenges.items) }
    ensures challengers { IfOk result
        (λ r. S.Challenger.state r.2 ≡ S.Challenger.state r.0.challenger) }
    ensures refused { let script = script_of (S.Challenger.state first) separator.now steps.now in
        IfErr result (λ f. IsRefusedScript (⟦<S as Meaning>⟧.rules S.Field.DIMENSION) script
        (values_sent sent.now) f ⊎ (f.error ≡ OutOfMemory)) }
{
    let proved = prove(alloc, first, separator, steps, sent)?;
    let Verified {
        received: _,
        challenges,
        challenger,
    } = verify_proved(alloc, second, separator, steps, sent, &proved)?;
    Ok((proved, challenges, challenger))
}
