// A protocol on either side, by one call.
ghost use Rattle.std.specs.Prelude.{◌≡◌, length, IsOk, IfOk, IfErr};
ghost use Rattle.p3_challenger.specs.{ProverAnswers.{IsProvedScript, IsRefusedScript}, Provings.AreHanded};
ghost use Rattle.p3_challenger.specs.{Runs.{AreAdmitted, carried_count}, Scripts.{play_of, values_sent}};
ghost use Rattle.p3_challenger.specs.{Verdicts.script_of, VerifierAnswers.{IsVerifiedScript, IsRefusedProof}};

use anyhow::{Result, bail};
use p3_challenger::Sponge;
use p3_challenger::fs::DomainSeparator;
use p3_challenger::fs::script::{
    Fault, Meaning, Proved, Sent, Step, Suite, Verified, admitted, carried_len, prove,
    sent_matches, verify,
};
use std::alloc::Global;

/// Proves by [`prove`]. The outer error is that the suite does not play the steps, or not with these values; there is no
/// other.
pub fn prove_steps<S: Suite>(
    alloc: Global,
    challenger: S::Challenger,
    separator: &DomainSeparator<S::Unit, S::Digest>,
    steps: &[Step<S>],
    sent: &[Sent<S>],
) -> Result<Result<Proved<S>, Fault>>
    ensures played { let rules = ⟦<S as Meaning>⟧.rules S.Field.DIMENSION in
        AreAdmitted (play_of rules) steps.now → AreHanded (play_of rules) steps.now (values_sent sent.now)
        → IsOk result }
    ensures proved { let rules = ⟦<S as Meaning>⟧.rules S.Field.DIMENSION in
        let script = script_of (S.Challenger.state challenger) separator.now steps.now in
        IfOk result (λ answer. IfOk answer (IsProvedScript rules script (values_sent sent.now) S.Challenger.state)) }
    ensures refused { let rules = ⟦<S as Meaning>⟧.rules S.Field.DIMENSION in
        let script = script_of (S.Challenger.state challenger) separator.now steps.now in
        IfOk result (λ answer. IfErr answer (IsRefusedScript rules script (values_sent sent.now))) }
{
    if !admitted(steps) || !sent_matches(steps, sent) {
        bail!("values that are not those of the steps");
    }
    Ok(prove::<S>(alloc, challenger, separator, steps, sent))
}

/// Verifies by [`verify`]. The outer error is that the suite does not play the steps, or not with so many witnesses
/// carried; there is no other.
pub fn verify_steps<'n, S: Suite>(
    alloc: Global,
    challenger: S::Challenger,
    separator: &DomainSeparator<S::Unit, S::Digest>,
    steps: &[Step<S>],
    carried: &[S::Field],
    proof: &'n [u8],
) -> Result<Result<Verified<'n, S>, Fault>>
    ensures played { let rules = ⟦<S as Meaning>⟧.rules S.Field.DIMENSION in
        AreAdmitted (play_of rules) steps.now → carried_count (play_of rules) steps.now ≡ length carried.now
        → IsOk result }
    ensures accepted { let rules = ⟦<S as Meaning>⟧.rules S.Field.DIMENSION in
        let script = script_of (S.Challenger.state challenger) separator.now steps.now in
        IfOk result (λ answer. IfOk answer (IsVerifiedScript rules script proof.now carried.now S.Challenger.state)) }
    ensures refused { let rules = ⟦<S as Meaning>⟧.rules S.Field.DIMENSION in
        let script = script_of (S.Challenger.state challenger) separator.now steps.now in
        IfOk result (λ answer. IfErr answer (IsRefusedProof rules script proof.now carried.now)) }
{
    if !admitted(steps) || carried_len(steps) != carried.len() {
        bail!("another number of witnesses than the steps have carried");
    }
    Ok(verify::<S>(alloc, challenger, separator, steps, carried, proof))
}
