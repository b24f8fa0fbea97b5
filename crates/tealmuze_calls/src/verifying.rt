//! A proof that is verified by one call.
ghost use Rattle.std.specs.Prelude.{◌≡◌, ◌<◌, ◌∷◌, ◌++◌, ℕ, List, length, map, IfOk, IfErr};
ghost use Rattle.p3_challenger.specs.{Runs.{AreAdmitted, carried_count}, SeparatorSeed.held_of, Verdicts.script_of};
ghost use Rattle.p3_challenger.specs.Scripts.{play_of, values_received, challenges_of};
ghost use Rattle.tealmuze_calls.specs.Forms.{listed_bytes, value_bytes, challenge_bytes};
ghost use Rattle.tealmuze_calls.specs.{Errors.IsDueTo, Told.{TellsOfProof, CanBeCarried}, Written.ByAnswer};

use crate::answers::{put_challenges, put_received};
use crate::by_suite::{CallsBySuite, Suites};
use crate::calls::Calls;
use crate::description::Protocol;
use crate::prepared::{Described, Prepared, prepare};
use crate::room::wanted_room;
use crate::suites::Called;
use crate::telling::Answer;
use crate::unanswered::Unanswered;
use crate::verdicts::{DONE, refused};
use crate::words::scalars;
use p3_challenger::Sponge;
use p3_challenger::fs::script::{Meaning, Step, Verified, carried_len, verify as verify_script};
use std::alloc::{AllocError, Global};

/// Verifies a proof, and answers what is told of it. `room` bytes are given for it: where the answer may have more,
/// nothing is verified.
pub fn verify(
    alloc: Global,
    description: &'static [u8],
    proof: &[u8],
    carried: &[u64],
    room: usize,
) -> Result<Answer, Unanswered>
    ensures ok { IfOk result (ByAnswer
        (⟦<Suites as CallsBySuite>⟧.tells_of_proof proof.now carried.now description.now) (λ wanted.
        ⟦<Suites as CallsBySuite>⟧.wants_room (length proof.now) description.now wanted × room < wanted)) }
    ensures err { IfErr result
        (IsDueTo (⟦<Suites as CallsBySuite>⟧.asks_of_proof description.now carried.now → ⊥)) }
{
    let prepared = prepare(alloc, description)?;
    verify_prepared(alloc, &prepared, proof, carried, room)
}

/// Verifies a proof of a protocol that is prepared, and answers what [`verify`] does of its description.
pub fn verify_prepared(
    alloc: Global,
    prepared: &Prepared,
    proof: &[u8],
    carried: &[u64],
    room: usize,
) -> Result<Answer, Unanswered>
    requires { (description : List ℕ) × ⟦<Prepared as Described>⟧.describes prepared.now description }
    ensures ok { (description : List ℕ) → ⟦<Prepared as Described>⟧.describes prepared.now description →
        IfOk result (ByAnswer (⟦<Suites as CallsBySuite>⟧.tells_of_proof proof.now carried.now description) (λ wanted.
        ⟦<Suites as CallsBySuite>⟧.wants_room (length proof.now) description wanted × room < wanted)) }
    ensures err { (description : List ℕ) → ⟦<Prepared as Described>⟧.describes prepared.now description →
        IfErr result (IsDueTo (⟦<Suites as CallsBySuite>⟧.asks_of_proof description carried.now → ⊥)) }
{
    match prepared {
        Prepared::BabyBearBytes(protocol) => verify_protocol(alloc, protocol, proof, carried, room),
        Prepared::BabyBearElements(protocol) => verify_protocol(
            alloc, protocol, proof, carried, room,
        ),
        Prepared::BabyBearBytesKeccak(protocol) => verify_protocol(
            alloc, protocol, proof, carried, room,
        ),
        Prepared::BabyBearElementsKeccak(protocol) => verify_protocol(
            alloc, protocol, proof, carried, room,
        ),
        Prepared::GoldilocksElements(protocol) => verify_protocol(
            alloc, protocol, proof, carried, room,
        ),
        Prepared::GoldilocksElementsKeccak(protocol) => verify_protocol(
            alloc, protocol, proof, carried, room,
        ),
        Prepared::BabyBearPoseidon2(protocol) => verify_protocol(
            alloc, protocol, proof, carried, room,
        ),
        Prepared::GoldilocksPoseidon2(protocol) => verify_protocol(
            alloc, protocol, proof, carried, room,
        ),
    }
}

// Verifies a proof of the protocol. `room` bytes are given for the answer.
fn verify_protocol<S: Called>(
    alloc: Global,
    protocol: &Protocol<S>,
    proof: &[u8],
    carried: &[u64],
    room: usize,
) -> Result<Answer, Unanswered>
    requires { let rules = ⟦<S as Meaning>⟧.rules S.Field.DIMENSION in
        AreAdmitted (play_of rules) protocol.now.steps.items }
    ensures ok { (description : List ℕ) → ⟦<S as Calls>⟧.describes S.Field.DIMENSION description
        (held_of protocol.now.separator) protocol.now.steps.items → IfOk result (ByAnswer
        (⟦<S as Calls>⟧.tells_of_proof S.Field.DIMENSION proof.now carried.now description) (λ wanted.
        ⟦<S as Calls>⟧.wants_room S.Field.DIMENSION S.Extension.DIMENSION (length proof.now) description wanted
        × room < wanted)) }
    ensures err { (description : List ℕ) → ⟦<S as Calls>⟧.describes S.Field.DIMENSION description
        (held_of protocol.now.separator) protocol.now.steps.items → IfErr result
        (IsDueTo (⟦<S as Calls>⟧.asks_of_proof S.Field.DIMENSION description carried.now → ⊥)) }
{
    let wanted = wanted_room(protocol.steps.as_slice(), proof.len());
    if wanted > room {
        return Ok(Answer::Wants(wanted));
    }
    let bytes = answer(alloc, S::fresh(alloc), protocol, proof, carried)?;
    Ok(Answer::Told(bytes))
}

// Verifies a proof of the protocol.
//
// The answer's first byte is 0 exactly where `verify` accepts it, with the witnesses of these numbers; what stands after
// it is what was received, in order, and what was drawn. It is 1 where that refuses it for another reason than memory.
// An error is [`Unanswered::OutOfMemory`], or comes where these numbers are not those of as many witnesses as the steps
// are carried: then it is [`Unanswered::Carried`].
fn answer<S: Called>(
    alloc: Global,
    challenger: S::Challenger,
    protocol: &Protocol<S>,
    proof: &[u8],
    carried: &[u64],
) -> Result<Vec<u8>, Unanswered>
    requires { let rules = ⟦<S as Meaning>⟧.rules S.Field.DIMENSION in
        AreAdmitted (play_of rules) protocol.now.steps.items }
    ensures ok { let rules = ⟦<S as Meaning>⟧.rules S.Field.DIMENSION in
        let script = script_of (S.Challenger.state challenger) protocol.now.separator protocol.now.steps.items in
        IfOk result (λ bytes. TellsOfProof rules S.Field.residues.number S.Extension.coefficients script
        proof.now carried.now bytes.items) }
    ensures err { let rules = ⟦<S as Meaning>⟧.rules S.Field.DIMENSION in
        let count = carried_count (play_of rules) protocol.now.steps.items in
        IfErr result (IsDueTo (CanBeCarried count S.Field.residues.order carried.now → ⊥)) }
{
    let steps = protocol.steps.as_slice();
    let witnesses = witnesses::<S>(alloc, steps, carried)?;
    let witnesses = witnesses.as_slice();
    match verify_script::<S>(
        alloc,
        challenger,
        &protocol.separator,
        steps,
        witnesses,
        proof,
    ) {
        Ok(verified) => Ok(accepted(alloc, &verified)?),
        Err(fault) => refused(alloc, &fault),
    }
}

// The witnesses of these numbers: as many as the steps are carried.
fn witnesses<S: Called>(
    alloc: Global,
    steps: &[Step<S>],
    carried: &[u64],
) -> Result<Vec<S::Field>, Unanswered>
    ensures numbers { IfOk result
        (λ witnesses. map S.Field.residues.number witnesses.items ≡ carried.now) }
    ensures count { let rules = ⟦<S as Meaning>⟧.rules S.Field.DIMENSION in IfOk result
        (λ witnesses. carried_count (play_of rules) steps.now ≡ length witnesses.items) }
    ensures err { let rules = ⟦<S as Meaning>⟧.rules S.Field.DIMENSION in
        let count = carried_count (play_of rules) steps.now in
        IfErr result (IsDueTo (CanBeCarried count S.Field.residues.order carried.now → ⊥)) }
{
    if carried_len(steps) != carried.len() {
        return Err(Unanswered::Carried);
    }
    match scalars(alloc, carried) {
        Ok(witnesses) => Ok(witnesses),
        Err(Unanswered::OutOfMemory) => Err(Unanswered::OutOfMemory),
        Err(_) => Err(Unanswered::Carried),
    }
}

// What is told of a proof that is accepted.
fn accepted<S: Called>(alloc: Global, verified: &Verified<'_, S>) -> Result<Vec<u8>, AllocError>
    ensures { IfOk result (λ bytes. bytes.items ≡ 0 ∷ (listed_bytes
        (value_bytes S.Field.residues.number S.Extension.coefficients)
        (values_received verified.now.received.items)
        ++ listed_bytes (challenge_bytes S.Field.residues.number S.Extension.coefficients)
        (challenges_of verified.now.challenges.items))) }
{
    let mut bytes = Vec::new(alloc);
    bytes.push(DONE)?;
    put_received(&mut bytes, verified.received.as_slice())?;
    put_challenges(&mut bytes, verified.challenges.as_slice())?;
    Ok(bytes)
}
