//! Values that are proved by one call.
ghost use Rattle.std.specs.Prelude.{◌≡◌, ◌<◌, ◌∷◌, ◌++◌, ℕ, length, IfOk, IfErr, List};
ghost use Rattle.p3_challenger.specs.{Provings.AreHanded, Runs.AreAdmitted, Verdicts.script_of, Values.Value, SeparatorSeed.held_of};
ghost use Rattle.p3_challenger.specs.Scripts.{play_of, values_sent, challenges_of};
ghost use Rattle.tealmuze_calls.specs.Forms.{number_bytes, counted_bytes, listed_bytes, scalar_bytes};
ghost use Rattle.tealmuze_calls.specs.Forms.{value_bytes, challenge_bytes};
ghost use Rattle.tealmuze_calls.specs.{Errors.IsDueTo, Told.TellsOfValues, Written.ByAnswer};

use crate::answers::{put_challenges, put_counted, put_scalars};
use crate::by_suite::{CallsBySuite, Suites};
use crate::calls::Calls;
use crate::description::Protocol;
use crate::prepared::{Described, Prepared, prepare};
use crate::room::wanted_room;
use crate::suites::Called;
use crate::telling::Answer;
use crate::unanswered::Unanswered;
use crate::values::parse_values;
use crate::verdicts::{DONE, refused};
use p3_challenger::Sponge;
use p3_challenger::fs::script::{Meaning, Proved, Sent, prove as prove_script, sent_matches};
use std::alloc::{AllocError, Global};

/// Proves values, and answers what is told of them. `room` bytes are given for it: where the answer may have more,
/// nothing is proved.
pub fn prove(
    alloc: Global,
    description: &'static [u8],
    values: &[u8],
    room: usize,
) -> Result<Answer, Unanswered>
    ensures ok { IfOk result (ByAnswer (⟦<Suites as CallsBySuite>⟧.tells_of_values values.now description.now)
        (λ wanted. ⟦<Suites as CallsBySuite>⟧.wants_room (length values.now) description.now wanted
        × room < wanted)) }
    ensures err { IfErr result
        (IsDueTo (⟦<Suites as CallsBySuite>⟧.asks_of_values description.now values.now → ⊥)) }
{
    let prepared = prepare(alloc, description)?;
    prove_prepared(alloc, &prepared, values, room)
}

/// Proves values of a protocol that is prepared, and answers what [`prove`] does of its description.
pub fn prove_prepared(
    alloc: Global,
    prepared: &Prepared,
    values: &[u8],
    room: usize,
) -> Result<Answer, Unanswered>
    requires { (description : List ℕ) × ⟦<Prepared as Described>⟧.describes prepared.now description }
    ensures ok { (description : List ℕ) → ⟦<Prepared as Described>⟧.describes prepared.now description →
        IfOk result (ByAnswer (⟦<Suites as CallsBySuite>⟧.tells_of_values values.now description) (λ wanted.
        ⟦<Suites as CallsBySuite>⟧.wants_room (length values.now) description wanted × room < wanted)) }
    ensures err { (description : List ℕ) → ⟦<Prepared as Described>⟧.describes prepared.now description →
        IfErr result (IsDueTo (⟦<Suites as CallsBySuite>⟧.asks_of_values description values.now → ⊥)) }
{
    match prepared {
        Prepared::BabyBearBytes(protocol) => prove_protocol(alloc, protocol, values, room),
        Prepared::BabyBearElements(protocol) => prove_protocol(alloc, protocol, values, room),
        Prepared::BabyBearBytesKeccak(protocol) => prove_protocol(alloc, protocol, values, room),
        Prepared::BabyBearElementsKeccak(protocol) => prove_protocol(alloc, protocol, values, room),
        Prepared::GoldilocksElements(protocol) => prove_protocol(alloc, protocol, values, room),
        Prepared::GoldilocksElementsKeccak(protocol) => prove_protocol(
            alloc, protocol, values, room,
        ),
        Prepared::BabyBearPoseidon2(protocol) => prove_protocol(alloc, protocol, values, room),
        Prepared::GoldilocksPoseidon2(protocol) => prove_protocol(alloc, protocol, values, room),
    }
}

// Proves values of the protocol. `room` bytes are given for the answer.
fn prove_protocol<S: Called>(
    alloc: Global,
    protocol: &Protocol<S>,
    values: &[u8],
    room: usize,
) -> Result<Answer, Unanswered>
    requires { let rules = ⟦<S as Meaning>⟧.rules S.Field.DIMENSION in
        AreAdmitted (play_of rules) protocol.now.steps.items }
    ensures ok { (description : List ℕ) → ⟦<S as Calls>⟧.describes S.Field.DIMENSION description
        (held_of protocol.now.separator) protocol.now.steps.items → IfOk result (ByAnswer
        (⟦<S as Calls>⟧.tells_of_values S.Field.DIMENSION values.now description) (λ wanted.
        ⟦<S as Calls>⟧.wants_room S.Field.DIMENSION S.Extension.DIMENSION (length values.now) description wanted
        × room < wanted)) }
    ensures err { (description : List ℕ) → ⟦<S as Calls>⟧.describes S.Field.DIMENSION description
        (held_of protocol.now.separator) protocol.now.steps.items → IfErr result
        (IsDueTo (⟦<S as Calls>⟧.asks_of_values S.Field.DIMENSION description values.now → ⊥)) }
{
    let wanted = wanted_room(protocol.steps.as_slice(), values.len());
    if wanted > room {
        return Ok(Answer::Wants(wanted));
    }
    let sent = parse_values::<S>(alloc, values)?;
    let bytes = answer(alloc, S::fresh(alloc), protocol, sent.as_slice())?;
    Ok(Answer::Told(bytes))
}

// Proves values of the protocol.
//
// The answer's first byte is 0 exactly where `prove` proves them; what stands after it is the proof, the witnesses, those
// of them that the proof does not carry, and what was drawn. It is 1 where that refuses them for another reason than
// memory. The error is [`Unanswered::Values`] where the values are not those of the steps, and else
// [`Unanswered::OutOfMemory`].
fn answer<S: Called>(
    alloc: Global,
    challenger: S::Challenger,
    protocol: &Protocol<S>,
    sent: &[Sent<S>],
) -> Result<Vec<u8>, Unanswered>
    requires { let rules = ⟦<S as Meaning>⟧.rules S.Field.DIMENSION in
        AreAdmitted (play_of rules) protocol.now.steps.items }
    ensures ok { let rules = ⟦<S as Meaning>⟧.rules S.Field.DIMENSION in
        let script = script_of (S.Challenger.state challenger) protocol.now.separator protocol.now.steps.items in
        IfOk result (λ bytes. TellsOfValues rules S.Field.residues.number S.Extension.coefficients script
        (values_sent sent.now) bytes.items) }
    ensures err { let rules = ⟦<S as Meaning>⟧.rules S.Field.DIMENSION in
        IfErr result (IsDueTo (AreHanded (play_of rules) protocol.now.steps.items (values_sent sent.now) → ⊥)) }
{
    let steps = protocol.steps.as_slice();
    if !sent_matches(steps, sent) {
        return Err(Unanswered::Values);
    }
    match prove_script::<S>(alloc, challenger, &protocol.separator, steps, sent) {
        Ok(proved) => Ok(told(alloc, &proved)?),
        Err(fault) => refused(alloc, &fault),
    }
}

// What is told of values that are proved.
fn told<S: Called>(alloc: Global, proved: &Proved<S>) -> Result<Vec<u8>, AllocError>
    ensures { let scalar = scalar_bytes S.Field.residues.number S.Extension.coefficients in
        IfOk result (λ bytes. bytes.items ≡ 0 ∷ (counted_bytes proved.now.narg.items
        ++ (listed_bytes scalar proved.now.witnesses.items
        ++ (listed_bytes scalar proved.now.carried.items
        ++ listed_bytes (challenge_bytes S.Field.residues.number S.Extension.coefficients)
        (challenges_of proved.now.challenges.items))))) }
{
    let mut bytes = Vec::new(alloc);
    bytes.push(DONE)?;
    put_counted(&mut bytes, proved.narg.as_slice())?;
    put_scalars(&mut bytes, proved.witnesses.as_slice())?;
    put_scalars(&mut bytes, proved.carried.as_slice())?;
    put_challenges(&mut bytes, proved.challenges.as_slice())?;
    Ok(bytes)
}
