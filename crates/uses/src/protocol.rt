//! A small but complete protocol: the pattern of its steps, a prover and a verifier.
//!
//! The prover sends a line over a field. A place is drawn, and a divisor other than 0. The prover gives the line's
//! value at the place, divided by the divisor. That number is a hint: it is not absorbed, no challenge depends on
//! it, and the verifier checks it directly. The place and the divisor have to depend on the line. The contract of
//! [`verify`] says that they do, and which bytes the proof is.
ghost use Rattle.std.specs.Prelude.{◌≡◌, ◌+◌, ◌++◌, ℕ, [], length, IfOk, OnOk};
ghost use Rattle.p3_challenger.specs.{HashCalls.with_pending, HashState.HashState, Sha256Hasher.Sha256Hasher};
ghost use Rattle.p3_challenger.specs.{Drivers.{proving_of, verifying_of}, SeparatorSeed.{held_of, pattern_of, seed_of}};
ghost use Rattle.uses.specs.Protocol.{AcceptsRuns, AnswersRun, DrawsDivisor, DrawsDivisorAhead, DrawsPlace, IsDivisor};
ghost use Rattle.uses.specs.Protocol.{IsProofFrom, IsRunUnder, LineRules, ReadsClaim, ReadsRunAhead, SendsLine};
ghost use Rattle.uses.specs.Protocol.{may_divide, steps_of_line};

use p3_challenger::fs::{
    BytesToFieldCodec, Codec, DomainSeparator, ExtensionFieldCodec, Hierarchy, Interaction,
    InteractionPattern, Kind, Length, Pattern, PatternState, ProverState, SymmetricSteps,
    TranscriptError, TranscriptField, VerifierState,
};
use p3_challenger::laws::completeness::{hint_is_received, sent_value_is_received};
use p3_challenger::laws::memory::{
    only_memory_refuses_drawn_values, only_memory_refuses_hints, only_memory_refuses_sent_values,
};
use p3_challenger::{HashChallenger, Sponge};
use p3_field::{AlgebraIdentity, BabyBear, PrimeCharacteristicRing, PrimeField32, PrimeField64};
use p3_symmetric::{DigestHasher, Sha256Hasher};
use std::alloc::Global;

type Challenger = HashChallenger<u8, Sha256Hasher, 32>;

type Scalars = BytesToFieldCodec<BabyBear>;

// An element of the field, by its one coefficient.
type Coefficient = ExtensionFieldCodec<BabyBear, BabyBear, Scalars>;

/// The type of separators for the protocol's version, name and pattern.
pub type Separator = DomainSeparator<u8, Sha256Hasher>;

type Prover = ProverState<Challenger, u8, Sha256Hasher>;

type Verifier<'a> = VerifierState<'a, Challenger, u8, Sha256Hasher>;

/// What a verifier has read and drawn.
#[derive(Clone, Copy, Debug)]
pub struct Claim {
    /// The slope of the line: its rise from one place to the next.
    pub slope: BabyBear,
    /// The line's value at 0.
    pub offset: BabyBear,
    /// The place that was drawn.
    pub place: BabyBear,
    /// The divisor that was drawn.
    pub divisor: BabyBear,
    /// The line's value at the place, divided.
    pub quotient: BabyBear,
}

/// The view of contracts on the protocol, at its types.
pub trait Line {
    // What its two sides share.
    ghost rules: { LineRules (HashState ℕ Sha256Hasher) ℕ };
}

impl Line for Claim {
    ghost rules = { record {
      observation = ⟦<Scalars as Codec<Challenger, BabyBear>>⟧.observation;
      places = ⟦<Scalars as Codec<Challenger, BabyBear>>⟧.sampling;
      divisors = ⟦<Coefficient as Codec<Challenger, BabyBear>>⟧.sampling;
      encoding = ⟦<Scalars as Codec<Challenger, BabyBear>>⟧.encoding;
      digest = ⟦<Sha256Hasher as DigestHasher>⟧.digest_of ⟦<BabyBear as AlgebraIdentity<BabyBear>>⟧.identity;
      seeded = λ held. record {
        sponge = with_pending (seed_of ⟦<Sha256Hasher as DigestHasher>⟧.digest_of held);
        hasher = record {};
      };
    } };
}

/// Sends the line, and returns the bytes of the proof. The only error in practice is out of memory.
pub fn prove(
    alloc: Global,
    separator: &Separator,
    slope: BabyBear,
    offset: BabyBear,
) -> Result<Vec<u8>, TranscriptError>
    ensures { let line = ⟦<Claim as Line>⟧.rules in
        IfOk result (λ proof. IsProofFrom line (line.seeded (held_of separator.now)) slope offset proof.items) }
{
    let mut prover = Prover::new(alloc, challenger(alloc), separator)?;
    let sent = send(&mut prover, alloc, slope, offset);
    // A prover has to be spent, also where a step was refused.
    sent.and(prover.finalize())
}

fn send(
    prover: &mut Prover,
    alloc: Global,
    slope: BabyBear,
    offset: BabyBear,
) -> Result<(), TranscriptError>
    ensures { OnOk result (SendsLine ⟦<Claim as Line>⟧.rules slope offset
        (proving_of ⟦<Challenger as Sponge>⟧.state prover.old)
        (proving_of ⟦<Challenger as Sponge>⟧.state prover.new)) }
{
    prover.add_scalar::<BabyBear, Scalars>("slope", &slope)?;
    prover.add_scalar::<BabyBear, Scalars>("offset", &offset)?;
    let place = prover.challenge_scalar::<BabyBear, Scalars>("place")?;
    let divisor = draw_divisor(prover)?;
    let value = slope * place.into_inner() + offset;
    let quotient = value * divisor.exp_u64(BabyBear::ORDER_U64 - 2);
    let mut hint = Vec::new(alloc);
    BabyBear::encode(&quotient, &mut hint)?;
    prover.add_hint("quotient", &hint)
}

/// Reads a proof, and returns the claim that it makes, or `None` where its quotient is wrong. A proof has 12 bytes.
///
/// The errors are those of the transcript: a proof that is too short or too long, a number that is no element of the
/// field, and out of memory. A proof that [`prove`] sent under the same separator, made by [`separator`], is
/// accepted for the same claim. Only out of memory can come instead.
pub fn verify(
    alloc: Global,
    separator: &Separator,
    proof: &[u8],
) -> Result<Option<Claim>, TranscriptError>
    ensures length { OnOk result (length proof.now ≡ 12) }
    ensures run { IfOk result (AnswersRun (IsRunUnder ⟦<Claim as Line>⟧.rules (held_of separator.now) proof.now)) }
    ensures accepted { (pattern_of separator.now).steps ≡ steps_of_line ⟦<Claim as Line>⟧.rules.digest →
        AcceptsRuns (IsRunUnder ⟦<Claim as Line>⟧.rules (held_of separator.now) proof.now) result }
{
    let mut verifier = Verifier::new(alloc, challenger(alloc), separator, proof)?;
    let received = receive(&mut verifier);
    // A verifier has to be spent, also where a step was refused.
    let end = verifier.finalize();
    let claim = received?;
    end?;
    let value = claim.slope * claim.place + claim.offset;
    Ok((claim.quotient * claim.divisor == value).then_some(claim))
}

fn receive(verifier: &mut Verifier<'_>) -> Result<Claim, TranscriptError>
    ensures place { IfOk result (DrawsPlace ⟦<Claim as Line>⟧.rules
        (verifying_of ⟦<Challenger as Sponge>⟧.state verifier.old)) }
    ensures divisor { IfOk result (DrawsDivisor ⟦<Claim as Line>⟧.rules
        (verifying_of ⟦<Challenger as Sponge>⟧.state verifier.old)) }
    ensures read { IfOk result (ReadsClaim ⟦<Claim as Line>⟧.rules
        (verifying_of ⟦<Challenger as Sponge>⟧.state verifier.old)
        (verifying_of ⟦<Challenger as Sponge>⟧.state verifier.new)) }
    ensures length { OnOk result (length (verifying_of ⟦<Challenger as Sponge>⟧.state verifier.old).bytes
        ≡ 12 + length (verifying_of ⟦<Challenger as Sponge>⟧.state verifier.new).bytes) }
    ensures accepted { ReadsRunAhead ⟦<Claim as Line>⟧.rules
        (verifying_of ⟦<Challenger as Sponge>⟧.state verifier.old) result
        (verifying_of ⟦<Challenger as Sponge>⟧.state verifier.new) }
{
    // Laws, which do nothing: where a prover has sent a value or a hint, or drawn, memory alone can be refused.
    sent_value_is_received::<BabyBear, Challenger, Scalars>();
    only_memory_refuses_sent_values::<BabyBear, u8, Challenger, Scalars>();
    only_memory_refuses_drawn_values::<BabyBear, Challenger, Scalars>();
    hint_is_received::<Challenger>();
    only_memory_refuses_hints::<Challenger>();
    let slope = verifier.next_scalar::<BabyBear, Scalars>("slope")?;
    let offset = verifier.next_scalar::<BabyBear, Scalars>("offset")?;
    let place = verifier.challenge_scalar::<BabyBear, Scalars>("place")?;
    let divisor = draw_divisor(verifier)?;
    let quotient = BabyBear::decode(verifier.next_hint("quotient", 4)?)?;
    Ok(Claim {
        slope: slope.into_inner(),
        offset: offset.into_inner(),
        place: place.into_inner(),
        divisor,
        quotient,
    })
}

// Both sides draw it: any element but 0.
fn draw_divisor<S: SymmetricSteps<Challenger = Challenger, Digest = Sha256Hasher>>(
    side: &mut S,
) -> Result<BabyBear, TranscriptError>
    ensures drawn { IfOk result (IsDivisor ⟦<Claim as Line>⟧.rules.divisors (S.transcript side.old).challenger) }
    ensures bytes { OnOk result (S.bytes side.new ≡ S.bytes side.old) }
    ensures accepted { DrawsDivisorAhead ⟦<Claim as Line>⟧.rules (S.transcript side.old) result
        (S.transcript side.new) }
{
    // A law, which does nothing: where one side has drawn it, memory alone can be refused to the other.
    only_memory_refuses_drawn_values::<BabyBear, Challenger, Coefficient>();
    let accept = |divisor: &BabyBear, _kept: &[BabyBear]| -> bool
        ensures { result ≡ may_divide divisor.now }
    { divisor.as_canonical_u32() != 0 };
    let drawn = side.challenge_extensions_rejecting::<BabyBear, BabyBear, Scalars, _>(
        "divisor", 1, &accept, 100,
    )?;
    Ok(drawn[0].into_inner())
}

// What both sides begin with.
fn challenger(alloc: Global) -> Challenger
    ensures { result.sponge ≡ with_pending [] }
{
    Challenger::new(Vec::new(alloc), Sha256Hasher)
}

/// Returns the separator, on which every challenge depends: the version, the name, and the pattern of the steps.
///
/// The only error in practice is out of memory.
pub fn separator(alloc: Global) -> Result<Separator, TranscriptError>
    ensures { IfOk result (λ made. (pattern_of made).steps ≡ steps_of_line ⟦<Claim as Line>⟧.rules.digest) }
{
    let mut recorder = PatternState::<u8>::new(alloc);
    let recorded = record(&mut recorder);
    let pattern = recorded.and(recorder.finalize())?;
    Separator::new(alloc, 1, b"line", pattern)
}

// The steps in order. Each names its value's type, so that a proof of one type is not read as another.
fn record(recorder: &mut PatternState<u8>) -> Result<(), TranscriptError>
    ensures { OnOk result (recorder.new.steps ≡ recorder.old.steps ++ steps_of_line ⟦<Claim as Line>⟧.rules.digest) }
{
    let leaf = Hierarchy::Atomic;
    let slope = Interaction::algebra::<BabyBear, BabyBear, Sha256Hasher>(
        leaf,
        Kind::Message,
        "slope",
        Length::Scalar,
    );
    recorder.interact(slope)?;
    recorder.interact(slope.of_same_type(leaf, Kind::Message, "offset", Length::Scalar))?;
    recorder.interact(slope.of_same_type(leaf, Kind::Challenge, "place", Length::Scalar))?;
    recorder.interact(slope.of_same_type(leaf, Kind::Challenge, "divisor", Length::Fixed(1)))?;
    recorder.interact(Interaction::bytes(leaf, Kind::Hint, "quotient", Length::Fixed(4)))
}
