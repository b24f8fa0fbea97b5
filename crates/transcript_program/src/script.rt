//! The demo protocol as a script, on both sides.
ghost use Rattle.std.specs.Prelude.{◌≡◌, ◌⊎◌, IfOk, IfErr, string_bytes, List, ℕ};
ghost use Rattle.p3_challenger.specs.{Runs.{AreAdmitted, carried_count}, Scripts.{challenge_of, play_of, values_sent}};
ghost use Rattle.p3_challenger.specs.{Scripts.{values_received, challenges_of, value_received}, SeparatorSeed.separator_of};
ghost use Rattle.p3_field.specs.BabyBearResidues.{BabyBear};
ghost use Rattle.transcript_program.specs.DemoScript.{DemoLabels, demo_script, demo_challenger, IsDemoSeparator};
ghost use Rattle.transcript_program.specs.DemoScript.{IsDemoProof, RefusesDemoProof, IsDemoReport, RefusesDemoReport};
ghost use Rattle.transcript_program.specs.DemoScript.{DemoContent, Says, IsReport, sent_by};
ghost use Rattle.p3_challenger.specs.Values as value;

use crate::arguments::{MAX_NOTE_LEN, MAX_SCALARS, SALT_LEN, ToProve};
use crate::{demo, report};
use p3_challenger::fs::script::{AcceptAll, Both, Drawn, Meaning, Received, Sent, Step, Suite};
use p3_challenger::fs::{
    DomainSeparator, FieldToFieldCodec, FieldUnit, Kind, TranscriptError, script,
};
use p3_challenger::{HashChallenger, SerializingChallenger32};
use p3_field::{BabyBear, Coeffs};
use p3_symmetric::{Hash, Sha256Hasher};
use std::alloc::{AllocError, Global};

/// The types that play the demo protocol.
#[derive(Clone, Copy, Debug)]
pub struct Demo;

impl Suite for Demo {
    ghost use Rattle.std.{proofs.Common.lit<, specs.List.each_same};
    ghost use Rattle.p3_challenger.specs.{Reading.AreBytes, HashValueLaws.values-injective, Digests.values_of};

    type Field = BabyBear;

    type Extension = Coeffs<BabyBear, 4>;

    type Unit = FieldUnit<BabyBear>;

    type Opaque = Hash<BabyBear, u8, 32>;

    type Challenger = SerializingChallenger32<BabyBear, HashChallenger<u8, Sha256Hasher, 32>>;

    type Codec = FieldToFieldCodec<BabyBear>;

    type Accept = AcceptAll;

    type Digest = Sha256Hasher;

    type Group = Both;

    ghost is_own = { λ digest. AreBytes (values_of digest) };

    ghost alphabet = { lit< tt };

    ghost clones = { λ digest copy told. values-injective copy digest
        (each_same (values_of digest) (values_of copy) told.whole) };
}

// How many groups of bytes a draw of a scalar tries at most.
const DRAW_LIMIT: u64 = 1000;

fn challenger(
    alloc: Global,
) -> SerializingChallenger32<BabyBear, HashChallenger<u8, Sha256Hasher, 32>>
    ensures { result ≡ demo_challenger }
{
    SerializingChallenger32::from_hasher(Vec::new(alloc), Sha256Hasher, DRAW_LIMIT)
}

fn separator(
    alloc: Global,
) -> Result<DomainSeparator<FieldUnit<BabyBear>, Sha256Hasher>, TranscriptError>
    ensures ok { IfOk result (λ separator. IsDemoSeparator (separator_of separator)) }
    ensures err { IfErr result (λ e. e ≡ TranscriptError.OutOfMemory) }
{
    let mut separator = DomainSeparator::new(alloc, 2, b"demo", demo::pattern(alloc)?)?;
    separator.instance(b"example")?;
    Ok(separator)
}

// The script, for these inputs.
fn steps(inputs: Vec<BabyBear>) -> [Step<Demo>; 9]
    ensures script { (labels : DemoLabels) × (result ≡ demo_script labels inputs) }
    ensures admitted { AreAdmitted (play_of (⟦<Demo as Meaning>⟧.rules 1)) result }
    ensures carried { carried_count (play_of (⟦<Demo as Meaning>⟧.rules 1)) result ≡ 0 }
{
    [
        Step::Begin {
            label: "demo",
            kind: Kind::Protocol,
        },
        Step::PublicScalarsBounded {
            label: "inputs",
            values: inputs,
            max: MAX_SCALARS,
        },
        Step::Salt {
            label: "salt",
            len: SALT_LEN,
        },
        Step::ScalarsBounded {
            label: "values",
            max: MAX_SCALARS,
        },
        Step::Pow {
            label: "work",
            bits: 8,
        },
        Step::ChallengeScalar { label: "alpha" },
        Step::HintBounded {
            label: "note",
            max: MAX_NOTE_LEN,
        },
        Step::ChallengeUniformBits {
            label: "indices",
            width: 4,
            n: 2,
        },
        Step::End {
            label: "demo",
            kind: Kind::Protocol,
        },
    ]
}

// What a prover sends, in the order of the steps.
fn sent(alloc: Global, ask: &ToProve<'_>) -> Result<[Sent<Demo>; 3], AllocError>
    ensures { IfOk result (λ sent. values_sent sent ≡ sent_by ask.now) }
{
    Ok([
        Sent::Bytes(copied(alloc, &ask.salt)?),
        Sent::Scalars(copied(alloc, ask.values.as_slice())?),
        Sent::Bytes(copied(alloc, ask.note.as_bytes())?),
    ])
}

fn copied<T: Copy>(alloc: Global, values: &[T]) -> Result<Vec<T>, AllocError>
    ensures { IfOk result (λ list. list.items ≡ values.now) }
{
    let mut list = Vec::with_capacity(alloc, values.len())?;
    list.extend_from_slice(values)?;
    Ok(list)
}

/// The bytes of a proof of the demo protocol.
///
/// The errors are those of [`script::prove`], and out of memory.
pub fn prove(alloc: Global, ask: &ToProve<'_>) -> Result<Vec<u8>, TranscriptError>
    ensures ok { IfOk result (λ proof. IsDemoProof (⟦<Demo as Meaning>⟧.rules 1) ask.now proof.items) }
    ensures err { IfErr result (λ e. (e ≡ TranscriptError.OutOfMemory)
        ⊎ RefusesDemoProof (⟦<Demo as Meaning>⟧.rules 1) ask.now e) }
{
    let separator = separator(alloc)?;
    let steps = steps(copied(alloc, ask.inputs.as_slice())?);
    let sent = sent(alloc, ask)?;
    match script::prove::<Demo>(alloc, challenger(alloc), &separator, &steps, &sent) {
        Ok(proved) => Ok(proved.narg),
        Err(fault) => Err(fault.error),
    }
}

/// What a proof of the demo protocol with these public inputs says, in lines.
///
/// The errors are those of [`script::verify`], and out of memory.
pub fn verify(alloc: Global, inputs: &[BabyBear], proof: &[u8]) -> Result<String, TranscriptError>
    ensures ok { IfOk result (λ text.
        IsDemoReport (⟦<Demo as Meaning>⟧.rules 1) inputs.now proof.now (string_bytes text)) }
    ensures err { IfErr result (λ e. (e ≡ TranscriptError.OutOfMemory)
        ⊎ RefusesDemoReport (⟦<Demo as Meaning>⟧.rules 1) inputs.now proof.now e) }
{
    let separator = separator(alloc)?;
    let steps = steps(copied(alloc, inputs)?);
    match script::verify::<Demo>(alloc, challenger(alloc), &separator, &steps, &[], proof) {
        Ok(verified) => Ok(told(
            alloc,
            verified.received.as_slice(),
            verified.challenges.as_slice(),
        )?),
        Err(fault) => Err(fault.error),
    }
}

// The lines of what was received and drawn.
fn told(
    alloc: Global,
    received: &[Received<'_, Demo>],
    drawn: &[Drawn<Demo>],
) -> Result<String, AllocError>
    requires { (content : DemoContent) × Says (values_received received.now) (challenges_of drawn.now) content }
    ensures { IfOk result (λ text.
        IsReport (values_received received.now) (challenges_of drawn.now) (string_bytes text)) }
{
    match (received, drawn) {
        ([_, values, _, note], [alpha, indices]) => report::lines(
            alloc,
            scalars_received(values),
            scalars_drawn(alpha),
            bytes_received(note),
            bits_drawn(indices),
        ),
        _ => unreachable!(),
    }
}

fn scalars_received<'a>(received: &'a Received<'_, Demo>) -> &'a [BabyBear]
    requires { (values : List BabyBear) × (value_received received.now ≡ value.Scalars values) }
    ensures { value_received received.now ≡ value.Scalars result.now }
{
    match received {
        Received::Scalars(values) => values.as_slice(),
        _ => unreachable!(),
    }
}

fn bytes_received<'a>(received: &Received<'a, Demo>) -> &'a [u8]
    requires { (bytes : List ℕ) × (value_received received.now ≡ value.Bytes bytes) }
    ensures { value_received received.now ≡ value.Bytes result.now }
{
    match received {
        Received::Bytes(bytes) => *bytes,
        _ => unreachable!(),
    }
}

fn scalars_drawn(drawn: &Drawn<Demo>) -> &[BabyBear]
    requires { (values : List BabyBear) × (challenge_of drawn.now ≡ value.OfScalars values) }
    ensures { challenge_of drawn.now ≡ value.OfScalars result.now }
{
    match drawn {
        Drawn::Scalars(values) => values.as_slice(),
        _ => unreachable!(),
    }
}

fn bits_drawn(drawn: &Drawn<Demo>) -> &[usize]
    requires { (values : List ℕ) × (challenge_of drawn.now ≡ value.OfBits values) }
    ensures { challenge_of drawn.now ≡ value.OfBits result.now }
{
    match drawn {
        Drawn::Bits(values) => values.as_slice(),
        _ => unreachable!(),
    }
}
