//! A protocol as a script over a sponge: its types, its steps as data, and a call for each side. The sponge has sixteen
//! cells of `BabyBear`, eight of them the rate, and Poseidon2 permutes them.
//!
//! Both sides know a list of at most four numbers. The prover sends a salt and at most four values, and finds a witness
//! for 8 bits of work. Then a challenge is drawn, the prover sends a note that no challenge depends on, and two places
//! of 4 bits each are drawn. No step has code of its own here. The contract of [`verify`] says which bytes are
//! accepted, and with which results. The contract of [`prove_and_verify`] says that both sides play one run, that of
//! the values.
ghost use Rattle.std.specs.Prelude.{◌≡◌, ◌⊎◌, List, [], IfOk, IfErr, IfSome, None, codes};
ghost use Rattle.p3_challenger.specs.{Runs.{AreAdmitted, carried_count, interactions}, Scripts.{play_of, values_sent}};
ghost use Rattle.p3_challenger.specs.{PatternSteps.steps_of, SeparatorSeed.separator_of};
ghost use Rattle.p3_challenger.specs.{Provings.AreHanded, ProverAnswers.{IsProvedScript, IsRefusedScript}};
ghost use Rattle.p3_challenger.specs.{Verdicts.script_of, VerifierAnswers.{IsVerifiedScript, IsRefusedProof}};
ghost use Rattle.p3_challenger.specs.{RoundTrips.IsAcceptedProof, TranscriptError.TheVariants.OutOfMemory};
ghost use Rattle.uses.specs.DemoScript.{AreDemoSteps, fresh_challenger};

use p3_challenger::fs::script::{
    AcceptAll, Both, Drawn, Fault, Meaning, Proved, Sent, Step, Suite, Verified, sent_matches,
};
use p3_challenger::fs::{
    DomainSeparator, FieldToFieldCodec, FieldUnit, Kind, TranscriptError, script,
};
use p3_challenger::{DuplexChallenger, Sponge};
use p3_field::{BabyBear, Coeffs};
use p3_poseidon2::Poseidon2BabyBear16;
use p3_symmetric::{Hash, Sha256Hasher};
use std::alloc::Global;

/// The types of the protocol.
#[derive(Clone, Copy, Debug)]
pub struct Demo;

impl Suite for Demo {
    ghost use Rattle.std.{proofs.Common.lit<, specs.List.each_same};
    ghost use Rattle.p3_challenger.specs.{HashValueLaws.values-injective, Digests.values_of};

    type Field = BabyBear;

    type Extension = Coeffs<BabyBear, 4>;

    type Unit = FieldUnit<BabyBear>;

    type Opaque = Hash<BabyBear, BabyBear, 8>;

    type Challenger = Challenger;

    type Codec = FieldToFieldCodec<BabyBear>;

    type Accept = AcceptAll;

    type Digest = Sha256Hasher;

    type Group = Both;

    ghost is_own = { λ _. Unit {0} };

    ghost alphabet = { lit< tt };

    ghost clones = { λ digest copy told. values-injective copy digest
        (each_same (values_of digest) (values_of copy) told.whole) };
}

/// A challenger of scalars, over Poseidon2.
pub type Challenger = DuplexChallenger<BabyBear, Poseidon2BabyBear16, 16, 8>;

/// The type of separators for the protocol's version, name and pattern.
pub type Separator = DomainSeparator<FieldUnit<BabyBear>, Sha256Hasher>;

// How many elements a draw of uniform bits tries at most.
const DRAW_LIMIT: u64 = 1000;

fn challenger(permutation: Poseidon2BabyBear16) -> Challenger
    ensures { result ≡ fresh_challenger permutation }
{
    DuplexChallenger::new(permutation, DRAW_LIMIT)
}

/// Returns the steps of the protocol, for these numbers.
pub fn steps(inputs: Vec<BabyBear>) -> [Step<Demo>; 9]
    ensures steps { AreDemoSteps inputs result }
    ensures admitted { AreAdmitted (play_of (⟦<Demo as Meaning>⟧.rules 1)) result }
    ensures carried { carried_count (play_of (⟦<Demo as Meaning>⟧.rules 1)) result ≡ 0 }
{
    let kind = Kind::Protocol;
    [
        Step::Begin {
            label: "demo",
            kind,
        },
        Step::PublicScalarsBounded {
            label: "inputs",
            values: inputs,
            max: 4,
        },
        Step::Salt {
            label: "salt",
            len: 8,
        },
        Step::ScalarsBounded {
            label: "values",
            max: 4,
        },
        Step::Pow {
            label: "work",
            bits: 8,
        },
        Step::ChallengeScalar { label: "alpha" },
        Step::HintBounded {
            label: "note",
            max: 16,
        },
        Step::ChallengeUniformBits {
            label: "indices",
            width: 4,
            n: 2,
        },
        Step::End {
            label: "demo",
            kind,
        },
    ]
}

/// Returns the separator of the protocol: version 2, the name `demo`, and the pattern of its steps. The only
/// error in practice is out of memory.
pub fn separator(alloc: Global) -> Result<Separator, TranscriptError>
    ensures named { IfOk result (λ made. ((separator_of made).version ≡ 2)
        × ((separator_of made).name ≡ codes "demo")) }
    ensures pattern { IfOk result (λ made. (inputs : _) × (steps : List _) × AreDemoSteps inputs steps
        × (steps_of (separator_of made).pattern ≡ interactions (play_of (⟦<Demo as Meaning>⟧.rules 1)) steps)) }
{
    let pattern = script::pattern::<Demo>(alloc, &steps(Vec::new(alloc)))?;
    Separator::new(alloc, 2, b"demo", pattern)
}

/// The results of both sides of one transcript.
#[derive(Drop)]
pub struct Agreed {
    /// The prover's result, with the proof.
    pub proved: Proved<Demo>,
    /// The challenges that the verifier drew.
    pub drawn: Vec<Drawn<Demo>>,
    /// The verifier's final challenger.
    pub challenger: Challenger,
}

/// Proves that these values were sent, and verifies the proof, which is accepted: both sides draw the same challenges.
/// More than four numbers are refused at the step of the list.
///
/// The result is `None` exactly where the sent values do not fit the steps: a salt of 8 bytes, a list of scalars, and
/// the bytes of a note. The errors are those of [`script::prove`], and out of memory.
pub fn prove_and_verify(
    alloc: Global,
    permutation: Poseidon2BabyBear16,
    separator: &Separator,
    inputs: Vec<BabyBear>,
    sent: &[Sent<Demo>],
) -> Result<Option<Agreed>, Fault>
    ensures proved { IfOk result (λ agreed. IfSome agreed (λ a. (steps : List _) × AreDemoSteps inputs steps
        × IsProvedScript (⟦<Demo as Meaning>⟧.rules 1) (script_of (fresh_challenger permutation) separator.now steps)
        (values_sent sent.now) ⟦<Challenger as Sponge>⟧.state a.proved)) }
    ensures accepted { IfOk result (λ agreed. IfSome agreed (λ a. (steps : List _) × AreDemoSteps inputs steps
        × IsAcceptedProof (⟦<Demo as Meaning>⟧.rules 1) (script_of (fresh_challenger permutation) separator.now steps)
        ⟦<Challenger as Sponge>⟧.state a.proved a.drawn.items a.challenger)) }
    ensures other { IfOk result (λ agreed. agreed ≡ None → (steps : List _) × AreDemoSteps inputs steps
        × (AreHanded (play_of (⟦<Demo as Meaning>⟧.rules 1)) steps (values_sent sent.now) → ⊥)) }
    ensures refused { IfErr result (λ fault. (steps : List _) × AreDemoSteps inputs steps
        × (IsRefusedScript (⟦<Demo as Meaning>⟧.rules 1) (script_of (fresh_challenger permutation) separator.now steps)
        (values_sent sent.now) fault ⊎ (fault.error ≡ OutOfMemory))) }
{
    let steps = steps(inputs);
    if !sent_matches(&steps, sent) {
        return Ok(None);
    }
    let (prover, verifier) = (challenger(permutation), challenger(permutation));
    let (proved, drawn, challenger) = script::prove_and_verify::<Demo>(
        alloc, prover, verifier, separator, &steps, sent,
    )?;
    Ok(Some(Agreed {
        proved,
        drawn,
        challenger,
    }))
}

/// Verifies a proof with these numbers. An accepted proof is exactly the encoding of the received values and of a
/// witness that passes. A proof that is refused, except when out of memory, encodes no such values.
pub fn verify<'a>(
    alloc: Global,
    permutation: Poseidon2BabyBear16,
    separator: &Separator,
    inputs: Vec<BabyBear>,
    proof: &'a [u8],
) -> Result<Verified<'a, Demo>, Fault>
    ensures accepted { IfOk result (λ verified. (steps : List _) × AreDemoSteps inputs steps
        × IsVerifiedScript (⟦<Demo as Meaning>⟧.rules 1) (script_of (fresh_challenger permutation) separator.now steps)
        proof.now [] ⟦<Challenger as Sponge>⟧.state verified) }
    ensures refused { IfErr result (λ fault. (steps : List _) × AreDemoSteps inputs steps
        × IsRefusedProof (⟦<Demo as Meaning>⟧.rules 1) (script_of (fresh_challenger permutation) separator.now steps)
        proof.now [] fault) }
{
    let steps = steps(inputs);
    script::verify::<Demo>(
        alloc,
        challenger(permutation),
        separator,
        &steps,
        &[],
        proof,
    )
}
