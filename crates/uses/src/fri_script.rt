//! The commit phase of FRI as a script: of each layer the prover sends the root, and a challenge folds the layer to half its
//! length. In the end it sends the one value that is left. So each root after the first one depends on the challenges
//! before it.
//!
//! The steps are data, and their pattern is made of them. The prover's code is a closure that gives the next message.
//! Nothing is proved of it but that it ends. The contract of [`prove`] says that the proof is that of the messages which it
//! gave, and the contract of [`verify`] which bytes are accepted, from any prover.
//!
//! Layers are of the base field here, and a tree is of one leaf, which has the whole layer.
ghost use Rattle.std.specs.Prelude.{◌≡◌, [], IfOk, IfErr};
ghost use Rattle.p3_challenger.specs.{HashCalls.with_pending, Verdicts.script_of};
ghost use Rattle.p3_challenger.specs.{Runs.{AreAdmitted, carried_count}, Scripts.{play_of, values_sent}};
ghost use Rattle.p3_challenger.specs.{ProverAnswers.IsProvedScript, VerifierAnswers.{IsVerifiedScript, IsRefusedProof}};

use p3_challenger::fs::script::{
    AcceptAll, Answered, Drawn, Fault, Meaning, Plain, ProveByError, Sent, Step, Suite, Verified,
};
use p3_challenger::fs::{BytesToFieldCodec, DomainSeparator, Kind, TranscriptError, script};
use p3_challenger::{HashChallenger, Sponge};
use p3_field::{BabyBear, Coeffs, PrimeCharacteristicRing, PrimeField32};
use p3_symmetric::{DigestHasher, Sha256Hasher};
use std::alloc::{AllocError, Global};

/// The types that play the protocol.
#[derive(Clone, Copy, Debug)]
pub struct Fri;

impl Suite for Fri {
    ghost use Rattle.std.specs.{Prelude.{◌≡◌, length}, List.each_same};

    type Field = BabyBear;

    type Extension = Coeffs<BabyBear, 4>;

    type Unit = u8;

    type Opaque = [u8; 32];

    type Challenger = Challenger;

    type Codec = BytesToFieldCodec<BabyBear>;

    type Accept = AcceptAll;

    type Digest = Sha256Hasher;

    type Group = Plain;

    ghost is_own = { λ values. length values ≡ 32 };

    ghost alphabet = { tt };

    ghost clones = { λ values copy told. each_same values copy told.whole };
}

/// A challenger of bytes, over SHA-256.
pub type Challenger = HashChallenger<u8, Sha256Hasher, 32>;

/// What binds a transcript to the protocol: its version, its name and its pattern.
pub type Separator = DomainSeparator<u8, Sha256Hasher>;

// What both sides begin with.
fn challenger(alloc: Global) -> Challenger
    ensures { result ≡ record { sponge = with_pending []; hasher = record {} } }
{
    HashChallenger::new(Vec::new(alloc), Sha256Hasher)
}

/// The steps, of so many rounds.
pub fn steps(alloc: Global, rounds: usize) -> Result<Vec<Step<Fri>>, AllocError> {
    let kind = Kind::Protocol;
    let mut steps = Vec::new(alloc);
    steps.push(Step::Begin { label: "fri", kind })?;
    for _ in 0..rounds {
        steps.push(Step::Bytes {
            label: "root",
            len: 32,
        })?;
        steps.push(Step::ChallengeScalar { label: "beta" })?;
    }
    steps.push(Step::Scalar { label: "constant" })?;
    steps.push(Step::End { label: "fri", kind })?;
    Ok(steps)
}

/// What binds a transcript to these steps, to version 1 and to the name `fri`.
pub fn separator(alloc: Global, steps: &[Step<Fri>]) -> Result<Separator, TranscriptError> {
    Separator::new(alloc, 1, b"fri", script::pattern::<Fri>(alloc, steps)?)
}

/// Why there is no next message.
#[derive(Debug, PartialEq, Drop)]
pub enum FoldError {
    /// Memory is out.
    OutOfMemory,
    /// The steps draw more challenges than the layer can be folded by, or other ones.
    OtherSteps,
}

impl From<AllocError> for FoldError {
    fn from(_error: AllocError) -> FoldError {
        FoldError::OutOfMemory
    }
}

/// Proves that the layer was folded to one value. A proof is the one of the messages that were sent, and verifies. No clause
/// says what these are: tests alone compare them.
///
/// Condition: the suite has the steps, as [`script::admitted`] says.
pub fn prove(
    alloc: Global,
    separator: &Separator,
    steps: &[Step<Fri>],
    layer: Vec<BabyBear>,
) -> Result<Answered<Fri>, ProveByError<FoldError>>
    requires admitted { AreAdmitted (play_of (⟦<Fri as Meaning>⟧.rules 1)) steps.now }
    ensures proved { IfOk result (λ a. IsProvedScript (⟦<Fri as Meaning>⟧.rules 1)
        (script_of (record { sponge = with_pending []; hasher = record {} }) separator.now steps.now)
        (values_sent a.sent.items) ⟦<Challenger as Sponge>⟧.state a.proved) }
{
    let mut folding = Folding { layer, folds: 0 };
    script::prove_by::<Fri, FoldError, _>(
        alloc,
        challenger(alloc),
        separator,
        steps,
        move |_position: usize, challenges: &[Drawn<Fri>]| folding.message(alloc, challenges),
    )
}

/// Verifies a proof. Accepted are just the bytes of a run of the steps, whole: what is received is encoded in them, and each
/// challenge is drawn after all that came before it.
///
/// Conditions: the suite has the steps, as [`script::admitted`] says, and [`script::carried_len`] is 0.
pub fn verify<'a>(
    alloc: Global,
    separator: &Separator,
    steps: &[Step<Fri>],
    proof: &'a [u8],
) -> Result<Verified<'a, Fri>, Fault>
    requires admitted { AreAdmitted (play_of (⟦<Fri as Meaning>⟧.rules 1)) steps.now }
    requires carried { carried_count (play_of (⟦<Fri as Meaning>⟧.rules 1)) steps.now ≡ 0 }
    ensures accepted { IfOk result (IsVerifiedScript (⟦<Fri as Meaning>⟧.rules 1)
        (script_of (record { sponge = with_pending []; hasher = record {} }) separator.now steps.now)
        proof.now [] ⟦<Challenger as Sponge>⟧.state) }
    ensures refused { IfErr result (IsRefusedProof (⟦<Fri as Meaning>⟧.rules 1)
        (script_of (record { sponge = with_pending []; hasher = record {} }) separator.now steps.now)
        proof.now []) }
{
    script::verify::<Fri>(alloc, challenger(alloc), separator, steps, &[], proof)
}

// ---- the prover's messages

// The layer that was folded last, and by how many challenges.
#[derive(Drop)]
struct Folding {
    layer: Vec<BabyBear>,
    folds: usize,
}

impl Folding {
    // The next message: the root of a layer of several values, and the value itself of a layer of one.
    fn message(
        &mut self,
        alloc: Global,
        challenges: &[Drawn<Fri>],
    ) -> Result<Sent<Fri>, FoldError> {
        self.catch_up(alloc, challenges)?;
        match &self.layer[..] {
            [] => Err(FoldError::OtherSteps),
            [constant] => Ok(Sent::Scalar(*constant)),
            layer => Ok(Sent::Bytes(root(alloc, layer)?)),
        }
    }

    // Folds by the challenge that was drawn last, if it was not folded by yet.
    fn catch_up(&mut self, alloc: Global, challenges: &[Drawn<Fri>]) -> Result<(), FoldError> {
        if challenges.len() == self.folds {
            return Ok(());
        }
        let Some(Drawn::Scalars(betas)) = challenges.last() else {
            return Err(FoldError::OtherSteps);
        };
        for beta in betas {
            self.layer = fold(alloc, &self.layer, *beta)?;
        }
        self.folds = challenges.len();
        Ok(())
    }
}

// Half as many values: each the first of two, and the second times the challenge.
fn fold(alloc: Global, layer: &[BabyBear], beta: BabyBear) -> Result<Vec<BabyBear>, AllocError> {
    let mut folded = Vec::new(alloc);
    for pair in layer.chunks_exact(2) {
        if let [even, odd] = pair {
            folded.push(*even + beta * *odd)?;
        }
    }
    Ok(folded)
}

// The root of a tree of one leaf, which has the whole layer.
fn root(alloc: Global, layer: &[BabyBear]) -> Result<Vec<u8>, AllocError> {
    let mut leaf: Vec<u8> = Vec::new(alloc);
    for value in layer {
        for byte in value.as_canonical_u32().to_be_bytes() {
            leaf.push(byte)?;
        }
    }
    Ok(Vec::from_array(alloc, Sha256Hasher::digest(&leaf))?)
}
