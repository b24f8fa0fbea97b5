//! The protocol `known`, as `tealmuze rust` prints it.

use p3_challenger::HashChallenger;
use p3_challenger::fs::script::{AcceptAll, Plain, Step, Suite};
use p3_challenger::fs::{BytesToFieldCodec, DomainSeparator, Kind, TranscriptError, script};
use p3_field::{BabyBear, Coeffs, PrimeCharacteristicRing};
use p3_symmetric::Sha256Hasher;
use std::alloc::{AllocError, Global};

/// The types that play the protocol.
#[derive(Clone, Copy, Debug)]
pub struct Protocol;

impl Suite for Protocol {
    ghost use Rattle.std.specs.{Prelude.{◌≡◌, length}, List.each_same};

    type Field = BabyBear;

    type Extension = Coeffs<BabyBear, 4>;

    type Unit = u8;

    type Opaque = [u8; 32];

    type Challenger = Challenger;

    type Codec = BytesToFieldCodec<BabyBear>;

    type Accept = AcceptAll;

    type Digest = Sha256Hasher;

    type Group = Plain;

    ghost is_own = { λ values. length values ≡ 32 };

    ghost alphabet = { tt };

    ghost clones = { λ values copy told. each_same values copy told.whole };
}

/// The challenger.
pub type Challenger = HashChallenger<u8, Sha256Hasher, 32>;

/// What binds a transcript to the protocol.
pub type Separator = DomainSeparator<u8, Sha256Hasher>;

/// What both sides begin with: a challenger that observed nothing.
pub fn challenger(alloc: Global) -> Challenger {
    HashChallenger::new(Vec::new(alloc), Sha256Hasher)
}

/// The steps, in order.
pub fn steps(alloc: Global) -> Result<Vec<Step<Protocol>>, AllocError> {
    let mut steps = Vec::new(alloc);
    steps.push(Step::Begin {
        label: "known",
        kind: Kind::Protocol,
    })?;
    steps.push(Step::PublicScalar {
        label: "scalar",
        value: BabyBear::from_u64(5),
    })?;
    steps.push(Step::PublicScalars {
        label: "scalars",
        values: vec![in alloc; BabyBear::from_u64(1), BabyBear::from_u64(2013265920)]?,
    })?;
    steps.push(Step::PublicScalarsBounded {
        label: "counted",
        values: vec![in alloc; BabyBear::from_u64(7)]?,
        max: 4,
    })?;
    steps.push(Step::ObserveExtension {
        label: "element",
        value: Coeffs::new([
            BabyBear::from_u64(1),
            BabyBear::from_u64(2),
            BabyBear::from_u64(3),
            BabyBear::from_u64(4),
        ]),
    })?;
    steps.push(Step::ObserveExtensions {
        label: "elements",
        values: vec![in alloc;
            Coeffs::new([
                BabyBear::from_u64(5),
                BabyBear::from_u64(6),
                BabyBear::from_u64(7),
                BabyBear::from_u64(8)
            ]),
            Coeffs::new([
                BabyBear::from_u64(0),
                BabyBear::from_u64(0),
                BabyBear::from_u64(0),
                BabyBear::from_u64(1)
            ]),
        ]?,
    })?;
    steps.push(Step::ObserveExtensionsBounded {
        label: "counted elements",
        values: vec![in alloc;
            Coeffs::new([
                BabyBear::from_u64(9),
                BabyBear::from_u64(0),
                BabyBear::from_u64(0),
                BabyBear::from_u64(0)
            ]),
        ]?,
        max: 2,
    })?;
    steps.push(Step::Opaque {
        label: "digest",
        value: [
            0, 1, 2, 3, 4, 5, 6, 7, 8, 9, 10, 11, 12, 13, 14, 15, 16, 17, 18, 19, 20, 21, 22, 23,
            24, 25, 26, 27, 28, 29, 30, 31,
        ],
    })?;
    for _ in 0..2 {
        steps.push(Step::ChallengeScalar { label: "alpha" })?;
        steps.push(Step::ChallengeExtension { label: "beta" })?;
    }
    steps.push(Step::ChallengeScalars {
        label: "gammas",
        n: 2,
    })?;
    steps.push(Step::ChallengeExtensions {
        label: "deltas",
        n: 2,
    })?;
    steps.push(Step::End {
        label: "known",
        kind: Kind::Protocol,
    })?;
    Ok(steps)
}

/// The version and the name of the protocol, the pattern of its steps, and the instance.
pub fn separator<S: Suite>(
    alloc: Global,
    steps: &[Step<S>],
) -> Result<DomainSeparator<S::Unit, S::Digest>, TranscriptError> {
    let pattern = script::pattern::<S>(alloc, steps)?;
    let mut separator = DomainSeparator::new(alloc, 1, "known".as_bytes(), pattern)?;
    separator.instance(&[0, 255])?;
    separator.instance(&[])?;
    Ok(separator)
}
