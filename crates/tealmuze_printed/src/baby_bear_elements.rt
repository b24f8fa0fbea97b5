//! The protocol `work`, as `tealmuze rust` prints it.

use p3_challenger::fs::script::{AcceptAll, Both, Step, Suite};
use p3_challenger::fs::{
    DomainSeparator, FieldToFieldCodec, FieldUnit, Kind, TranscriptError, script,
};
use p3_challenger::{HashChallenger, SerializingChallenger32};
use p3_field::{BabyBear, Coeffs};
use p3_symmetric::{Hash, Sha256Hasher};
use std::alloc::Global;

/// The types that play the protocol.
#[derive(Clone, Copy, Debug)]
pub struct Protocol;

impl Suite for Protocol {
    ghost use Rattle.std.{proofs.Common.lit<, specs.List.each_same};
    ghost use Rattle.p3_challenger.specs.{HashValueLaws.values-injective, Digests.values_of, Reading.AreBytes};

    type Field = BabyBear;

    type Extension = Coeffs<BabyBear, 4>;

    type Unit = FieldUnit<BabyBear>;

    type Opaque = Hash<BabyBear, u8, 32>;

    type Challenger = Challenger;

    type Codec = FieldToFieldCodec<BabyBear>;

    type Accept = AcceptAll;

    type Digest = Sha256Hasher;

    type Group = Both;

    ghost is_own = { λ digest. AreBytes (values_of digest) };

    ghost alphabet = { lit< tt };

    ghost clones = { λ digest copy told. values-injective copy digest
        (each_same (values_of digest) (values_of copy) told.whole) };
}

/// The challenger.
pub type Challenger = SerializingChallenger32<BabyBear, HashChallenger<u8, Sha256Hasher, 32>>;

/// What binds a transcript to the protocol.
pub type Separator = DomainSeparator<FieldUnit<BabyBear>, Sha256Hasher>;

/// What both sides begin with: a challenger that observed nothing.
pub fn challenger(alloc: Global) -> Challenger {
    let inner = HashChallenger::new(Vec::new(alloc), Sha256Hasher);
    Challenger::new(inner, 1000)
}

/// The steps, in order.
pub fn steps() -> [Step<Protocol>; 9] {
    [
        Step::Begin {
            label: "work",
            kind: Kind::Protocol,
        },
        Step::Opaque {
            label: "digest",
            value: Hash::from([
                0, 1, 2, 3, 4, 5, 6, 7, 8, 9, 10, 11, 12, 13, 14, 15, 16, 17, 18, 19, 20, 21, 22,
                23, 24, 25, 26, 27, 28, 29, 30, 31,
            ]),
        },
        Step::Begin {
            label: "grinding",
            kind: Kind::Pow,
        },
        Step::Pow {
            label: "in the proof",
            bits: 8,
        },
        Step::ObservePow {
            label: "beside it",
            bits: 4,
        },
        Step::End {
            label: "grinding",
            kind: Kind::Pow,
        },
        Step::ChallengeBits {
            label: "indices",
            width: 20,
            n: 2,
        },
        Step::ChallengeUniformBits {
            label: "uniform",
            width: 4,
            n: 3,
        },
        Step::End {
            label: "work",
            kind: Kind::Protocol,
        },
    ]
}

/// The version and the name of the protocol, the pattern of its steps, and the instance.
pub fn separator<S: Suite>(
    alloc: Global,
    steps: &[Step<S>],
) -> Result<DomainSeparator<S::Unit, S::Digest>, TranscriptError> {
    let pattern = script::pattern::<S>(alloc, steps)?;
    let mut separator = DomainSeparator::new(alloc, 2, "work".as_bytes(), pattern)?;
    separator.instance(&[101, 120, 97, 109, 112, 108, 101])?;
    Ok(separator)
}
