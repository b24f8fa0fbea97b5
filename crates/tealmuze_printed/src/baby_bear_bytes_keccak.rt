//! The protocol `sent`, as `tealmuze rust` prints it.

use p3_challenger::HashChallenger;
use p3_challenger::fs::script::{AcceptAll, Plain, Step, Suite};
use p3_challenger::fs::{BytesToFieldCodec, DomainSeparator, Kind, TranscriptError, script};
use p3_field::{BabyBear, Coeffs};
use p3_keccak::Keccak256Hasher;
use std::alloc::Global;

/// The types that play the protocol.
#[derive(Clone, Copy, Debug)]
pub struct Protocol;

impl Suite for Protocol {
    ghost use Rattle.std.specs.{Prelude.{◌≡◌, length}, List.each_same};

    type Field = BabyBear;

    type Extension = Coeffs<BabyBear, 4>;

    type Unit = u8;

    type Opaque = [u8; 32];

    type Challenger = Challenger;

    type Codec = BytesToFieldCodec<BabyBear>;

    type Accept = AcceptAll;

    type Digest = Keccak256Hasher;

    type Group = Plain;

    ghost is_own = { λ values. length values ≡ 32 };

    ghost alphabet = { tt };

    ghost clones = { λ values copy told. each_same values copy told.whole };
}

/// The challenger.
pub type Challenger = HashChallenger<u8, Keccak256Hasher, 32>;

/// What binds a transcript to the protocol.
pub type Separator = DomainSeparator<u8, Keccak256Hasher>;

/// What both sides begin with: a challenger that observed nothing.
pub fn challenger(alloc: Global) -> Challenger {
    HashChallenger::new(Vec::new(alloc), Keccak256Hasher)
}

/// The steps, in order.
pub fn steps() -> [Step<Protocol>; 12] {
    [
        Step::Begin {
            label: "sent",
            kind: Kind::Protocol,
        },
        Step::Salt {
            label: "salt",
            len: 8,
        },
        Step::Bytes {
            label: "root",
            len: 32,
        },
        Step::Hint {
            label: "opening",
            len: 4,
        },
        Step::BytesBounded {
            label: "note",
            max: 300,
        },
        Step::HintBounded {
            label: "openings",
            max: 16,
        },
        Step::Scalar { label: "claim" },
        Step::Scalars {
            label: "values",
            n: 3,
        },
        Step::ScalarsBounded {
            label: "counted",
            max: 4,
        },
        Step::Extension { label: "sum" },
        Step::ChallengeScalar { label: "alpha" },
        Step::End {
            label: "sent",
            kind: Kind::Protocol,
        },
    ]
}

/// The version and the name of the protocol, the pattern of its steps, and the instance.
pub fn separator<S: Suite>(
    alloc: Global,
    steps: &[Step<S>],
) -> Result<DomainSeparator<S::Unit, S::Digest>, TranscriptError> {
    let pattern = script::pattern::<S>(alloc, steps)?;
    DomainSeparator::new(alloc, 255, "sent".as_bytes(), pattern)
}
