//! The protocol `a "quoted" \ name`, as `tealmuze rust` prints it.

use p3_challenger::fs::script::{AcceptAll, Both, Step, Suite};
use p3_challenger::fs::{DomainSeparator, FieldToFieldCodec, FieldUnit, TranscriptError, script};
use p3_challenger::{HashChallenger, SerializingChallenger32};
use p3_field::{BabyBear, Coeffs};
use p3_keccak::Keccak256Hasher;
use p3_symmetric::Hash;
use std::alloc::{AllocError, Global};

/// The types that play the protocol.
#[derive(Clone, Copy, Debug)]
pub struct Protocol;

impl Suite for Protocol {
    ghost use Rattle.std.{proofs.Common.lit<, specs.List.each_same};
    ghost use Rattle.p3_challenger.specs.{HashValueLaws.values-injective, Digests.values_of, Reading.AreBytes};

    type Field = BabyBear;

    type Extension = Coeffs<BabyBear, 4>;

    type Unit = FieldUnit<BabyBear>;

    type Opaque = Hash<BabyBear, u8, 32>;

    type Challenger = Challenger;

    type Codec = FieldToFieldCodec<BabyBear>;

    type Accept = AcceptAll;

    type Digest = Keccak256Hasher;

    type Group = Both;

    ghost is_own = { λ digest. AreBytes (values_of digest) };

    ghost alphabet = { lit< tt };

    ghost clones = { λ digest copy told. values-injective copy digest
        (each_same (values_of digest) (values_of copy) told.whole) };
}

/// The challenger.
pub type Challenger = SerializingChallenger32<BabyBear, HashChallenger<u8, Keccak256Hasher, 32>>;

/// What binds a transcript to the protocol.
pub type Separator = DomainSeparator<FieldUnit<BabyBear>, Keccak256Hasher>;

/// What both sides begin with: a challenger that observed nothing.
pub fn challenger(alloc: Global) -> Challenger {
    let inner = HashChallenger::new(Vec::new(alloc), Keccak256Hasher);
    Challenger::new(inner, 1000)
}

/// The steps, in order.
pub fn steps(alloc: Global) -> Result<Vec<Step<Protocol>>, AllocError> {
    Ok(vec![in alloc;
        Step::PublicScalars {
            label: "none",
            values: Vec::new(alloc),
        },
        Step::Opaque {
            label: "éẟ \"label\"",
            value: Hash::from([
                255, 255, 255, 255, 255, 255, 255, 255, 255, 255, 255, 255, 255, 255, 255, 255,
                255, 255, 255, 255, 255, 255, 255, 255, 255, 255, 255, 255, 255, 255, 255, 255,
            ]),
        },
        Step::ChallengeExtension { label: "beta" },
    ]?)
}

/// The version and the name of the protocol, the pattern of its steps, and the instance.
pub fn separator<S: Suite>(
    alloc: Global,
    steps: &[Step<S>],
) -> Result<DomainSeparator<S::Unit, S::Digest>, TranscriptError> {
    let pattern = script::pattern::<S>(alloc, steps)?;
    DomainSeparator::new(alloc, 1, "a \"quoted\" \\ name".as_bytes(), pattern)
}
