//! The protocol `greatest`, as `tealmuze rust` prints it.

use p3_challenger::HashChallenger;
use p3_challenger::fs::script::{AcceptAll, Plain, Step, Suite};
use p3_challenger::fs::{BytesToFieldCodec, DomainSeparator, TranscriptError, script};
use p3_field::{Goldilocks, PrimeCharacteristicRing};
use p3_symmetric::Sha256Hasher;
use std::alloc::{AllocError, Global};

/// The types that play the protocol.
#[derive(Clone, Copy, Debug)]
pub struct Protocol;

impl Suite for Protocol {
    ghost use Rattle.std.specs.{Prelude.{◌≡◌, length}, List.each_same};

    type Field = Goldilocks;

    type Extension = Goldilocks;

    type Unit = u8;

    type Opaque = [u8; 32];

    type Challenger = Challenger;

    type Codec = BytesToFieldCodec<Goldilocks>;

    type Accept = AcceptAll;

    type Digest = Sha256Hasher;

    type Group = Plain;

    ghost is_own = { λ values. length values ≡ 32 };

    ghost alphabet = { tt };

    ghost clones = { λ values copy told. each_same values copy told.whole };
}

/// The challenger.
pub type Challenger = HashChallenger<u8, Sha256Hasher, 32>;

/// What binds a transcript to the protocol.
pub type Separator = DomainSeparator<u8, Sha256Hasher>;

/// What both sides begin with: a challenger that observed nothing.
pub fn challenger(alloc: Global) -> Challenger {
    HashChallenger::new(Vec::new(alloc), Sha256Hasher)
}

/// The steps, in order.
pub fn steps(alloc: Global) -> Result<Vec<Step<Protocol>>, AllocError> {
    Ok(vec![in alloc;
        Step::PublicScalar {
            label: "greatest",
            value: Goldilocks::from_u64(18446744069414584320),
        },
        Step::ObserveExtension {
            label: "element",
            value: Goldilocks::from_u64(3),
        },
        Step::ObserveExtensions {
            label: "elements",
            values: vec![in alloc; Goldilocks::from_u64(1), Goldilocks::from_u64(2)]?,
        },
        Step::Opaque {
            label: "digest",
            value: [
                241, 225, 209, 193, 177, 161, 145, 129, 113, 97, 81, 65, 49, 33, 17, 1, 240, 224,
                208, 192, 176, 160, 144, 128, 112, 96, 80, 64, 48, 32, 16, 0,
            ],
        },
        Step::ChallengeScalar { label: "alpha" },
        Step::ChallengeExtension { label: "beta" },
    ]?)
}

/// The version and the name of the protocol, the pattern of its steps, and the instance.
pub fn separator<S: Suite>(
    alloc: Global,
    steps: &[Step<S>],
) -> Result<DomainSeparator<S::Unit, S::Digest>, TranscriptError> {
    let pattern = script::pattern::<S>(alloc, steps)?;
    DomainSeparator::new(alloc, 1, "greatest".as_bytes(), pattern)
}
