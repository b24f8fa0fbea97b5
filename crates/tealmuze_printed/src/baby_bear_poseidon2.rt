//! The protocol `cells`, as `tealmuze rust` prints it.

use p3_challenger::DuplexChallenger;
use p3_challenger::fs::script::{AcceptAll, Both, Step, Suite};
use p3_challenger::fs::{DomainSeparator, FieldToFieldCodec, FieldUnit, TranscriptError, script};
use p3_field::{BabyBear, Coeffs, PrimeCharacteristicRing};
use p3_keccak::Keccak256Hasher;
use p3_poseidon2::{Poseidon2BabyBear16, default_babybear_poseidon2_16};
use p3_symmetric::Hash;
use std::alloc::Global;

/// The types that play the protocol.
#[derive(Clone, Copy, Debug)]
pub struct Protocol;

impl Suite for Protocol {
    ghost use Rattle.std.{proofs.Common.lit<, specs.List.each_same};
    ghost use Rattle.p3_challenger.specs.{HashValueLaws.values-injective, Digests.values_of};

    type Field = BabyBear;

    type Extension = Coeffs<BabyBear, 4>;

    type Unit = FieldUnit<BabyBear>;

    type Opaque = Hash<BabyBear, BabyBear, 8>;

    type Challenger = Challenger;

    type Codec = FieldToFieldCodec<BabyBear>;

    type Accept = AcceptAll;

    type Digest = Keccak256Hasher;

    type Group = Both;

    ghost is_own = { λ _. Unit {0} };

    ghost alphabet = { lit< tt };

    ghost clones = { λ digest copy told. values-injective copy digest
        (each_same (values_of digest) (values_of copy) told.whole) };
}

/// The challenger.
pub type Challenger = DuplexChallenger<BabyBear, Poseidon2BabyBear16, 16, 8>;

/// What binds a transcript to the protocol.
pub type Separator = DomainSeparator<FieldUnit<BabyBear>, Keccak256Hasher>;

/// What both sides begin with: a challenger that observed nothing.
pub fn challenger() -> Challenger {
    Challenger::new(default_babybear_poseidon2_16(), 1000)
}

/// The steps, in order.
pub fn steps() -> [Step<Protocol>; 5] {
    [
        Step::Opaque {
            label: "digest",
            value: Hash::from([
                BabyBear::from_u64(1),
                BabyBear::from_u64(2),
                BabyBear::from_u64(3),
                BabyBear::from_u64(4),
                BabyBear::from_u64(5),
                BabyBear::from_u64(6),
                BabyBear::from_u64(7),
                BabyBear::from_u64(2013265920),
            ]),
        },
        Step::ObserveExtension {
            label: "element",
            value: Coeffs::new([
                BabyBear::from_u64(1),
                BabyBear::from_u64(0),
                BabyBear::from_u64(0),
                BabyBear::from_u64(2),
            ]),
        },
        Step::Pow {
            label: "work",
            bits: 4,
        },
        Step::ChallengeExtension { label: "beta" },
        Step::ChallengeUniformBits {
            label: "index",
            width: 8,
            n: 2,
        },
    ]
}

/// The version and the name of the protocol, the pattern of its steps, and the instance.
pub fn separator<S: Suite>(
    alloc: Global,
    steps: &[Step<S>],
) -> Result<DomainSeparator<S::Unit, S::Digest>, TranscriptError> {
    let pattern = script::pattern::<S>(alloc, steps)?;
    DomainSeparator::new(alloc, 1, "cells".as_bytes(), pattern)
}
