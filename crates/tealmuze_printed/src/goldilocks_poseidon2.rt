//! The protocol `cells`, as `tealmuze rust` prints it.

use p3_challenger::DuplexChallenger;
use p3_challenger::fs::script::{AcceptAll, Both, Step, Suite};
use p3_challenger::fs::{DomainSeparator, FieldToFieldCodec, FieldUnit, TranscriptError, script};
use p3_field::{Goldilocks, PrimeCharacteristicRing};
use p3_keccak::Keccak256Hasher;
use p3_poseidon2::{Poseidon2Goldilocks8, default_goldilocks_poseidon2_8};
use p3_symmetric::Hash;
use std::alloc::{AllocError, Global};

/// The types that play the protocol.
#[derive(Clone, Copy, Debug)]
pub struct Protocol;

impl Suite for Protocol {
    ghost use Rattle.std.{proofs.Common.lit<, specs.List.each_same};
    ghost use Rattle.p3_challenger.specs.{HashValueLaws.values-injective, Digests.values_of};

    type Field = Goldilocks;

    type Extension = Goldilocks;

    type Unit = FieldUnit<Goldilocks>;

    type Opaque = Hash<Goldilocks, Goldilocks, 4>;

    type Challenger = Challenger;

    type Codec = FieldToFieldCodec<Goldilocks>;

    type Accept = AcceptAll;

    type Digest = Keccak256Hasher;

    type Group = Both;

    ghost is_own = { λ _. Unit {0} };

    ghost alphabet = { lit< tt };

    ghost clones = { λ digest copy told. values-injective copy digest
        (each_same (values_of digest) (values_of copy) told.whole) };
}

/// The challenger.
pub type Challenger = DuplexChallenger<Goldilocks, Poseidon2Goldilocks8, 8, 4>;

/// What binds a transcript to the protocol.
pub type Separator = DomainSeparator<FieldUnit<Goldilocks>, Keccak256Hasher>;

/// What both sides begin with: a challenger that observed nothing.
pub fn challenger() -> Challenger {
    Challenger::new(default_goldilocks_poseidon2_8(), 1000)
}

/// The steps, in order.
pub fn steps(alloc: Global) -> Result<Vec<Step<Protocol>>, AllocError> {
    Ok(vec![in alloc;
        Step::Opaque {
            label: "digest",
            value: Hash::from([
                Goldilocks::from_u64(1),
                Goldilocks::from_u64(2),
                Goldilocks::from_u64(3),
                Goldilocks::from_u64(18446744069414584320),
            ]),
        },
        Step::PublicScalarsBounded {
            label: "counted",
            values: vec![in alloc; Goldilocks::from_u64(1), Goldilocks::from_u64(2)]?,
            max: 1000,
        },
        Step::ChallengeExtension { label: "beta" },
    ]?)
}

/// The version and the name of the protocol, the pattern of its steps, and the instance.
pub fn separator<S: Suite>(
    alloc: Global,
    steps: &[Step<S>],
) -> Result<DomainSeparator<S::Unit, S::Digest>, TranscriptError> {
    let pattern = script::pattern::<S>(alloc, steps)?;
    DomainSeparator::new(alloc, 1, "cells".as_bytes(), pattern)
}
