//! The protocol `two fields`, as `tealmuze rust` prints it.

use p3_challenger::fs::script::{AcceptAll, BitsPow, Step, Suite};
use p3_challenger::fs::{DomainSeparator, FieldToFieldCodec, FieldUnit, TranscriptError, script};
use p3_challenger::{MultiField32Challenger, MultiField32ChallengerError};
use p3_field::{BabyBear, Coeffs, Goldilocks, PrimeCharacteristicRing};
use p3_keccak::Keccak256Hasher;
use p3_poseidon2::{Poseidon2Goldilocks8, default_goldilocks_poseidon2_8};
use p3_symmetric::Hash;
use std::alloc::{AllocError, Global};

/// The types that play the protocol.
#[derive(Clone, Copy, Debug)]
pub struct Protocol;

impl Suite for Protocol {
    ghost use Rattle.std.{proofs.Common.lit<, specs.List.each_same};
    ghost use Rattle.p3_challenger.specs.{HashValueLaws.values-injective, Digests.values_of};

    type Field = BabyBear;

    type Extension = Coeffs<BabyBear, 4>;

    type Unit = FieldUnit<BabyBear>;

    type Opaque = Hash<BabyBear, Goldilocks, 4>;

    type Challenger = Challenger;

    type Codec = FieldToFieldCodec<BabyBear>;

    type Accept = AcceptAll;

    type Digest = Keccak256Hasher;

    type Group = BitsPow;

    ghost is_own = { λ _. Unit {0} };

    ghost alphabet = { lit< tt };

    ghost clones = { λ digest copy told. values-injective copy digest
        (each_same (values_of digest) (values_of copy) told.whole) };
}

/// The challenger.
pub type Challenger = MultiField32Challenger<BabyBear, Goldilocks, Poseidon2Goldilocks8, 8, 4>;

/// What binds a transcript to the protocol.
pub type Separator = DomainSeparator<FieldUnit<BabyBear>, Keccak256Hasher>;

/// What both sides begin with: a challenger that observed nothing.
pub fn challenger() -> Result<Challenger, MultiField32ChallengerError> {
    Challenger::new(default_goldilocks_poseidon2_8())
}

/// The steps, in order.
pub fn steps(alloc: Global) -> Result<Vec<Step<Protocol>>, AllocError> {
    Ok(vec![in alloc;
        Step::Opaque {
            label: "digest",
            value: Hash::from([
                Goldilocks::from_u64(1),
                Goldilocks::from_u64(2),
                Goldilocks::from_u64(3),
                Goldilocks::from_u64(18446744069414584320),
            ]),
        },
        Step::PublicScalars {
            label: "scalars",
            values: vec![in alloc;
                BabyBear::from_u64(4),
                BabyBear::from_u64(5),
                BabyBear::from_u64(6),
            ]?,
        },
        Step::ObservePow {
            label: "work",
            bits: 3,
        },
        Step::ChallengeBits {
            label: "index",
            width: 10,
            n: 2,
        },
    ]?)
}

/// The version and the name of the protocol, the pattern of its steps, and the instance.
pub fn separator<S: Suite>(
    alloc: Global,
    steps: &[Step<S>],
) -> Result<DomainSeparator<S::Unit, S::Digest>, TranscriptError> {
    let pattern = script::pattern::<S>(alloc, steps)?;
    DomainSeparator::new(alloc, 1, "two fields".as_bytes(), pattern)
}
