// A pattern of the Rust crate's own tests, with the digest that its BabyBear's identity has.
ghost use Rattle.std.specs.Prelude.{◌∷◌, [], codes, refl};
ghost use Rattle.conformance_keccak.specs.declared.rendering.TheConstants.{BABY_BEAR};

use anyhow::Result;
use p3_digest_table::{DigestTable, KnownDigest, TabledHasher};
use p3_fs_core::{Hierarchy, Interaction, Kind, Label, Length};
use p3_keccak::Keccak256Hasher;
use p3_patterns::InteractionPattern;
use p3_small_primes::BabyBear;
use std::alloc::Global;

// Keccak-256, but for what the Rust crate's fields have as identities.
type Hasher = TabledHasher<Identities, Keccak256Hasher>;

// The digests that the identities of the Rust crate's fields have, by the texts that stand here for them.
struct Identities;

// What the Rust crate's BabyBear digests to.
const BABY_BEAR: [u8; 32] = [
    0xcf, 0xa3, 0x53, 0xfe, 0x66, 0xee, 0xea, 0xe7, 0x60, 0x02, 0x54, 0xa6, 0x80, 0x73, 0xd5, 0x71,
    0x25, 0xab, 0xac, 0x38, 0x20, 0xfd, 0xe7, 0xa3, 0xe3, 0x2c, 0x84, 0x48, 0x2b, 0x82, 0x64, 0x69,
];

const LINES: [KnownDigest; 1] = [KnownDigest {
    text: b"prime:2013265921",
    digest: BABY_BEAR,
}];

impl DigestTable for Identities {
    ghost lines = { record { text = codes "prime:2013265921"; digest = BABY_BEAR } ∷ [] };

    ghost digests = { refl };

    fn lines() -> &'static [KnownDigest] {
        &LINES
    }
}

fn step(kind: Kind, label: Label) -> Interaction {
    Interaction::algebra::<BabyBear, BabyBear, Hasher>(
        Hierarchy::Atomic,
        kind,
        label,
        Length::Scalar,
    )
}

/// A protocol with one challenge.
pub fn pattern(alloc: Global) -> Result<InteractionPattern> {
    let steps = [
        Interaction::marker::<()>(Hierarchy::Begin, Kind::Protocol, "test"),
        step(Kind::Challenge, "nonce"),
        Interaction::marker::<()>(Hierarchy::End, Kind::Protocol, "test"),
    ];
    Ok(InteractionPattern::new(Vec::from_slice(alloc, &steps)?)?)
}

/// The digest of a pattern, in hexadecimal digits.
pub fn digest(alloc: Global, pattern: &InteractionPattern) -> Result<String> {
    Ok(hex::encode(alloc, pattern.pattern_hash::<Hasher>()?)?)
}

/// A step that sends one value.
pub fn message() -> Interaction {
    step(Kind::Message, "test-message")
}
