// The suites that a file can name, as code has them.
use anyhow::{Result, bail};
use std::fmt;

/// A field of scalars.
#[derive(Clone, Copy, PartialEq)]
pub enum FieldCode {
    /// With an extension of degree 4.
    BabyBear,
    /// Its own extension.
    Goldilocks,
}

impl FieldCode {
    /// The name of the field.
    pub fn name(self) -> &'static str {
        match self {
            FieldCode::BabyBear => "BabyBear",
            FieldCode::Goldilocks => "Goldilocks",
        }
    }

    /// The type of the extension.
    pub fn extension(self) -> &'static str {
        match self {
            FieldCode::BabyBear => "Coeffs<BabyBear, 4>",
            FieldCode::Goldilocks => "Goldilocks",
        }
    }

    /// What stands around the coefficients of an element of the extension.
    pub fn around_coefficients(self) -> (&'static str, &'static str) {
        match self {
            FieldCode::BabyBear => ("Coeffs::new([", "])"),
            FieldCode::Goldilocks => ("", ""),
        }
    }
}

/// What a challenger is made of. Hash functions stand by their names.
#[derive(Clone, Copy)]
pub enum ChallengerCode {
    /// A hash function, for bytes.
    Bytes(&'static str),
    /// A hash function, for elements.
    Elements(&'static str),
    /// Poseidon2 over the field.
    Permuted,
    /// Poseidon2 over Goldilocks, for elements of a smaller field.
    PermutedLarger,
}

/// A suite.
#[derive(Clone, Copy)]
pub struct SuiteCode {
    /// The field of scalars.
    pub field: FieldCode,
    /// The challenger.
    pub challenger: ChallengerCode,
}

const SHA256: &str = "Sha256Hasher";

const KECCAK256: &str = "Keccak256Hasher";

impl SuiteCode {
    /// The suite that a file calls by this name.
    pub fn named(name: &str) -> Result<SuiteCode> {
        use ChallengerCode::{Bytes, Elements, Permuted, PermutedLarger};
        use FieldCode::{BabyBear, Goldilocks};
        let (field, challenger) = match name {
            "baby-bear-bytes" => (BabyBear, Bytes(SHA256)),
            "baby-bear-bytes-keccak" => (BabyBear, Bytes(KECCAK256)),
            "goldilocks-bytes" => (Goldilocks, Bytes(SHA256)),
            "baby-bear-elements" => (BabyBear, Elements(SHA256)),
            "baby-bear-elements-keccak" => (BabyBear, Elements(KECCAK256)),
            "goldilocks-elements" => (Goldilocks, Elements(SHA256)),
            "goldilocks-elements-keccak" => (Goldilocks, Elements(KECCAK256)),
            "baby-bear-poseidon2" => (BabyBear, Permuted),
            "goldilocks-poseidon2" => (Goldilocks, Permuted),
            "baby-bear-in-goldilocks-poseidon2" => (BabyBear, PermutedLarger),
            _ => bail!("suite: unknown suite `{name}`"),
        };
        Ok(SuiteCode { field, challenger })
    }

    /// Whether the challenger's alphabet is of bytes.
    pub fn is_of_bytes(self) -> bool {
        matches!(self.challenger, ChallengerCode::Bytes(_))
    }

    /// The type of the alphabet.
    pub fn alphabet(self) -> &'static str {
        match (self.challenger, self.field) {
            (ChallengerCode::Bytes(_), _) => "u8",
            (_, FieldCode::BabyBear) => "FieldUnit<BabyBear>",
            (_, FieldCode::Goldilocks) => "FieldUnit<Goldilocks>",
        }
    }

    /// The type of the codec.
    pub fn codec(self) -> &'static str {
        match (self.challenger, self.field) {
            (ChallengerCode::Bytes(_), FieldCode::BabyBear) => "BytesToFieldCodec<BabyBear>",
            (ChallengerCode::Bytes(_), FieldCode::Goldilocks) => "BytesToFieldCodec<Goldilocks>",
            (_, FieldCode::BabyBear) => "FieldToFieldCodec<BabyBear>",
            (_, FieldCode::Goldilocks) => "FieldToFieldCodec<Goldilocks>",
        }
    }

    /// The hash function of patterns and identities.
    pub fn digest(self) -> &'static str {
        match self.challenger {
            ChallengerCode::Bytes(hash) | ChallengerCode::Elements(hash) => hash,
            _ => KECCAK256,
        }
    }

    /// The steps that there are beside the plain ones.
    pub fn group(self) -> &'static str {
        match self.challenger {
            ChallengerCode::Bytes(_) => "Plain",
            ChallengerCode::PermutedLarger => "BitsPow",
            _ => "Both",
        }
    }

    /// The type of what the challenger observes in its own way.
    pub fn opaque(self) -> &'static str {
        match (self.challenger, self.field) {
            (ChallengerCode::Bytes(_), _) => "[u8; 32]",
            (ChallengerCode::Elements(_), FieldCode::BabyBear) => "Hash<BabyBear, u8, 32>",
            (ChallengerCode::Elements(_), FieldCode::Goldilocks) => "Hash<Goldilocks, u64, 4>",
            (ChallengerCode::Permuted, FieldCode::BabyBear) => "Hash<BabyBear, BabyBear, 8>",
            (ChallengerCode::Permuted, FieldCode::Goldilocks) => "Hash<Goldilocks, Goldilocks, 4>",
            (ChallengerCode::PermutedLarger, _) => "Hash<BabyBear, Goldilocks, 4>",
        }
    }

    /// What stands around each number of a digest of elements or words.
    pub fn around_numbers(self) -> (&'static str, &'static str) {
        match (self.challenger, self.field) {
            (ChallengerCode::Elements(_), _) => ("", ""),
            (ChallengerCode::Permuted, FieldCode::BabyBear) => ("BabyBear::from_u64(", ")"),
            _ => ("Goldilocks::from_u64(", ")"),
        }
    }

    /// What the suite's ghost members say and need.
    pub fn ghosts(self) -> Ghosts {
        match (self.challenger, self.field) {
            (ChallengerCode::Bytes(_), _) => GHOSTS_OVER_BYTES,
            (ChallengerCode::Elements(_), FieldCode::BabyBear) => GHOSTS_OF_BYTES,
            (ChallengerCode::Elements(_), FieldCode::Goldilocks) => GHOSTS_OF_WORDS,
            _ => GHOSTS_OF_ELEMENTS,
        }
    }

    /// The type of the challenger.
    pub fn challenger_type(self) -> Around {
        let (before, name, after) = match (self.challenger, self.field) {
            (ChallengerCode::Bytes(hash), _) => ("HashChallenger<u8, ", hash, ", 32>"),
            (ChallengerCode::Elements(hash), FieldCode::BabyBear) => (
                "SerializingChallenger32<BabyBear, HashChallenger<u8, ",
                hash,
                ", 32>>",
            ),
            (ChallengerCode::Elements(hash), FieldCode::Goldilocks) => (
                "SerializingChallenger64<Goldilocks, HashChallenger<u8, ",
                hash,
                ", 32>>",
            ),
            (ChallengerCode::Permuted, FieldCode::BabyBear) => (
                "DuplexChallenger<BabyBear, ",
                "Poseidon2BabyBear16",
                ", 16, 8>",
            ),
            (ChallengerCode::Permuted, FieldCode::Goldilocks) => (
                "DuplexChallenger<Goldilocks, ",
                "Poseidon2Goldilocks8",
                ", 8, 4>",
            ),
            (ChallengerCode::PermutedLarger, _) => (
                "MultiField32Challenger<BabyBear, Goldilocks, ",
                "Poseidon2Goldilocks8",
                ", 8, 4>",
            ),
        };
        Around {
            before,
            name,
            after,
        }
    }

    /// The function that makes a challenger that observed nothing.
    pub fn new_challenger(self) -> Around {
        let (before, after) = match self.challenger {
            ChallengerCode::Bytes(_) => NEW_OVER_BYTES,
            ChallengerCode::Elements(_) => NEW_OVER_ELEMENTS,
            ChallengerCode::Permuted => NEW_PERMUTED,
            ChallengerCode::PermutedLarger => NEW_PERMUTED_LARGER,
        };
        let name = match (self.challenger, self.field) {
            (ChallengerCode::Bytes(hash) | ChallengerCode::Elements(hash), _) => hash,
            (ChallengerCode::Permuted, FieldCode::BabyBear) => "default_babybear_poseidon2_16",
            _ => "default_goldilocks_poseidon2_8",
        };
        Around {
            before,
            name,
            after,
        }
    }
}

/// A name, and what stands around it.
#[derive(Clone, Copy)]
pub struct Around {
    before: &'static str,
    name: &'static str,
    after: &'static str,
}

impl fmt::Display for Around {
    fn fmt<W: fmt::Write>(&self, f: &mut fmt::Formatter<W>) -> fmt::Result {
        write!(f, "{}{}{}", self.before, self.name, self.after)
    }
}

// The functions that make a challenger, around the name of its hash function or permutation. Of what is drawn by rejection,
// a challenger tries no more than 1000 candidates in a row.

const NEW_OVER_BYTES: (&str, &str) = (
    "pub fn challenger(alloc: Global) -> Challenger {
    HashChallenger::new(Vec::new(alloc), ",
    ")
}
",
);

const NEW_OVER_ELEMENTS: (&str, &str) = (
    "pub fn challenger(alloc: Global) -> Challenger {
    let inner = HashChallenger::new(Vec::new(alloc), ",
    ");
    Challenger::new(inner, 1000)
}
",
);

const NEW_PERMUTED: (&str, &str) = (
    "pub fn challenger() -> Challenger {
    Challenger::new(",
    "(), 1000)
}
",
);

const NEW_PERMUTED_LARGER: (&str, &str) = (
    "pub fn challenger() -> Result<Challenger, MultiField32ChallengerError> {
    Challenger::new(",
    "())
}
",
);

/// What ghost members of a suite say.
#[derive(Clone, Copy)]
pub struct Ghosts {
    /// The specifications that they import.
    pub uses: &'static str,
    /// Which values of the digest's type there are.
    pub own: &'static str,
    /// The alphabet and the clones.
    pub others: &'static str,
}

const GHOSTS_OVER_BYTES: Ghosts = Ghosts {
    uses: "    ghost use Rattle.std.specs.{Prelude.{◌≡◌, length}, List.each_same};
",
    own: "values. length values ≡ 32",
    others: "    ghost alphabet = { tt };

    ghost clones = { λ values copy told. each_same values copy told.whole };
}
",
};

const GHOSTS_OF_BYTES: Ghosts = Ghosts {
    uses: "    ghost use Rattle.std.{proofs.Common.lit<, specs.List.each_same};
    ghost use Rattle.p3_challenger.specs.{HashValueLaws.values-injective, Digests.values_of, Reading.AreBytes};
",
    own: "digest. AreBytes (values_of digest)",
    others: GHOSTS_OVER_ELEMENTS,
};

const GHOSTS_OF_WORDS: Ghosts = Ghosts {
    uses: "    ghost use Rattle.std.{proofs.Common.lit<, specs.List.each_same};
    ghost use Rattle.p3_challenger.specs.{Bytes.AreWords, HashValueLaws.values-injective, Digests.values_of};
",
    own: "digest. AreWords (values_of digest)",
    others: GHOSTS_OVER_ELEMENTS,
};

const GHOSTS_OF_ELEMENTS: Ghosts = Ghosts {
    uses: "    ghost use Rattle.std.{proofs.Common.lit<, specs.List.each_same};
    ghost use Rattle.p3_challenger.specs.{HashValueLaws.values-injective, Digests.values_of};
",
    own: "_. Unit {0}",
    others: GHOSTS_OVER_ELEMENTS,
};

const GHOSTS_OVER_ELEMENTS: &str = "    ghost alphabet = { lit< tt };

    ghost clones = { λ digest copy told. values-injective copy digest
        (each_same (values_of digest) (values_of copy) told.whole) };
}
";
