// The imports of a printed file.
use std::fmt;

// A name that code may import, and what stands in code that uses it.
type Import = (&'static str, &'static str);

// A module, and its names. They are imported where the code uses at least and at most so many of them.
type Group = (&'static str, (usize, usize), &'static [Import]);

const SOME: (usize, usize) = (1, usize::MAX);

const ONE: (usize, usize) = (1, 1);

const SEVERAL: (usize, usize) = (2, usize::MAX);

// In the order that the formatter keeps: a name before a module, and a list after it.
const GROUPS: [Group; 9] = [
    ("p3_challenger", ONE, &OF_CHALLENGERS),
    ("p3_challenger::fs::script", SOME, &OF_SCRIPTS),
    ("p3_challenger::fs", SOME, &OF_TRANSCRIPTS),
    ("p3_challenger", SEVERAL, &OF_CHALLENGERS),
    ("p3_field", SOME, &OF_FIELDS),
    ("p3_keccak", SOME, &OF_KECCAK),
    ("p3_poseidon2", SOME, &OF_POSEIDON2),
    ("p3_symmetric", SOME, &OF_HASHES),
    ("std::alloc", SOME, &OF_MEMORY),
];

const OF_SCRIPTS: [Import; 6] = [
    ("AcceptAll", "= AcceptAll;"),
    ("BitsPow", "= BitsPow;"),
    ("Both", "= Both;"),
    ("Plain", "= Plain;"),
    ("Step", "Step<"),
    ("Suite", "impl Suite"),
];

const OF_TRANSCRIPTS: [Import; 7] = [
    ("BytesToFieldCodec", "BytesToFieldCodec<"),
    ("DomainSeparator", "DomainSeparator<"),
    ("FieldToFieldCodec", "FieldToFieldCodec<"),
    ("FieldUnit", "FieldUnit<"),
    ("Kind", "Kind::"),
    ("TranscriptError", "TranscriptError>"),
    ("script", "script::"),
];

const OF_CHALLENGERS: [Import; 6] = [
    ("DuplexChallenger", "DuplexChallenger<"),
    ("HashChallenger", "HashChallenger<"),
    ("MultiField32Challenger", "MultiField32Challenger<"),
    (
        "MultiField32ChallengerError",
        "MultiField32ChallengerError>",
    ),
    ("SerializingChallenger32", "SerializingChallenger32<"),
    ("SerializingChallenger64", "SerializingChallenger64<"),
];

const OF_FIELDS: [Import; 4] = [
    ("BabyBear", " BabyBear;"),
    ("Coeffs", "Coeffs<"),
    ("Goldilocks", " Goldilocks"),
    ("PrimeCharacteristicRing", "::from_u64("),
];

const OF_KECCAK: [Import; 1] = [("Keccak256Hasher", "Keccak256Hasher")];

const OF_POSEIDON2: [Import; 4] = [
    ("Poseidon2BabyBear16", "Poseidon2BabyBear16,"),
    ("Poseidon2Goldilocks8", "Poseidon2Goldilocks8,"),
    (
        "default_babybear_poseidon2_16",
        "default_babybear_poseidon2_16(",
    ),
    (
        "default_goldilocks_poseidon2_8",
        "default_goldilocks_poseidon2_8(",
    ),
];

const OF_HASHES: [Import; 2] = [("Hash", " Hash<"), ("Sha256Hasher", "Sha256Hasher")];

const OF_MEMORY: [Import; 2] = [("AllocError", "AllocError>"), ("Global", "Global")];

/// The imports of this code.
#[derive(Clone, Copy)]
pub struct Imports<'a> {
    /// The code.
    pub code: &'a str,
}

impl fmt::Display for Imports<'_> {
    fn fmt<W: fmt::Write>(&self, f: &mut fmt::Formatter<W>) -> fmt::Result {
        for group in &GROUPS {
            write_group(f, self.code, group)?;
        }
        Ok(())
    }
}

fn write_group<W: fmt::Write>(f: &mut fmt::Formatter<W>, code: &str, group: &Group) -> fmt::Result {
    let (path, (least, most), names) = group;
    let count = count(code, *names);
    if count < *least || count > *most {
        return Ok(());
    }
    let used = Used {
        code,
        names: *names,
    };
    match count {
        1 => writeln!(f, "use {path}::{used};"),
        _ => writeln!(f, "use {path}::{{{used}}};"),
    }
}

// Which of these names the code uses, with commas between.
#[derive(Clone, Copy)]
struct Used<'a> {
    code: &'a str,
    names: &'static [Import],
}

impl fmt::Display for Used<'_> {
    fn fmt<W: fmt::Write>(&self, f: &mut fmt::Formatter<W>) -> fmt::Result {
        let mut has_begun = false;
        for (name, mark) in self.names {
            if self.code.contains(*mark) {
                let before = if has_begun { ", " } else { "" };
                write!(f, "{before}{name}")?;
                has_begun = true;
            }
        }
        Ok(())
    }
}

// How many of these names the code uses.
fn count(code: &str, names: &[Import]) -> usize {
    names
        .iter()
        .filter(|(_, mark)| code.contains(*mark))
        .count()
}
