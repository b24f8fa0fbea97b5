// How long the calls of a challenger over SHA-256 take, those of one of field elements over it, and SHA-256 itself.
use crate::calls::{Calls, Player};
use crate::timing::{Lap, Row, Timed, measure, nanoseconds_since};
use crate::work::Work;
use anyhow::Result;
use p3_challenger::{CanObserve, HashChallenger, SerializingChallenger32};
use p3_field::{BabyBear, PrimeCharacteristicRing};
use p3_keccak::Keccak256Hasher;
use p3_symmetric::{CryptographicHasher, Sha256Hasher};
use std::alloc::Global;
use std::time::Instant;

/// A challenger over SHA-256.
pub type Chain = HashChallenger<u8, Sha256Hasher, 32>;

type Serializing = SerializingChallenger32<BabyBear, Chain>;

const MEBIBYTE: u32 = 1 << 20;

const BATCH: usize = 8;

// What is hashed of a text: the whole; each window of 96 bytes, which begins where half of the one before does; or all of
// it in batches, each of eight messages of 36 bytes.
#[derive(Clone, Copy)]
enum Hashing {
    Whole,
    Windows,
    Batches,
}

// A text, and what hashes it.
#[derive(Clone, Copy)]
struct Text<'a, H> {
    hasher: H,
    text: &'a [u8],
}

const OBSERVES: [Row<Calls>; 2] = [
    Row {
        name: "hash byte",
        timed: Calls::ObserveMade(1_000_000),
    },
    Row {
        name: "hash slice1000",
        timed: Calls::ObserveSlices {
            len: 1000,
            times: 1000,
        },
    },
];

const BY_SHA256: [Row<Hashing>; 3] = [
    Row {
        name: "raw sha256 1MiB per byte",
        timed: Hashing::Whole,
    },
    Row {
        name: "raw sha256 of 96 bytes",
        timed: Hashing::Windows,
    },
    Row {
        name: "raw sha256 of 36 bytes, eight at once",
        timed: Hashing::Batches,
    },
];

const BY_KECCAK: [Row<Hashing>; 2] = [
    Row {
        name: "raw keccak256 1MiB per byte",
        timed: Hashing::Whole,
    },
    Row {
        name: "raw keccak256 of 96 bytes",
        timed: Hashing::Windows,
    },
];

const DRAWS: [Row<Calls>; 3] = [
    Row {
        name: "hash 64-byte slice + sample",
        timed: Calls::Blocks,
    },
    Row {
        name: "hash sample_vec per byte",
        timed: Calls::DrawList(MEBIBYTE),
    },
    Row {
        name: "hash sample per byte",
        timed: Calls::Draw(100_000),
    },
];

const SERIALIZING: [Row<Calls>; 1] = [Row {
    name: "Serializing32: 10^5 x (observe 4, sample 1)",
    timed: Calls::Turns {
        observes: 4,
        rounds: 100_000,
    },
}];

const SERIALIZING_WORK: [Row<Work>; 2] = [
    Row {
        name: "Serializing32 grind(12), 3371 candidates",
        timed: Work::Search { bits: 12 },
    },
    Row {
        name: "Serializing32 grind(16), 21973 candidates",
        timed: Work::Search { bits: 16 },
    },
];

/// Times each call, and gives a sum of what they draw.
pub fn measure_all(rt: &HostRuntime, runs: u32, text: &[u8]) -> Result<u64> {
    let chain = new_chain(rt.alloc());
    let player = Player {
        challenger: &chain,
        values: text,
    };
    let observes = measure(rt, runs, &player, "", &OBSERVES)?;
    let hashes = measure_hashers(rt, runs, text)?;
    let draws = measure(rt, runs, &player, "", &DRAWS)?;
    let serializing = measure_serializing(rt, runs)?;
    Ok(
        [observes, hashes, draws, serializing]
            .iter()
            .fold(0, |sum: u64, part| sum.wrapping_add(*part)),
    )
}

fn measure_hashers(rt: &HostRuntime, runs: u32, text: &[u8]) -> Result<u64> {
    let by_sha256 = Text {
        hasher: Sha256Hasher,
        text,
    };
    let first = measure(rt, runs, &by_sha256, "", &BY_SHA256)?;
    let by_keccak = Text {
        hasher: Keccak256Hasher,
        text,
    };
    let second = measure(rt, runs, &by_keccak, "", &BY_KECCAK)?;
    Ok(first.wrapping_add(second))
}

fn measure_serializing(rt: &HostRuntime, runs: u32) -> Result<u64> {
    let mut serializing = Serializing::new(new_chain(rt.alloc()), 1 << 20);
    let rounds = measure(rt, runs, &without_values(&serializing), "", &SERIALIZING)?;
    serializing.observe(BabyBear::from_u32(5))?;
    let work = measure(
        rt,
        runs,
        &without_values(&serializing),
        "",
        &SERIALIZING_WORK,
    )?;
    Ok(rounds.wrapping_add(work))
}

fn without_values(challenger: &Serializing) -> Player<'_, BabyBear, Serializing> {
    Player {
        challenger,
        values: &[],
    }
}

/// A challenger over SHA-256 that has observed nothing.
pub fn new_chain(alloc: Global) -> Chain {
    Chain::new(Vec::new(alloc), Sha256Hasher)
}

impl<H: CryptographicHasher<u8, [u8; 32]>> Timed<Text<'_, H>> for Hashing {
    fn lap(&self, rt: &HostRuntime, text: &Text<'_, H>) -> Result<Lap> {
        let start = Instant::now(rt)?;
        let (operations, left) = hashed(*self, &text.hasher, text.text);
        let nanoseconds = nanoseconds_since(rt, start)?;
        Ok(Lap {
            nanoseconds,
            operations,
            left,
        })
    }
}

// How many operations hashing a text is, and a sum of the first bytes of the digests.
#[inline(never)]
fn hashed<H: CryptographicHasher<u8, [u8; 32]>>(
    hashing: Hashing,
    hasher: &H,
    text: &[u8],
) -> (u32, u64) {
    match hashing {
        Hashing::Whole => {
            let digest = hasher.hash_slice(text);
            (MEBIBYTE, u64::from(digest[0]))
        }
        Hashing::Windows => hash_windows(hasher, text),
        Hashing::Batches => hash_batches(hasher, text),
    }
}

fn hash_windows<H: CryptographicHasher<u8, [u8; 32]>>(hasher: &H, text: &[u8]) -> (u32, u64) {
    let mut count = 0u32;
    let mut sum = 0u64;
    for window in text.windows(96).step_by(48) {
        let digest = hasher.hash_slice(window);
        sum = sum.wrapping_add(u64::from(digest[0]));
        count = count.wrapping_add(1);
    }
    (count, sum)
}

fn hash_batches<H: CryptographicHasher<u8, [u8; 32]>>(hasher: &H, text: &[u8]) -> (u32, u64) {
    let mut count = 0u32;
    let mut sum = 0u64;
    let mut digests = [[0u8; 32]; BATCH];
    for messages in text.chunks_exact(BATCH * 36) {
        if messages.len() % BATCH == 0 {
            hasher.hash_many(messages, &mut digests[..]);
        }
        sum = sum.wrapping_add(u64::from(digests[BATCH - 1][0]));
        count = count.wrapping_add(BATCH as u32);
    }
    (count, sum)
}
