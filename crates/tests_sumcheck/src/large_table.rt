// A large table of another field, against a fold into new tables.
ghost use Rattle.std.specs.Prelude.{◌≡◌, ◌^◌, vec_len, IfOk};

use crate::sides::{prove_table, verify_proof};
use p3_challenger::fs::{BytesToFieldCodec, TranscriptError};
use p3_challenger::{CanObserve, CanSample, HashChallenger};
use p3_field::{BabyBear, PrimeCharacteristicRing};
use p3_sumcheck::sum;
use p3_symmetric::Sha256Hasher;
use std::alloc::{AllocError, Global};
use std::process::Abort;

type Challenger = HashChallenger<u8, Sha256Hasher, 32>;

type Large = BytesToFieldCodec<BabyBear>;

// A table folded at one place after another, each time into a new table.
fn folded_plainly(
    alloc: Global,
    mut table: Vec<BabyBear>,
    point: &[BabyBear],
) -> Result<Vec<BabyBear>, AllocError> {
    for x in point {
        let (low, high) = table.split_at(table.len() / 2);
        table = low
            .iter()
            .zip(high)
            .map(|(a, b)| *a * (BabyBear::ONE - *x) + *b * *x)
            .collect(alloc)?;
    }
    Ok(table)
}

const ROUNDS: usize = 20;

// The squares of the first numbers.
fn squares(alloc: Global) -> Result<Vec<BabyBear>, AllocError>
    ensures { IfOk result (λ table. vec_len table ≡ 2 ^ 20) }
{
    (0..1u64 << ROUNDS)
        .map(|i| BabyBear::from_u64(i) * BabyBear::from_u64(i))
        .collect(alloc)
}

// Whether the verifier of the proof has the prover's point and value, and the value is that of the table folded plainly.
fn agree<C: CanObserve<u8> + CanSample<u8> + Drop>(
    alloc: Global,
    mine: C,
    theirs: C,
) -> Result<bool, TranscriptError> {
    let table = squares(alloc)?;
    let claim = sum(&table);
    let (proof, point, value) = prove_table::<BabyBear, u8, C, Large>(alloc, mine, table, ROUNDS)?;
    let folded = folded_plainly(alloc, squares(alloc)?, &point)?;
    let is_folded = folded.as_slice() == [value].as_slice();
    match verify_proof::<BabyBear, u8, C, Large>(alloc, theirs, claim, ROUNDS, &proof) {
        Ok((read, last)) => Ok(is_folded && read.as_slice() == point.as_slice() && last == value),
        Err(_) => Ok(false),
    }
}

#[test]
fn a_large_table_is_proved_and_verified(rt: HostRuntime) {
    let mine: Challenger = HashChallenger::new(Vec::new(rt.alloc()), Sha256Hasher);
    let theirs: Challenger = HashChallenger::new(Vec::new(rt.alloc()), Sha256Hasher);
    assert!(rt; agree(rt.alloc(), mine, theirs) == Ok(true));
}
