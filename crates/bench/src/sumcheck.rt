// How long a sumcheck takes: the rounds of a table of 2^20 values, which is folded where it lies.
ghost use Rattle.std.specs.Prelude.{◌≡◌, ◌^◌, length};

use crate::hash::{Chain, new_chain};
use crate::timing::{Lap, Row, Timed, measure, nanoseconds_since};
use anyhow::{Result, bail};
use p3_challenger::fs::{BytesToFieldCodec, DomainSeparator, PatternState, ProverState};
use p3_field::{BabyBear, PrimeCharacteristicRing};
use p3_sumcheck::{declare, prove};
use p3_symmetric::Sha256Hasher;
use std::alloc::Global;
use std::time::Instant;

type Separator = DomainSeparator<u8, Sha256Hasher>;

const ROUNDS: usize = 20;

const VALUES: u32 = 1 << 20;

// The prover of the sum of the squares.
#[derive(Clone, Copy)]
struct OfSquares;

const ROWS: [Row<OfSquares>; 1] = [Row {
    name: "sumcheck prover, 2^20 values",
    timed: OfSquares,
}];

/// Times the prover, and gives a sum of what it leaves.
pub fn measure_all(rt: &HostRuntime, runs: u32) -> Result<u64> {
    let separator = separator(rt.alloc())?;
    measure(rt, runs, &separator, "", &ROWS)
}

impl Timed<Separator> for OfSquares {
    fn lap(&self, rt: &HostRuntime, separator: &Separator) -> Result<Lap> {
        let table = squares(rt.alloc())?;
        let start = Instant::now(rt)?;
        let left = proof_of_squares(rt.alloc(), separator, table)?.len() as u64;
        let nanoseconds = nanoseconds_since(rt, start)?;
        Ok(Lap {
            nanoseconds,
            operations: VALUES,
            left,
        })
    }
}

// The separator of the rounds alone.
fn separator(alloc: Global) -> Result<Separator> {
    let mut recorder = PatternState::<u8>::new(alloc);
    let declared = declare::<BabyBear, u8, Sha256Hasher>(&mut recorder, ROUNDS);
    let pattern = declared.and(recorder.finalize())?;
    Ok(Separator::new(alloc, 1, b"bench", pattern)?)
}

// The squares of the first numbers.
fn squares(alloc: Global) -> Result<Vec<BabyBear>> {
    let squares = (0..VALUES)
        .map(|i| BabyBear::from_u32(i) * BabyBear::from_u32(i))
        .collect(alloc)?;
    Ok(squares)
}

// The bytes of the proof of the squares.
fn proof_of_squares(
    alloc: Global,
    separator: &Separator,
    squares: Vec<BabyBear>,
) -> Result<Vec<u8>> {
    if squares.len() != 1 << ROUNDS {
        bail!("a table of another size");
    }
    proof_of(alloc, separator, squares, ROUNDS)
}

// The bytes of the proof of a table for so many rounds.
fn proof_of(
    alloc: Global,
    separator: &Separator,
    table: Vec<BabyBear>,
    rounds: usize,
) -> Result<Vec<u8>>
    requires { length table.items ≡ 2 ^ rounds }
{
    let mut prover = ProverState::new(alloc, new_chain(alloc), separator)?;
    let sent = prove::<BabyBear, u8, Chain, Sha256Hasher, BytesToFieldCodec<BabyBear>>(
        alloc,
        table,
        &mut prover,
    );
    // A prover has to be spent, also where a step was refused.
    let proof = prover.finalize();
    sent?;
    Ok(proof?)
}
