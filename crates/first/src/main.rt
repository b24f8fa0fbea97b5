//! The program `first`: sends a scalar, draws one, and verifies the proof. Its argument is a number below the order of
//! `BabyBear`. It prints the proof in hexadecimal and the scalar that was drawn, or why there is none.
#![tactic(auto)]

use anyhow::{Context, Result};
use first_transcript::{prove, verify};
use p3_field_core::PrimeField32;
use p3_hash_challenger::HashChallenger;
use p3_small_primes::BabyBear;
use p3_symmetric::Sha256Hasher;
use std::alloc::Global;
use std::env;

fn main(rt: HostRuntime) -> Result<()> {
    let word = env::args(&rt)?
        .skip(1)
        .next()
        .context("usage: first NUMBER")?;
    let value = scalar(word.as_str())?;
    let alloc = rt.alloc();
    let run = prove(alloc, fresh(alloc), value)?;
    let read = verify(fresh(alloc), run.wire.as_slice())?;
    let wire = hex::encode(alloc, run.wire.as_slice())?;
    let challenge = read.challenge.as_canonical_u32();
    println!(rt; "wire {wire}\nchallenge {challenge}")?;
    Ok(())
}

// A challenger that observed nothing yet.
fn fresh(alloc: Global) -> HashChallenger<u8, Sha256Hasher, 32> {
    HashChallenger::new(Vec::new(alloc), Sha256Hasher)
}

// The scalar of a decimal number.
fn scalar(word: &str) -> Result<BabyBear> {
    BabyBear::from_canonical_u32_checked(word.parse()?).context(
        "a number at or above the order of the field",
    )
}
