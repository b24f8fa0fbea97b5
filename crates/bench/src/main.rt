//! The program `bench`: how long single operations take. With the word `run` it prints nanoseconds for each, the
//! least of several runs, and otherwise nothing. A second word, a number, says how many runs.
#![tactic(auto)]

mod by_call;
mod calls;
mod challengers;
mod drivers;
mod hash;
mod patterns;
mod permutations;
mod scripts;
mod seeds;
mod sumcheck;
mod timing;
mod work;

use anyhow::Result;
use std::env;

const RUNS: u32 = 9;

const MEBIBYTE: u32 = 1 << 20;

fn main(rt: HostRuntime) -> Result<()> {
    let mut words = env::args(&rt)?.skip(1);
    let Some(word) = words.next() else {
        return Ok(());
    };
    if word.as_str() != "run" {
        return Ok(());
    }
    let runs = words
        .next()
        .and_then(|word| word.as_str().parse::<u32>().ok())
        .unwrap_or(RUNS);
    measure_all(&rt, runs)
}

// Times everything, and prints the sum of what the runs left: so nothing of what makes it can be left out.
fn measure_all(rt: &HostRuntime, runs: u32) -> Result<()> {
    let text: Vec<u8> = (0..MEBIBYTE).map(|i| (i % 251) as u8).collect(rt.alloc())?;
    let challengers = challengers::measure_all(rt, runs)?;
    let hash = hash::measure_all(rt, runs, text.as_slice())?;
    let permutations = permutations::measure_all(rt, runs)?;
    let seeds = seeds::measure_all(rt, runs, text.as_slice())?;
    let patterns = patterns::measure_all(rt, runs)?;
    let drivers = drivers::measure_all(rt, runs)?;
    let scripts = scripts::measure_all(rt, runs)?;
    let sumcheck = sumcheck::measure_all(rt, runs)?;
    println!(rt;
        "sums: {challengers} {hash} {permutations} {seeds} {patterns} {drivers} {scripts} {sumcheck}"
    )?;
    Ok(())
}
