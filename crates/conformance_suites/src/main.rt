//! The program `conformance_suites`: plays the scripts of its files with a prover and a verifier in a world for each
//! challenger that users take, and compares what is answered with the answers that stand there: `suites.txt` over
//! SHA-256 and over two fields, `whole_runs.txt` with Keccak-256, and `poseidon2_runs.txt` over Poseidon2.
//! [`script_comparison`] says at its head what a line is, and which words the program takes.
#![tactic(auto)]

mod keccak_duplex;

use anyhow::{Result, bail};
use keccak_duplex::KeccakDuplexSuite;
use p3_keccak::Keccak256Hasher;
use p3_symmetric::Sha256Hasher;
use script_comparison::{Answered, Changes, Worlds, compare_files, play};
use script_lines::line::Line;
use std::alloc::Global;
use std::process::ExitCode;
use test_suites::{
    BabyBearPoseidon2Suite, GoldilocksPoseidon2Suite, HashSuite, MultiFieldPoseidon2Suite,
    MultiFieldSuite, Serializing32Suite, Serializing64Suite,
};

fn main(rt: HostRuntime) -> Result<ExitCode> {
    compare_files::<Suites>(&rt, &["suites", "whole_runs", "poseidon2_runs"])
}

// A suite over each challenger that users take.
struct Suites;

// Each world is named once, since what its suite owes is proved again wherever it is named.
impl Worlds for Suites {
    fn play(alloc: Global, line: &Line<'_>, changes: &mut Changes) -> Result<Answered> {
        match line.world {
            "hash" => play::<HashSuite<Sha256Hasher>>(alloc, line, changes),
            "ser32" => play::<Serializing32Suite<Sha256Hasher, Sha256Hasher>>(alloc, line, changes),
            "ser64" => play::<Serializing64Suite<Sha256Hasher, Sha256Hasher>>(alloc, line, changes),
            "multi" => play::<MultiFieldSuite>(alloc, line, changes),
            _ => play_with_keccak(alloc, line, changes),
        }
    }
}

// Plays a line whose pattern is hashed by Keccak-256, as in the Rust crate.
fn play_with_keccak(alloc: Global, line: &Line<'_>, changes: &mut Changes) -> Result<Answered> {
    match line.world {
        "keccak_hash" => play::<HashSuite<Keccak256Hasher>>(alloc, line, changes),
        "keccak_ser32" => {
            play::<Serializing32Suite<Keccak256Hasher, Keccak256Hasher>>(alloc, line, changes)
        }
        "keccak_ser64" => {
            play::<Serializing64Suite<Keccak256Hasher, Keccak256Hasher>>(alloc, line, changes)
        }
        "sha256_ser32" => {
            play::<Serializing32Suite<Sha256Hasher, Keccak256Hasher>>(alloc, line, changes)
        }
        "keccak_duplex" => play::<KeccakDuplexSuite>(alloc, line, changes),
        "poseidon2_baby_bear" => play::<BabyBearPoseidon2Suite>(alloc, line, changes),
        "poseidon2_goldilocks" => play::<GoldilocksPoseidon2Suite>(alloc, line, changes),
        "poseidon2_multi" => play::<MultiFieldPoseidon2Suite>(alloc, line, changes),
        _ => bail!("an unknown world"),
    }
}
