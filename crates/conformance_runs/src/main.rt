//! The program `conformance_runs`: plays the scripts of its files `runs.txt`, `scripts.txt` and `steps.txt` in the small
//! worlds of [`script_lines::world`] with a prover and a verifier, and compares what is answered with the answers that
//! stand there. [`script_comparison`] says at its head what a line is, and which words the program takes.
#![tactic(auto)]

use anyhow::{Result, bail};
use p3_challenger::fs::script::{BitsPow, Both, Plain};
use script_comparison::{Answered, Changes, Worlds, compare_files, play};
use script_lines::line::Line;
use script_lines::world::{Notes, Small};
use std::alloc::Global;
use std::process::ExitCode;

fn main(rt: HostRuntime) -> Result<ExitCode> {
    compare_files::<SmallWorlds>(&rt, &["runs", "scripts", "steps"])
}

// The small worlds.
struct SmallWorlds;

// Each world is named once, since what its suite owes is proved again wherever it is named.
impl Worlds for SmallWorlds {
    fn play(alloc: Global, line: &Line<'_>, changes: &mut Changes) -> Result<Answered> {
        match line.world {
            "s" => play::<Small<2, Both>>(alloc, line, changes),
            "s_bits" => play::<Small<2, BitsPow>>(alloc, line, changes),
            "s_plain" => play::<Small<2, Plain>>(alloc, line, changes),
            "s_turn1" => play::<Small<1, Both>>(alloc, line, changes),
            "notes" => play::<Notes>(alloc, line, changes),
            _ => bail!("an unknown world"),
        }
    }
}
