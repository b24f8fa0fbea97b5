//! The program `conformance_keccak`: it compares digests of Keccak-256 with those that another implementation made, and
//! prints a pattern and a step of the Rust crate's own tests as that crate does.
//!
//! The digests stand in `digests.txt`, in the folder that it runs in, or in the one that its argument names. The first
//! lines of the file, which begin with `#`, say where they are from and what a line is.
#![tactic(auto)]

mod digests;
mod rendering;

use anyhow::{Context, Result};
use p3_keccak::Keccak256Hasher;
use std::{env, fs};

fn main(rt: HostRuntime) -> Result<()> {
    let alloc = rt.alloc();
    let argument = env::args(&rt)?.nth(1);
    let folder = match &argument {
        Some(word) => word.as_str(),
        None => ".",
    };
    let path = format!(in alloc; "{folder}/digests.txt")?;
    let text = fs::read_to_string(&rt, path.as_str()).context(path.as_str())?;
    let count = digests::compare::<Keccak256Hasher>(alloc, text.as_str())?;
    println!(rt; "{count} digests, all agree")?;
    let pattern = rendering::pattern(alloc)?;
    let digest = rendering::digest(alloc, &pattern)?;
    println!(rt; "{pattern:#}digest {digest}")?;
    let message = rendering::message();
    println!(rt; "{message:#}")?;
    Ok(())
}
