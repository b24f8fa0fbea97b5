//! The program `poseidon2_answers`: permutes the states that its file lists by Poseidon2, alone and in lanes, and compares
//! them with the answers that stand there.
//!
//! The file `states.txt` lies in the folder that it runs in, or in the one that its argument names. The first lines, which
//! begin with `#`, say where its answers are from. Each other line is `SET | CELLS | ANSWER`: a set by its module in `p3_poseidon2`, the cells of a state, and what they
//! become. In lanes the cells stand turned round, by another number of places in each, and become there what they become
//! alone.
#![tactic(auto)]

mod states;

use anyhow::{Context, Result, bail};
use p3_poseidon2::{
    default_babybear_poseidon2_16, default_babybear_poseidon2_24, default_goldilocks_poseidon2_8,
    default_goldilocks_poseidon2_12, default_koalabear_poseidon2_16,
    default_koalabear_poseidon2_24,
};
use states::disagreement;
use std::process::ExitCode;
use std::{env, fs};

fn main(rt: HostRuntime) -> Result<ExitCode> {
    let argument = env::args(&rt)?.nth(1);
    let folder = match &argument {
        Some(word) => word.as_str(),
        None => ".",
    };
    let path = format!(in rt.alloc(); "{folder}/states.txt")?;
    let text = fs::read_to_string(&rt, path.as_str()).context(path.as_str())?;
    let mut number = 0usize;
    let mut states = 0usize;
    for line in text.lines() {
        number = number.saturating_add(1);
        if line.starts_with('#') {
            continue;
        }
        if let Some(told) = fault_of(line).context(format_args!("line {number}"))? {
            println!(rt; "line {number}: {told}")?;
            return Ok(ExitCode::from(1));
        }
        states = states.saturating_add(1);
    }
    println!(rt; "{states} states, alone and in lanes: all agree")?;
    Ok(ExitCode::from(0))
}

// What is otherwise than a line says, if anything is.
fn fault_of(line: &str) -> Result<Option<&'static str>> {
    let (set, rest) = line.split_once(" | ").context("no cells")?;
    let (cells, answer) = rest.split_once(" | ").context("no answer")?;
    match set {
        "baby_bear_16" => disagreement(default_babybear_poseidon2_16(), cells, answer),
        "baby_bear_24" => disagreement(default_babybear_poseidon2_24(), cells, answer),
        "koala_bear_16" => disagreement(default_koalabear_poseidon2_16(), cells, answer),
        "koala_bear_24" => disagreement(default_koalabear_poseidon2_24(), cells, answer),
        "goldilocks_8" => disagreement(default_goldilocks_poseidon2_8(), cells, answer),
        "goldilocks_12" => disagreement(default_goldilocks_poseidon2_12(), cells, answer),
        _ => bail!("no such set"),
    }
}
