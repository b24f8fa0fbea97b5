//! The program `conformance`: makes the calls that its files list, and compares what is answered with the
//! answers that stand there.
//!
//! Its files lie in the folder that it runs in, or in the one that its argument names. The first lines of a
//! file, which begin with `#`, say where its answers are from. Each other line is `SPEC | CALLS | ANSWERS`, with
//! ` ; ` between the calls and between the answers. An answer is `-` for a call without one, `()` for no
//! numbers, `\n` for a newline; an error is answered by its text. The calls are made in order, on what the SPEC
//! makes:
//!
//! | SPEC | Calls |
//! |---|---|
//! | `field F` | [`fields::FieldCall`], on `bb` (BabyBear), `kb` (KoalaBear), `gl` (Goldilocks) or `f257` (F257) |
//! | `field32 F` | the same by the functions of 32 bits, on `bb`, `kb` or `f257` |
//! | `algebra A` | [`fields::AlgebraCall`], on a field or on `bb4` or `kb4`, its elements of four coefficients |
//! | `type T` | `name`, and `constant`, its constant; T is `u8`, `usize`, `()`, a field, `bb4`, `kb4` or `f257_3` |
//! | `turn K` | `v..`: what the permutation by K places makes of these cells of F257 |
//! | `duplex F K W R` | the calls of `conformance_calls`, on a new challenger of W cells, R of them the rate |
//! | `hash H [HEX]` | the same, on a new challenger with these bytes pending; H is `len`, `sum` or `sha256` |
//! | `ser32 F H [HEX]`, `ser64 F H [HEX]` | the same, on a new one of elements of F of 4 or 8 bytes, over such a one |
//! | `multi F G K W R` | the same, on a new challenger of scalars of F with W cells of G, R of them the rate |
//! | `by-reference duplex ..` and so on | the same, each made on a reference to the challenger |
//! | `codec`, `codec elements` | [`codecs::CodecCall`], through challengers of bytes, or of elements |
//! | `count` | [`counts::CountCall`] |
//! | `part` | [`steps::PartCall`] |
//! | `pattern` | [`patterns::PatternCall`], on a list of steps that is empty first |
//! | `separator A V NAME` | [`separators::SeparatorCall`], of the version V; A is `u8`, `bb` or `f257` |
//! | `program` | [`program::ProgramCall`] |
#![tactic(auto)]

mod codecs;
mod counts;
mod fields;
mod names;
mod patterns;
mod program;
mod separators;
mod steps;

use anyhow::{Context, Result};
use codecs::Codecs;
use conformance_calls::challengers;
use conformance_calls::replay::first_difference;
use conformance_calls::symmetric::Turning;
use conformance_tokens::line::{Line, Step};
use conformance_tokens::tokens::{look_up, split_name};
use counts::Counts;
use fields::{OfAlgebra, OfField, OfField32, OfType};
use names::{ALGEBRAS, FIELDS};
use patterns::Steps;
use program::Program;
use std::alloc::Global;
use std::process::ExitCode;
use std::{env, fs};
use steps::Parts;

// The files, without their ending.
const FILES: [&str; 11] = [
    "duplex",
    "hash",
    "serializing32",
    "serializing64",
    "multi_field",
    "codecs",
    "patterns",
    "fields",
    "challengers",
    "transcripts",
    "program",
];

fn main(rt: HostRuntime) -> Result<ExitCode> {
    let folder = match env::args(&rt)?.nth(1) {
        Some(folder) => folder,
        None => String::from_str(rt.alloc(), ".")?,
    };
    for name in &FILES {
        if !agrees(&rt, folder.as_str(), name)? {
            return Ok(ExitCode::from(1));
        }
    }
    Ok(ExitCode::from(0))
}

// Replays a file, and prints what came of it.
fn agrees(rt: &HostRuntime, folder: &str, name: &str) -> Result<bool> {
    match replayed(rt, folder, name).context(name)? {
        Outcome::Agree { lines, calls } => {
            println!(rt; "{name}: {lines} lines, {calls} calls, all agree")?;
            Ok(true)
        }
        Outcome::Differs { line, call, answer } => {
            println!(rt; "{name}: line {line}, call {call} answers {answer}")?;
            Ok(false)
        }
    }
}

fn replayed(rt: &HostRuntime, folder: &str, name: &str) -> Result<Outcome> {
    let path = format!(in rt.alloc(); "{folder}/{name}.txt")?;
    let text = fs::read_to_string(rt, path.as_str())?;
    compare(rt.alloc(), text.as_str())
}

// How a file was replayed: whole, or up to the first call with another answer. A line and a call are
// counted from 1.
#[derive(Drop)]
enum Outcome {
    Agree {
        lines: usize,
        calls: usize,
    },
    Differs {
        line: usize,
        call: usize,
        answer: String,
    },
}

// Replays each line of a file, up to the first one that does not agree.
fn compare(alloc: Global, text: &str) -> Result<Outcome> {
    let mut lines = 0usize;
    let mut calls = 0usize;
    let mut number = 0usize;
    for text in text.lines() {
        number = number.saturating_add(1);
        if text.starts_with('#') {
            continue;
        }
        let (steps, found) = replay(alloc, text).context(format_args!("line {number}"))?;
        if let Some((index, answer)) = found {
            return Ok(Outcome::Differs {
                line: number,
                call: index.saturating_add(1),
                answer,
            });
        }
        lines = lines.saturating_add(1);
        calls = calls.saturating_add(steps);
    }
    Ok(Outcome::Agree { lines, calls })
}

// How many calls a line has, and the first one with another answer.
fn replay(alloc: Global, text: &str) -> Result<(usize, Option<(usize, String)>)> {
    let line = Line::parse(alloc, text)?;
    Ok((line.steps.len(), difference(alloc, &line)?))
}

// The first call of a line with another answer, and its answer.
fn difference(alloc: Global, line: &Line<'_>) -> Result<Option<(usize, String)>> {
    let (kind, spec) = split_name(line.spec);
    let steps = line.steps.as_slice();
    match kind {
        "field" => first_difference(alloc, OfField(look_up(&FIELDS, spec)?), steps),
        "field32" => first_difference(alloc, OfField32(look_up(&FIELDS, spec)?), steps),
        "algebra" => first_difference(alloc, OfAlgebra(look_up(&ALGEBRAS, spec)?), steps),
        "type" => first_difference(alloc, OfType(spec), steps),
        "turn" => {
            let places = spec.parse()?;
            first_difference(alloc, Turning { places }, steps)
        }
        "codec" if spec == "elements" => first_difference(alloc, Codecs::OfElements, steps),
        "codec" => first_difference(alloc, Codecs::OfBytes, steps),
        "count" => first_difference(alloc, Counts, steps),
        "part" => first_difference(alloc, Parts, steps),
        "pattern" => first_difference(alloc, Steps::new(alloc), steps),
        "separator" => separators::difference(alloc, spec, steps),
        "program" => first_difference(alloc, Program, steps),
        _ => challengers::difference(alloc, line.spec, steps),
    }
}
