//! The program `tealmuze`: plays the transcript of a protocol that stands in a file. `docs/TEALMUZE.md` is its manual, and
//! [`tealmuze_program`] what it answers, to what [`tealmuze_text`] reads.
#![tactic(auto)]

use anyhow::{Context, Result};
use std::fmt::InlineText;
use std::io::Write;
use std::process::ExitCode;
use std::{env, fs, io};
use tealmuze_text::command;
use tealmuze_text::line::OneLine;

// The exit status where the input is bad.
const BAD_INPUT: u8 = 2;

// More bytes than an error says, with its causes.
const ERROR_BYTES: usize = 500;

fn main(rt: HostRuntime) -> Result<ExitCode> {
    match run(&rt) {
        Ok(status) => Ok(ExitCode::from(status)),
        Err(error) => {
            let told = InlineText::<ERROR_BYTES>::of(format_args!("{error:#}"));
            let text = told.as_str();
            eprintln!(rt; "tealmuze: {}", OneLine { text })?;
            Ok(ExitCode::from(BAD_INPUT))
        }
    }
}

// Reads the arguments and the files that they name, and writes the answer.
fn run(rt: &HostRuntime) -> Result<u8> {
    let alloc = rt.alloc();
    let arguments: Vec<String> = env::args(rt)?.collect(alloc)?;
    let words: Vec<&str> = arguments
        .iter()
        .map(|argument| argument.as_str())
        .collect(alloc)?;
    let matches = match command::parse(alloc, words.as_slice()) {
        Ok(matches) => matches,
        Err(error) => {
            error.print(rt)?;
            return Ok(error.exit_code() as u8);
        }
    };
    let request = command::request_of(alloc, &matches)?;
    let file = fs::read_to_string(rt, request.file).context(request.file)?;
    let second = match request.second {
        Some(path) => fs::read(rt, path).context(path)?,
        None => Vec::new(alloc),
    };
    let answer = tealmuze_program::respond(alloc, &request, file.as_str(), second.as_slice())?;
    for warning in &answer.warnings {
        eprintln!(rt; "tealmuze: warning: {warning}")?;
    }
    io::writer(rt).write_all(answer.output.as_slice())?;
    Ok(answer.status)
}
