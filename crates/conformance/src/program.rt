// The program `transcript`: what it writes, and its two sides.
use anyhow::{Context, Result, bail};
use conformance_calls::replay::Replayed;
use conformance_tokens::answer;
use conformance_tokens::tokens::split_name;
use p3_challenger::HashChallenger;
use p3_field::{BabyBear, PrimeField64};
use p3_symmetric::Sha256Hasher;
use std::alloc::Global;
use transcript_program::{first, reason, run};

/// A call on the program `transcript`.
#[derive(Drop)]
pub enum ProgramCall<'a> {
    /// `run "WORD" ..`: the status of a run with these words, and what it writes.
    Run(Vec<&'a str>),
    /// `read HEX "WORD" ..`: the same with these bytes on standard input.
    Read(Vec<u8>, Vec<&'a str>),
    /// `bytes "WORD" ..`: the same as `run`, with what it writes in hexadecimal.
    Bytes(Vec<&'a str>),
    /// `prove N`: the proof of a scalar, and the challenge.
    Prove(u64),
    /// `verify HEX`: the scalar of a proof and the challenge, or why it is refused.
    Verify(Vec<u8>),
}

/// The program `transcript`.
#[derive(Clone, Copy)]
pub struct Program;

impl<'a> ProgramCall<'a> {
    fn parse(alloc: Global, text: &'a str) -> Result<ProgramCall<'a>> {
        let (name, words) = split_name(text);
        match name {
            "run" => Ok(ProgramCall::Run(quoted(alloc, words)?)),
            "bytes" => Ok(ProgramCall::Bytes(quoted(alloc, words)?)),
            "read" => {
                let (input, words) = split_name(words);
                Ok(ProgramCall::Read(hex::decode(alloc, input)?, quoted(alloc, words)?))
            }
            "prove" => Ok(ProgramCall::Prove(words.parse()?)),
            "verify" => Ok(ProgramCall::Verify(hex::decode(alloc, words)?)),
            _ => bail!("an unknown call"),
        }
    }
}

// The texts in quotation marks.
fn quoted(alloc: Global, words: &str) -> Result<Vec<&str>> {
    let mut texts = Vec::new(alloc);
    let mut is_quoted = false;
    for part in words.split('"') {
        if is_quoted {
            texts.push(part)?;
        }
        is_quoted = !is_quoted;
    }
    Ok(texts)
}

impl Replayed for Program {
    fn answer(&mut self, alloc: Global, call: &str) -> Result<String> {
        match ProgramCall::parse(alloc, call)? {
            ProgramCall::Run(words) => told(alloc, words.as_slice(), b""),
            ProgramCall::Read(input, words) => told(alloc, words.as_slice(), input.as_slice()),
            ProgramCall::Bytes(words) => {
                let (status, output) = written(alloc, words.as_slice(), b"");
                let output = hex::encode(alloc, output.as_slice())?;
                Ok(format!(in alloc; "{status} {output}")?)
            }
            ProgramCall::Prove(number) => proved(alloc, number),
            ProgramCall::Verify(proof) => verified(alloc, proof.as_slice()),
        }
    }
}

// The status of a run, and the text that it writes.
fn told(alloc: Global, words: &[&str], input: &[u8]) -> Result<String> {
    let (status, output) = written(alloc, words, input);
    let text = answer::one_line(alloc, str::from_utf8(output.as_slice())?)?;
    Ok(format!(in alloc; "{status} {text}")?)
}

// The status of a run, and what it writes.
fn written(alloc: Global, words: &[&str], input: &[u8]) -> (u8, Vec<u8>) {
    let mut input = input;
    let mut output = Vec::new(alloc);
    let status = run(alloc, words, &mut input, &mut output);
    (status, output)
}

fn new_challenger(alloc: Global) -> HashChallenger<u8, Sha256Hasher, 32> {
    HashChallenger::new(Vec::new(alloc), Sha256Hasher)
}

fn proved(alloc: Global, number: u64) -> Result<String> {
    let value = BabyBear::from_canonical_checked(number).context("no canonical number")?;
    let run = first::prove(alloc, new_challenger(alloc), value)?;
    let wire = hex::encode(alloc, run.wire.as_slice())?;
    let challenge = run.challenge.as_canonical_u64();
    Ok(format!(in alloc; "{wire} {challenge}")?)
}

fn verified(alloc: Global, proof: &[u8]) -> Result<String> {
    match first::verify(new_challenger(alloc), proof) {
        Ok(found) => {
            let value = found.value.as_canonical_u64();
            let challenge = found.challenge.as_canonical_u64();
            Ok(format!(in alloc; "{value} {challenge}")?)
        }
        Err(error) => Ok(String::from_str(alloc, reason(&error))?),
    }
}
