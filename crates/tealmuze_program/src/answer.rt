// What the program answers to a command.
use crate::beginning::begin;
use crate::explaining::{Explained, explain};
use crate::explanation::{digits, explanation};
use crate::protocol::{Name, Protocol, refusal, step_on_line};
use crate::shown::{all_drawn, all_received, numbers};
use crate::suites::{GoldilocksBytes, Told};
use crate::values::{Values, parse_values};
use crate::warnings::warnings;
use anyhow::{Context, Error, Result, bail};
use conformance_tokens::symbol::element;
use p3_challenger::ChallengerError;
use p3_challenger::fs::TranscriptError;
use p3_challenger::fs::script::{Fault, Proved, Sent, Step, Verified, carried_len};
use p3_keccak::Keccak256Hasher;
use script_lines::playing::{prove_steps, verify_steps};
use std::alloc::Global;
use tealmuze_text::answers::{
    Answer, BegunShown, CodeShown, PatternShown, ProofShown, UnprovedShown, VerdictShown, written,
};
use tealmuze_text::code::code;
use tealmuze_text::command::{Command, Request};
use tealmuze_text::entry::{Entry, parse_table};
use tealmuze_text::proofs::{copied, proof_of};
use tealmuze_text::suite_code::SuiteCode;
use test_suites::{
    BabyBearPoseidon2Suite, GoldilocksPoseidon2Suite, HashSuite, MultiFieldPoseidon2Suite,
    Serializing32Suite, Serializing64Suite,
};

type KeccakBytes = HashSuite<Keccak256Hasher>;

type Keccak32 = Serializing32Suite<Keccak256Hasher, Keccak256Hasher>;

type Keccak64 = Serializing64Suite<Keccak256Hasher, Keccak256Hasher>;

/// Answers a command: `file` is the text of the protocol's file, and `second` what the second file has, the values or the
/// proof.
///
/// The error is bad input, with the place in the file that it was found in, or that memory ran out.
pub fn respond(alloc: Global, request: &Request<'_>, file: &str, second: &[u8]) -> Result<Answer> {
    let table = parse_table(alloc, file).context(request.file)?;
    answer_table(alloc, request, Entry::new(&table), second)
}

fn answer_table(
    alloc: Global,
    request: &Request<'_>,
    file: Entry<'_>,
    second: &[u8],
) -> Result<Answer> {
    match file.text("suite").context(request.file)? {
        "baby-bear-bytes" => answer_in::<HashSuite>(alloc, request, file, second),
        "baby-bear-bytes-keccak" => answer_in::<KeccakBytes>(alloc, request, file, second),
        "baby-bear-elements" => answer_in::<Serializing32Suite>(alloc, request, file, second),
        "baby-bear-elements-keccak" => answer_in::<Keccak32>(alloc, request, file, second),
        "goldilocks-bytes" => answer_in::<GoldilocksBytes>(alloc, request, file, second),
        "goldilocks-elements" => answer_in::<Serializing64Suite>(alloc, request, file, second),
        "goldilocks-elements-keccak" => answer_in::<Keccak64>(alloc, request, file, second),
        suite => answer_permuted(alloc, request, file, second, suite),
    }
}

// In a suite over a permutation.
fn answer_permuted(
    alloc: Global,
    request: &Request<'_>,
    file: Entry<'_>,
    second: &[u8],
    suite: &str,
) -> Result<Answer> {
    match suite {
        "baby-bear-poseidon2" => {
            answer_in::<BabyBearPoseidon2Suite>(alloc, request, file, second)
        }
        "goldilocks-poseidon2" => {
            answer_in::<GoldilocksPoseidon2Suite>(alloc, request, file, second)
        }
        "baby-bear-in-goldilocks-poseidon2" => {
            answer_in::<MultiFieldPoseidon2Suite>(alloc, request, file, second)
        }
        _ => Err(Error::msg(format_args!("suite: unknown suite `{suite}`")).context(request.file)),
    }
}

fn answer_in<S: Told>(
    alloc: Global,
    request: &Request<'_>,
    file: Entry<'_>,
    second: &[u8],
) -> Result<Answer> {
    let protocol = Protocol::<S>::parse(alloc, file).context(request.file)?;
    let mut answer = answer_command(alloc, request, file, &protocol, second)?;
    answer.warnings = warnings(alloc, protocol.steps.as_slice(), protocol.names.as_slice())?;
    Ok(answer)
}

fn answer_command<S: Told>(
    alloc: Global,
    request: &Request<'_>,
    file: Entry<'_>,
    protocol: &Protocol<'_, S>,
    second: &[u8],
) -> Result<Answer> {
    match request.command {
        Command::Pattern => answer_pattern(alloc, request, protocol),
        Command::Prove => answer_prove(alloc, request, protocol, second),
        Command::Verify => answer_verify(alloc, request, protocol, second),
        Command::Explain => answer_explain(alloc, request, protocol, second),
        Command::Rust => answer_rust(alloc, request, file),
    }
}

fn answer_pattern<S: Told>(
    alloc: Global,
    request: &Request<'_>,
    protocol: &Protocol<'_, S>,
) -> Result<Answer> {
    let shown = PatternShown {
        pattern: protocol.separator.pattern().alternate()?,
        digest: digest_of(alloc, protocol)?,
        seed: seed_of(alloc, protocol)?,
    };
    written(alloc, request, &shown, shown.text(alloc)?, 0)
}

// The digest of the pattern, by the suite's own hash function.
fn digest_of<S: Told>(alloc: Global, protocol: &Protocol<'_, S>) -> Result<String> {
    let digest = protocol.separator.pattern().pattern_hash::<S::Digest>()?;
    Ok(hex::encode(alloc, digest)?)
}

// What the separator feeds, where the challenger keeps it.
fn seed_of<S: Told>(alloc: Global, protocol: &Protocol<'_, S>) -> Result<Option<String>> {
    let mut challenger = S::fresh(alloc)?;
    protocol.separator.seed(&mut challenger)?;
    digits(alloc, S::pending(&challenger))
}

// The code of the protocol, which was read before: it is one that its suite plays.
fn answer_rust(alloc: Global, request: &Request<'_>, file: Entry<'_>) -> Result<Answer> {
    let suite = SuiteCode::named(file.text("suite")?)?;
    let shown = CodeShown {
        code: code(alloc, suite, file)?,
    };
    let text = String::from_str(alloc, &shown.code)?;
    written(alloc, request, &shown, text, 0)
}

fn answer_prove<S: Told>(
    alloc: Global,
    request: &Request<'_>,
    protocol: &Protocol<'_, S>,
    second: &[u8],
) -> Result<Answer> {
    let steps = protocol.steps.as_slice();
    let values = values_of(alloc, steps, second).context(request.second.unwrap_or("values"))?;
    let sent = values.sent.as_slice();
    if let Some(step) = values.missing {
        return answer_begun(alloc, request, protocol, step, sent);
    }
    let challenger = S::fresh(alloc)?;
    match prove_steps::<S>(alloc, challenger, &protocol.separator, steps, sent)? {
        Ok(proved) => answer_proved(alloc, request, &proved),
        Err(fault) => answer_unproved(alloc, request, protocol.names.as_slice(), &fault),
    }
}

// Of values for the steps before this one alone.
fn answer_begun<S: Told>(
    alloc: Global,
    request: &Request<'_>,
    protocol: &Protocol<'_, S>,
    step: usize,
    sent: &[Sent<S>],
) -> Result<Answer> {
    let steps = protocol.steps.as_slice().get(..step).unwrap_or(&[]);
    let begun = begin::<S>(alloc, &protocol.separator, steps, sent)?;
    if let Some(fault) = &begun.refused {
        return answer_unproved(alloc, request, protocol.names.as_slice(), fault);
    }
    let shown = BegunShown {
        missing: step_on_line(protocol.names.as_slice(), step)?,
        bytes: hex::encode(alloc, begun.narg.as_slice())?,
        witnesses: numbers::<S>(alloc, begun.witnesses.as_slice())?,
        challenges: all_drawn::<S>(alloc, begun.challenges.as_slice())?,
    };
    written(alloc, request, &shown, shown.text(alloc)?, 1)
}

// The values of a file.
fn values_of<S: Told>(alloc: Global, steps: &[Step<S>], second: &[u8]) -> Result<Values<S>> {
    let text = std::str::from_utf8(second).context("expected a text")?;
    let table = parse_table(alloc, text)?;
    let file = Entry::new(&table);
    file.only(&["values"])?;
    parse_values(alloc, steps, file.list("values")?)
}

fn answer_unproved(
    alloc: Global,
    request: &Request<'_>,
    names: &[Name<'_>],
    fault: &Fault,
) -> Result<Answer> {
    let refused = refusal(alloc, names, fault, None)?;
    let text = refused.line(alloc)?;
    written(alloc, request, &UnprovedShown { refused }, text, 1)
}

fn answer_proved<S: Told>(
    alloc: Global,
    request: &Request<'_>,
    proved: &Proved<S>,
) -> Result<Answer> {
    let proof = proved.narg.as_slice();
    if !request.json && !request.hex {
        return Ok(Answer {
            output: copied(alloc, proof)?,
            status: 0,
            warnings: Vec::new(alloc),
        });
    }
    let shown = ProofShown {
        proof: hex::encode(alloc, proof)?,
        witnesses: numbers::<S>(alloc, proved.witnesses.as_slice())?,
        carried: numbers::<S>(alloc, proved.carried.as_slice())?,
        challenges: all_drawn::<S>(alloc, proved.challenges.as_slice())?,
    };
    written(alloc, request, &shown, shown.text(alloc)?, 0)
}

fn answer_verify<S: Told>(
    alloc: Global,
    request: &Request<'_>,
    protocol: &Protocol<'_, S>,
    second: &[u8],
) -> Result<Answer> {
    let proof = proof_of(alloc, request, second)?;
    let shown = match verdict(alloc, request, protocol, proof.as_slice())? {
        Ok(verified) => accepted(alloc, &verified)?,
        Err(fault) => refused(alloc, protocol.names.as_slice(), &fault)?,
    };
    let status = u8::from(!shown.accepted);
    written(alloc, request, &shown, shown.text(alloc)?, status)
}

fn accepted<'a, S: Told>(alloc: Global, verified: &Verified<'_, S>) -> Result<VerdictShown<'a>> {
    Ok(VerdictShown {
        accepted: true,
        received: all_received::<S>(alloc, verified.received.as_slice())?,
        challenges: all_drawn::<S>(alloc, verified.challenges.as_slice())?,
        refused: None,
    })
}

fn refused<'a>(alloc: Global, names: &[Name<'a>], fault: &Fault) -> Result<VerdictShown<'a>> {
    Ok(VerdictShown {
        accepted: false,
        received: Vec::new(alloc),
        challenges: Vec::new(alloc),
        refused: Some(refusal(alloc, names, fault, None)?),
    })
}

fn verdict<'n, S: Told>(
    alloc: Global,
    request: &Request<'_>,
    protocol: &Protocol<'_, S>,
    proof: &'n [u8],
) -> Result<Result<Verified<'n, S>, Fault>> {
    let steps = protocol.steps.as_slice();
    let carried = witnesses::<S>(alloc, request, steps)?;
    let challenger = S::fresh(alloc)?;
    let separator = &protocol.separator;
    verify_steps::<S>(
        alloc,
        challenger,
        separator,
        steps,
        carried.as_slice(),
        proof,
    )
}

// The witnesses that are carried beside the proof: as many as the steps have.
fn witnesses<S: Told>(
    alloc: Global,
    request: &Request<'_>,
    steps: &[Step<S>],
) -> Result<Vec<S::Field>> {
    let (expected, found) = (carried_len(steps), request.carried.len());
    if expected != found {
        bail!("--carried: expected {expected} witnesses, found {found}");
    }
    let mut carried = Vec::new(alloc);
    for number in &request.carried {
        carried.push(element(*number).context("--carried")?)?;
    }
    Ok(carried)
}

fn answer_explain<S: Told>(
    alloc: Global,
    request: &Request<'_>,
    protocol: &Protocol<'_, S>,
    second: &[u8],
) -> Result<Answer> {
    let proof = proof_of(alloc, request, second)?;
    let explained = explained(alloc, request, protocol, proof.as_slice())?;
    let shown = explanation(alloc, protocol.names.as_slice(), explained)?;
    let text = shown.text(alloc, proof.len(), request.whole)?;
    let status = u8::from(!shown.accepted);
    written(alloc, request, &shown, text, status)
}

// What became of a proof by its steps, of which the verifier of the whole proof says the same.
fn explained<'n, S: Told>(
    alloc: Global,
    request: &Request<'_>,
    protocol: &Protocol<'_, S>,
    proof: &'n [u8],
) -> Result<Explained<'n>> {
    let steps = protocol.steps.as_slice();
    let carried = witnesses::<S>(alloc, request, steps)?;
    let carried = carried.as_slice();
    let explained = explain::<S>(alloc, &protocol.separator, steps, carried, proof)?;
    let verdict = verdict(alloc, request, protocol, proof)?;
    check_told(&explained, verdict.err())?;
    Ok(explained)
}

// Refuses to tell of the steps what the verifier of the whole proof does not.
fn check_told(explained: &Explained<'_>, fault: Option<Fault>) -> Result<()> {
    match (&explained.refused, &fault) {
        (None, None) => Ok(()),
        (Some((told, _)), Some(fault)) if *told == *fault => Ok(()),
        (Some((told, _)), _) if is_memory(told) => bail!("out of memory"),
        (_, Some(fault)) if is_memory(fault) => bail!("out of memory"),
        _ => bail!("the verifier of the whole proof answers otherwise than its steps"),
    }
}

// Whether the reason is a refused allocation, which can end one verifier and not another.
fn is_memory(fault: &Fault) -> bool {
    match &fault.error {
        TranscriptError::OutOfMemory | TranscriptError::Challenger(ChallengerError::OutOfMemory) =>
            true,
        _ => false,
    }
}
