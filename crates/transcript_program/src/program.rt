//! What the program answers to its arguments.
ghost use Rattle.std.specs.{Prelude.{◌≡◌, map, IfOk, IfErr, string_bytes}, IoError.error_kind};
ghost use Rattle.p3_field.specs.BabyBearResidues.{BabyBear};
ghost use Rattle.transcript_program.specs.{Demo.demo_text, Program.{status_of, reason_of, unread, IsAnswer}};
ghost use Rattle.transcript_program.specs.{Program.{IsAnswerTo, ReadsInput, Tells, IsFirstText, lines}, Arguments.Asks};

use crate::arguments::{Request, Scalars, parse};
use crate::input::Unread;
use crate::script::Demo;
use crate::{demo, first, input, script};
use p3_challenger::fs::TranscriptError;
use p3_challenger::fs::script::Meaning;
use p3_challenger::{ChallengerError, HashChallenger};
use p3_field::{BabyBear, PrimeField32};
use p3_symmetric::Sha256Hasher;
use std::alloc::{AllocError, Global};
use std::io::{ErrorKind, Read, Write};
use std::{fmt, io};

// The exit statuses.
const DONE: u8 = 0;

const REFUSED: u8 = 1;

const USAGE: u8 = 2;

/// What the program answers.
#[derive(Debug, Drop)]
pub enum Answer {
    /// What was asked for. It is written as it is, and the status is 0.
    Done(String),
    /// The proof that was asked for. Its bytes are written as they are, and the status is 0.
    Proof(Vec<u8>),
    /// What was asked for is refused. A line with [`reason`] is written, and the status is 1.
    Refused(TranscriptError),
    /// Standard input could not be read, or did not end. A line with the reason `input` is written, and the status is
    /// 1.
    NoInput,
    /// The arguments ask for nothing. The usage line is written, and the status is 2.
    Usage,
}

impl Answer {
    /// The exit status.
    pub fn status(&self) -> u8
        ensures { result ≡ status_of self.now }
    {
        match self {
            Answer::Done(_) => DONE,
            Answer::Proof(_) => DONE,
            Answer::Refused(_) => REFUSED,
            Answer::NoInput => REFUSED,
            Answer::Usage => USAGE,
        }
    }
}

/// The text of the answer. A proof is no text: of it, nothing.
impl fmt::Display for Answer {
    ghost use Rattle.std.specs.Prelude.{Some};
    ghost use Rattle.transcript_program.specs.Program.{text_of};

    ghost output = { λ answer. Some (text_of answer) };

    fn fmt<W: fmt::Write>(&self, f: &mut fmt::Formatter<W>) -> fmt::Result {
        match self {
            Answer::Done(text) => write!(f, "{text}"),
            Answer::Proof(_) => Ok(()),
            Answer::Refused(error) => writeln!(f, "refused: {}", reason(error)),
            Answer::NoInput => writeln!(f, "refused: input"),
            Answer::Usage => writeln!(f, "usage: transcript first|pattern|prove|verify"),
        }
    }
}

/// The whole program: writes its answer to the arguments of its command line, without the program's name, and gives
/// the answer's status; but 1 where the write failed.
///
/// Standard input is read where the arguments ask for a proof to be verified, and only there.
pub fn run<R: Read, W: Write>(
    alloc: Global,
    arguments: &[&str],
    reader: &mut R,
    writer: &mut W,
) -> u8
    ensures told { (answer : Answer) × IsAnswer (⟦<Demo as Meaning>⟧.rules 1) (map (λ argument. argument.now) arguments.now)
        (R.remaining reader.old) (R.remaining reader.new) answer
        × Tells answer result (W.contents writer.old) (W.contents writer.new) }
    ensures unread { ((request : Request) → Asks (map (λ argument. argument.now) arguments.now) request →
        ReadsInput request → ⊥) → reader.new ≡ reader.old }
{
    write_answer(&answer_to(alloc, arguments, reader), writer)
}

/// Writes the answer, and gives its status; but 1 where the write failed.
pub fn write_answer<W: Write>(answer: &Answer, writer: &mut W) -> u8
    ensures { Tells answer.now result (W.contents writer.old) (W.contents writer.new) }
{
    let written = match answer {
        Answer::Proof(bytes) => writer.write_all(bytes.as_slice()),
        _ => write!(writer, "{answer}"),
    };
    match written {
        Ok(()) => answer.status(),
        Err(_) => REFUSED,
    }
}

/// The answer where the arguments of the command line could not be read: the usage line where one of them is no text,
/// and else a refusal, since nothing but memory can be wanting.
pub fn answer_unread(error: &io::Error) -> Answer
    ensures { result ≡ unread (error_kind error.now) }
{
    match error.kind() {
        ErrorKind::InvalidData => Answer::Usage,
        _ => Answer::Refused(TranscriptError::OutOfMemory),
    }
}

/// The answer to the arguments of a command line. Standard input is read where they ask for a proof to be verified, and
/// only there.
pub fn answer_to<R: Read>(alloc: Global, arguments: &[&str], reader: &mut R) -> Answer
    ensures answer { IsAnswer (⟦<Demo as Meaning>⟧.rules 1) (map (λ argument. argument.now) arguments.now)
        (R.remaining reader.old) (R.remaining reader.new) result }
    ensures unread { ((request : Request) → Asks (map (λ argument. argument.now) arguments.now) request →
        ReadsInput request → ⊥) → reader.new ≡ reader.old }
{
    match parse(arguments) {
        Some(request) => answer_request(alloc, request, reader),
        None => Answer::Usage,
    }
}

fn answer_request<R: Read>(alloc: Global, request: Request<'_>, reader: &mut R) -> Answer
    ensures answer { IsAnswerTo (⟦<Demo as Meaning>⟧.rules 1) request.entry (R.remaining reader.old)
        (R.remaining reader.new) result }
    ensures unread { (ReadsInput request.entry → ⊥) → reader.new ≡ reader.old }
{
    match request {
        Request::First(value) => match first_text(alloc, value) {
            Ok(text) => Answer::Done(text),
            Err(error) => Answer::Refused(error),
        },
        Request::DemoPattern => match pattern_text(alloc) {
            Ok(text) => Answer::Done(text),
            Err(error) => Answer::Refused(error),
        },
        Request::Prove(ask) => match script::prove(alloc, &ask) {
            Ok(proof) => Answer::Proof(proof),
            Err(error) => Answer::Refused(error),
        },
        Request::Verify(inputs) => verify_input(alloc, &inputs, reader),
    }
}

// Reads a proof, and verifies it.
fn verify_input<R: Read>(alloc: Global, inputs: &Scalars, reader: &mut R) -> Answer
    ensures { IsAnswerTo (⟦<Demo as Meaning>⟧.rules 1) (Request.Verify inputs.now) (R.remaining reader.old)
        (R.remaining reader.new) result }
{
    let proof = match input::read_all(alloc, reader) {
        Ok(proof) => proof,
        Err(Unread::NoEnd) => return Answer::NoInput,
        Err(Unread::OutOfMemory) => return Answer::Refused(TranscriptError::OutOfMemory),
    };
    match script::verify(alloc, inputs.as_slice(), proof.as_slice()) {
        Ok(text) => Answer::Done(text),
        Err(error) => Answer::Refused(error),
    }
}

/// Why an error refused a run, in the program's text.
pub fn reason(error: &TranscriptError) -> &'static str
    ensures { result.now ≡ reason_of error.now }
{
    match error {
        TranscriptError::BadProofShape { reason } => reason,
        TranscriptError::MissingBegin(_)
        | TranscriptError::InvalidKind(_)
        | TranscriptError::MismatchedBeginEnd(_)
        | TranscriptError::MissingEnd(_)
        | TranscriptError::Pattern(_)
        | TranscriptError::LabelTooLong => "pattern",
        TranscriptError::Challenger(ChallengerError::DrawLimit) => "draw limit",
        TranscriptError::Challenger(ChallengerError::NoWitness) => "no witness",
        TranscriptError::Challenger(ChallengerError::TooLong) => "too long",
        TranscriptError::Challenger(ChallengerError::OutOfMemory) | TranscriptError::OutOfMemory =>
            "out of memory",
    }
}

// The text of the demo pattern that is hashed, and its digest.
fn pattern_text(alloc: Global) -> Result<String, TranscriptError>
    ensures ok { IfOk result (λ text. string_bytes text ≡ demo_text) }
    ensures err { IfErr result (λ e. e ≡ TranscriptError.OutOfMemory) }
{
    let pattern = demo::pattern(alloc)?;
    let text = pattern.alternate()?;
    let digest = hex::encode(alloc, pattern.pattern_hash::<Sha256Hasher>()?)?;
    Ok(format!(in alloc; "{text}digest {digest}\n")?)
}

// Sends a scalar, draws one, and verifies the proof.
fn first_text(alloc: Global, value: BabyBear) -> Result<String, TranscriptError>
    ensures ok { IfOk result (λ text. IsFirstText value (string_bytes text)) }
    ensures err { IfErr result (λ e. e ≡ TranscriptError.OutOfMemory) }
{
    let run = first::prove(
        alloc,
        HashChallenger::new(Vec::new(alloc), Sha256Hasher),
        value,
    )?;
    let read = first::verify(
        HashChallenger::new(Vec::new(alloc), Sha256Hasher),
        run.wire.as_slice(),
    )?;
    Ok(first_lines(alloc, run.wire.as_slice(), read.challenge)?)
}

fn first_lines(alloc: Global, wire: &[u8], challenge: BabyBear) -> Result<String, AllocError>
    ensures { IfOk result (λ text. string_bytes text ≡ lines wire.now challenge) }
{
    let wire = hex::encode(alloc, wire)?;
    let challenge = challenge.as_canonical_u32();
    format!(in alloc; "wire {wire}\nchallenge {challenge}\n")
}
