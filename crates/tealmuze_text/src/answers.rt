// What the program answers.
use crate::command::Request;
use crate::json::{Object, ToJson, list, optional};
use crate::line::StepOnLine;
use crate::refusal::RefusalShown;
use crate::shown::{Lines, SeedLine, Shown};
use anyhow::Result;
use std::alloc::Global;

/// What is written, and the exit status.
#[derive(Drop)]
pub struct Answer {
    /// The bytes for standard output.
    pub output: Vec<u8>,
    /// 0, or 1 where values or a proof are refused.
    pub status: u8,
    /// The lines of what looks weak in the protocol.
    pub warnings: Vec<String>,
}

/// What is written: JSON if it is asked for, otherwise this text.
pub fn written<T: ToJson>(
    alloc: Global,
    request: &Request<'_>,
    shown: &T,
    text: String,
    status: u8,
) -> Result<Answer> {
    let mut output = text;
    if request.json {
        output = shown.json(alloc)?;
        output.push('\n')?;
    }
    Ok(Answer {
        output: output.into_bytes(),
        status,
        warnings: Vec::new(alloc),
    })
}

/// A pattern, its digest, and what the separator feeds.
#[derive(Drop)]
pub struct PatternShown {
    /// The pattern as it is hashed.
    pub pattern: String,
    /// Its digest, in hexadecimal.
    pub digest: String,
    /// The bytes of the seed, in hexadecimal, where the challenger keeps them.
    pub seed: Option<String>,
}

impl PatternShown {
    /// The pattern, its digest and the seed as text.
    pub fn text(&self, alloc: Global) -> Result<String> {
        let (pattern, digest) = (&self.pattern, &self.digest);
        let seed = SeedLine { seed: &self.seed };
        Ok(format!(in alloc; "{pattern}digest {digest}\n{seed}")?)
    }
}

impl ToJson for PatternShown {
    fn json(&self, alloc: Global) -> Result<String> {
        Object::new(alloc)
            .member("pattern", &self.pattern)
            .member("digest", &self.digest)
            .member("seed", &self.seed)
            .close()
    }
}

/// A protocol as code.
#[derive(Drop)]
pub struct CodeShown {
    /// The text of a file.
    pub code: String,
}

impl ToJson for CodeShown {
    fn json(&self, alloc: Global) -> Result<String> {
        Object::new(alloc).member("code", &self.code).close()
    }
}

/// A proof, and what its prover found and drew.
#[derive(Drop)]
pub struct ProofShown {
    /// The proof, in hexadecimal.
    pub proof: String,
    /// All witnesses that were found.
    pub witnesses: Vec<u64>,
    /// Those of them that the proof does not carry.
    pub carried: Vec<u64>,
    /// What was drawn, for each step that draws.
    pub challenges: Vec<Shown>,
}

impl ProofShown {
    /// The proof as text.
    pub fn text(&self, alloc: Global) -> Result<String> {
        let proof = &self.proof;
        Ok(format!(in alloc; "{proof}\n")?)
    }
}

impl ToJson for ProofShown {
    fn json(&self, alloc: Global) -> Result<String> {
        Object::new(alloc)
            .member("proof", &self.proof)
            .member("witnesses", &self.witnesses)
            .member("carried", &self.carried)
            .shown("challenges", list(alloc, self.challenges.as_slice()))
            .close()
    }
}

/// The beginning of a proof, of values for the first steps alone.
#[derive(Drop)]
pub struct BegunShown<'a> {
    /// The first step that has no value.
    pub missing: StepOnLine<'a>,
    /// The bytes that the steps before it wrote, in hexadecimal.
    pub bytes: String,
    /// The witnesses that they found.
    pub witnesses: Vec<u64>,
    /// What they drew, for each step that draws.
    pub challenges: Vec<Shown>,
}

impl BegunShown<'_> {
    /// The beginning as text.
    pub fn text(&self, alloc: Global) -> Result<String> {
        let (missing, bytes) = (self.missing, &self.bytes);
        let challenges = Lines {
            word: "challenge",
            values: self.challenges.as_slice(),
        };
        Ok(format!(in alloc;
            "bytes {bytes}\n{challenges}a part of a proof: no value for {missing}\n"
        )?)
    }
}

impl ToJson for BegunShown<'_> {
    fn json(&self, alloc: Global) -> Result<String> {
        let missing = Object::new(alloc)
            .member("step", &self.missing.step)
            .member("type", &self.missing.kind)
            .member("label", &self.missing.label)
            .close();
        Object::new(alloc)
            .shown("missing", missing)
            .member("bytes", &self.bytes)
            .member("witnesses", &self.witnesses)
            .shown("challenges", list(alloc, self.challenges.as_slice()))
            .close()
    }
}

/// Values of which there is no proof.
#[derive(Drop)]
pub struct UnprovedShown<'a> {
    /// Where they are refused.
    pub refused: RefusalShown<'a>,
}

impl ToJson for UnprovedShown<'_> {
    fn json(&self, alloc: Global) -> Result<String> {
        Object::new(alloc)
            .shown("refused", self.refused.json(alloc))
            .close()
    }
}

/// What a verifier answers.
#[derive(Drop)]
pub struct VerdictShown<'a> {
    /// Whether the proof is accepted.
    pub accepted: bool,
    /// What was received, for each step that reads.
    pub received: Vec<Shown>,
    /// What was drawn, for each step that draws.
    pub challenges: Vec<Shown>,
    /// Where the proof is refused.
    pub refused: Option<RefusalShown<'a>>,
}

impl VerdictShown<'_> {
    /// The verdict as text: what was received and drawn, or where the proof is refused.
    pub fn text(&self, alloc: Global) -> Result<String> {
        if let Some(refused) = &self.refused {
            return refused.line(alloc);
        }
        let received = Lines {
            word: "received",
            values: self.received.as_slice(),
        };
        let challenges = Lines {
            word: "challenge",
            values: self.challenges.as_slice(),
        };
        Ok(format!(in alloc; "accepted\n{received}{challenges}")?)
    }
}

impl ToJson for VerdictShown<'_> {
    fn json(&self, alloc: Global) -> Result<String> {
        Object::new(alloc)
            .member("accepted", &self.accepted)
            .shown("received", list(alloc, self.received.as_slice()))
            .shown("challenges", list(alloc, self.challenges.as_slice()))
            .shown("refused", optional(alloc, &self.refused))
            .close()
    }
}
