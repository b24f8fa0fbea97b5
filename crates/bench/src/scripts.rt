// How long whole scripts take: the messages of [`crate::drivers`], of one scalar each, played by `prove` and `verify`. A
// row is to be held against the driver's own of the same steps, with the seed.
use crate::drivers::{MESSAGES, separator};
use crate::hash::new_chain;
use crate::timing::{Lap, Row, Timed, measure, nanoseconds_since};
use anyhow::{Result, bail};
use p3_challenger::fs::DomainSeparator;
use p3_challenger::fs::script::{Sent, Step, admitted, carried_len, prove, sent_matches, verify};
use p3_field::{BabyBear, PrimeCharacteristicRing};
use p3_symmetric::Sha256Hasher;
use std::alloc::Global;
use std::time::Instant;
use test_suites::HashSuite;

type Separator = DomainSeparator<u8, Sha256Hasher>;

// What is played, and the bytes of its proof.
#[derive(Clone, Copy)]
struct Played<'a> {
    separator: &'a Separator,
    steps: &'a [Step<HashSuite>],
    sent: &'a [Sent<HashSuite>],
    narg: &'a [u8],
}

#[derive(Clone, Copy)]
enum Side {
    Prover,
    Verifier,
}

const SIDES: [Row<Side>; 2] = [
    Row {
        name: "script prover, 10^4 scalar steps with seed",
        timed: Side::Prover,
    },
    Row {
        name: "script verifier, 10^4 scalar steps with seed",
        timed: Side::Verifier,
    },
];

/// Times both sides of a script, and gives a sum of what they leave.
pub fn measure_all(rt: &HostRuntime, runs: u32) -> Result<u64> {
    let alloc = rt.alloc();
    let separator = separator::<u8>(alloc, &MESSAGES)?;
    let mut steps: Vec<Step<HashSuite>> = Vec::new(alloc);
    let mut sent: Vec<Sent<HashSuite>> = Vec::new(alloc);
    for i in 0..MESSAGES.steps {
        steps.push(Step::Scalar { label: "value" })?;
        sent.push(Sent::Scalar(BabyBear::from_u32(i)))?;
    }
    let (steps, sent) = (steps.as_slice(), sent.as_slice());
    let proof = proof_of(alloc, &separator, steps, sent)?;
    let played = Played {
        separator: &separator,
        steps,
        sent,
        narg: proof.as_slice(),
    };
    measure(rt, runs, &played, "", &SIDES)
}

impl Timed<Played<'_>> for Side {
    fn lap(&self, rt: &HostRuntime, played: &Played<'_>) -> Result<Lap> {
        let start = Instant::now(rt)?;
        let left = match *self {
            Side::Prover => proof_of(
                rt.alloc(),
                played.separator,
                played.steps,
                played.sent,
            )?.len(),
            Side::Verifier => {
                number_received(rt.alloc(), played.separator, played.steps, played.narg)?
            }
        };
        let nanoseconds = nanoseconds_since(rt, start)?;
        Ok(Lap {
            nanoseconds,
            operations: MESSAGES.steps,
            left: left as u64,
        })
    }
}

// The bytes of the proof that a script gives.
fn proof_of(
    alloc: Global,
    separator: &Separator,
    steps: &[Step<HashSuite>],
    sent: &[Sent<HashSuite>],
) -> Result<Vec<u8>> {
    if !admitted(steps) || !sent_matches(steps, sent) {
        bail!("steps that are not played here, or not with these values");
    }
    Ok(prove::<HashSuite>(alloc, new_chain(alloc), separator, steps, sent)?.narg)
}

// How many values a verifier receives.
fn number_received(
    alloc: Global,
    separator: &Separator,
    steps: &[Step<HashSuite>],
    narg: &[u8],
) -> Result<usize> {
    if !admitted(steps) || carried_len(steps) != 0 {
        bail!("steps that are not played here, or not without carried witnesses");
    }
    let verified = verify::<HashSuite>(alloc, new_chain(alloc), separator, steps, &[], narg)?;
    Ok(verified.received.len())
}
