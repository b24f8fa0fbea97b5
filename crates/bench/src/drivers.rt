// How long the steps of both drivers take: messages of one scalar each, or messages and challenges in turn. A row that
// counts the seed also makes the driver, which observes the seed.
ghost use Rattle.std.specs.Prelude.{◌≤◌};

use crate::hash::{Chain, new_chain};
use crate::timing::{Lap, Shortest, nanoseconds_since};
use anyhow::Result;
use p3_challenger::fs::{
    BytesToFieldCodec, Codec, DomainSeparator, FieldToFieldCodec, FieldUnit, Hierarchy,
    Interaction, InteractionPattern, Kind, Length, ProverState, TranscriptError, Unit,
    VerifierState,
};
use p3_challenger::{CanCopy, CanObserve, DuplexChallenger, Sponge};
use p3_field::{BabyBear, PrimeCharacteristicRing, PrimeField64};
use p3_symmetric::{Sha256Hasher, Turn};
use std::alloc::Global;
use std::time::Instant;

type Separator<U> = DomainSeparator<U, Sha256Hasher>;

type Prover<C, U> = ProverState<C, U, Sha256Hasher>;

type Verifier<'a, C, U> = VerifierState<'a, C, U, Sha256Hasher>;

type Duplex = DuplexChallenger<BabyBear, Turn<1>, 16, 8>;

type Bytes = BytesToFieldCodec<BabyBear>;

type Symbols = FieldUnit<BabyBear>;

type Elements = FieldToFieldCodec<BabyBear>;

/// What is played: so many steps, with a challenge after each message or without. Its rows are named with what makes
/// the driver, and without.
#[derive(Clone, Copy)]
pub struct Script {
    whole: &'static str,
    alone: &'static str,
    /// How many steps there are.
    pub steps: u32,
    draws: bool,
}

/// Messages alone.
pub const MESSAGES: Script = Script {
    whole: "10^4 scalar steps with seed",
    alone: "10^4 scalar steps without seed",
    steps: 10_000,
    draws: false,
};

const SCRIPTS: [Script; 4] = [
    MESSAGES,
    Script {
        whole: "10^4 steps message/challenge",
        alone: "10^4 steps message/challenge without seed",
        steps: 10_000,
        draws: true,
    },
    Script {
        whole: "10^5 scalar steps with seed",
        alone: "10^5 scalar steps without seed",
        steps: 100_000,
        draws: false,
    },
    Script {
        whole: "10^5 steps message/challenge",
        alone: "10^5 steps message/challenge without seed",
        steps: 100_000,
        draws: true,
    },
];

// How long a driver took from its making to its end, and how long its steps alone.
#[derive(Clone, Copy)]
struct Times {
    whole: f64,
    alone: f64,
}

// The least of a side's times.
#[derive(Clone, Copy)]
struct Side {
    whole: Shortest,
    alone: Shortest,
}

impl Side {
    fn new() -> Side {
        Side {
            whole: Shortest::new(),
            alone: Shortest::new(),
        }
    }

    fn take(&mut self, times: Times, operations: u32, left: u64) {
        let Times { whole, alone } = times;
        self.whole.take(Lap {
            nanoseconds: whole,
            operations,
            left,
        });
        self.alone.take(Lap {
            nanoseconds: alone,
            operations,
            left,
        });
    }

    fn print(&self, rt: &HostRuntime, name: &str, script: &Script) -> Result<u64> {
        self.whole.print(rt, name, script.whole)?;
        self.alone.print(rt, name, script.alone)
    }
}

/// Times both drivers over a hash and over a duplex sponge, and gives a sum of what they leave.
pub fn measure_all(rt: &HostRuntime, runs: u32) -> Result<u64> {
    let mut sum = 0u64;
    for script in &SCRIPTS {
        let hash = over_hash(rt, runs, script)?;
        let duplex = over_duplex(rt, runs, script)?;
        sum = sum.wrapping_add(hash).wrapping_add(duplex);
    }
    Ok(sum)
}

fn over_hash(rt: &HostRuntime, runs: u32, script: &Script) -> Result<u64> {
    let names = ("prover, ", "verifier, ");
    measure::<Chain, u8, Bytes>(rt, names, runs, &new_chain(rt.alloc()), script)
}

fn over_duplex(rt: &HostRuntime, runs: u32, script: &Script) -> Result<u64> {
    let names = ("duplex prover, ", "duplex verifier, ");
    measure::<Duplex, Symbols, Elements>(rt, names, runs, &Duplex::new(Turn, 1), script)
}

fn measure<C: Sponge + CanObserve<U::Item> + CanCopy, U: Unit, Cdc: Codec<C, BabyBear>>(
    rt: &HostRuntime,
    names: (&str, &str),
    runs: u32,
    challenger: &C,
    script: &Script,
) -> Result<u64>
    requires alphabet { U.is_alphabet }
    requires secure { 128 ≤ Cdc.SECURITY_BITS }
{
    let separator = separator::<U>(rt.alloc(), script)?;
    let mut prover = Side::new();
    let mut verifier = Side::new();
    for _ in 0..runs {
        let (times, proof) = time_prover::<C, U, Cdc>(rt, challenger, &separator, script)?;
        prover.take(times, script.steps, proof.len() as u64);
        let (times, sum) = time_verifier::<C, U, Cdc>(
            rt,
            challenger,
            &separator,
            proof.as_slice(),
            script,
        )?;
        verifier.take(times, script.steps, sum);
    }
    let (prover_name, verifier_name) = names;
    let sent = prover.print(rt, prover_name, script)?;
    let received = verifier.print(rt, verifier_name, script)?;
    Ok(sent.wrapping_add(received))
}

/// The pattern of the script's steps, and its separator.
pub fn separator<U>(alloc: Global, script: &Script) -> Result<Separator<U>> {
    let message = Interaction::algebra::<BabyBear, BabyBear, Sha256Hasher>(
        Hierarchy::Atomic,
        Kind::Message,
        "value",
        Length::Scalar,
    );
    let challenge = message.of_same_type(
        Hierarchy::Atomic,
        Kind::Challenge,
        "drawn",
        Length::Scalar,
    );
    let mut steps = Vec::new(alloc);
    for i in 0..script.steps {
        let draws = script.draws && i % 2 == 1;
        steps.push(if draws { challenge } else { message })?;
    }
    let pattern = InteractionPattern::new(steps)?;
    Ok(Separator::new(alloc, 1, b"bench", pattern)?)
}

// Plays the script, and gives the bytes of the proof.
fn time_prover<C: Sponge + CanObserve<U::Item> + CanCopy, U: Unit, Cdc: Codec<C, BabyBear>>(
    rt: &HostRuntime,
    challenger: &C,
    separator: &Separator<U>,
    script: &Script,
) -> Result<(Times, Vec<u8>)>
    requires alphabet { U.is_alphabet }
    requires secure { 128 ≤ Cdc.SECURITY_BITS }
{
    let challenger = challenger.copy()?;
    let start = Instant::now(rt)?;
    let mut prover = Prover::new(rt.alloc(), challenger, separator)?;
    match timed_send::<C, U, Cdc>(rt, &mut prover, script) {
        Ok(alone) => {
            let proof = prover.finalize()?;
            let whole = nanoseconds_since(rt, start)?;
            Ok((Times { whole, alone }, proof))
        }
        Err(error) => {
            prover.abort();
            Err(error)
        }
    }
}

// Reads a proof of the script whole, and gives a sum of what is received.
fn time_verifier<C: Sponge + CanObserve<U::Item> + CanCopy, U: Unit, Cdc: Codec<C, BabyBear>>(
    rt: &HostRuntime,
    challenger: &C,
    separator: &Separator<U>,
    narg: &[u8],
    script: &Script,
) -> Result<(Times, u64)>
    requires alphabet { U.is_alphabet }
    requires secure { 128 ≤ Cdc.SECURITY_BITS }
{
    let challenger = challenger.copy()?;
    let start = Instant::now(rt)?;
    let mut verifier = Verifier::new(rt.alloc(), challenger, separator, narg)?;
    match timed_receive::<C, U, Cdc>(rt, &mut verifier, script) {
        Ok((alone, sum)) => {
            verifier.finalize()?;
            let whole = nanoseconds_since(rt, start)?;
            Ok((Times { whole, alone }, sum))
        }
        Err(error) => {
            verifier.abort();
            Err(error)
        }
    }
}

fn timed_send<C: Sponge + Drop, U, Cdc: Codec<C, BabyBear>>(
    rt: &HostRuntime,
    prover: &mut Prover<C, U>,
    script: &Script,
) -> Result<f64>
    requires { 128 ≤ Cdc.SECURITY_BITS }
{
    let start = Instant::now(rt)?;
    send::<C, U, Cdc>(prover, script)?;
    nanoseconds_since(rt, start)
}

fn timed_receive<C: Sponge + Drop, U, Cdc: Codec<C, BabyBear>>(
    rt: &HostRuntime,
    verifier: &mut Verifier<'_, C, U>,
    script: &Script,
) -> Result<(f64, u64)>
    requires { 128 ≤ Cdc.SECURITY_BITS }
{
    let start = Instant::now(rt)?;
    let sum = receive::<C, U, Cdc>(verifier, script)?;
    Ok((nanoseconds_since(rt, start)?, sum))
}

// The prover's steps: the value that is sent is the number of the step.
#[inline(never)]
fn send<C: Sponge + Drop, U, Cdc: Codec<C, BabyBear>>(
    prover: &mut Prover<C, U>,
    script: &Script,
) -> Result<(), TranscriptError>
    requires { 128 ≤ Cdc.SECURITY_BITS }
{
    for i in 0..script.steps {
        if script.draws && i % 2 == 1 {
            prover.challenge_scalar::<BabyBear, Cdc>("drawn")?;
        } else {
            prover.add_scalar::<BabyBear, Cdc>("value", &BabyBear::from_u32(i))?;
        }
    }
    Ok(())
}

// The verifier's steps, and a sum of what is received.
#[inline(never)]
fn receive<C: Sponge + Drop, U, Cdc: Codec<C, BabyBear>>(
    verifier: &mut Verifier<'_, C, U>,
    script: &Script,
) -> Result<u64, TranscriptError>
    requires { 128 ≤ Cdc.SECURITY_BITS }
{
    let mut sum = BabyBear::ZERO;
    for i in 0..script.steps {
        let value = if script.draws && i % 2 == 1 {
            verifier.challenge_scalar::<BabyBear, Cdc>("drawn")?
        } else {
            verifier.next_scalar::<BabyBear, Cdc>("value")?
        };
        sum = sum + value.into_inner();
    }
    Ok(sum.as_canonical_u64())
}
