// What binds a transcript to a protocol, and the seed that it gives a challenger.

use anyhow::{Result, bail};
use conformance_calls::replay::{Replayed, first_difference};
use conformance_tokens::answer;
use conformance_tokens::line::Step;
use conformance_tokens::symbol::{Symbol, numbers_of};
use conformance_tokens::tokens::{split_first, split_name};
use p3_challenger::CanObserve;
use p3_challenger::fs::{DomainSeparator, FieldUnit, InteractionPattern, Unit};
use p3_field::{BabyBear, F257};
use p3_symmetric::Sha256Hasher;
use p3_test_support::RecordingChallenger;
use std::alloc::Global;

/// A call on the separator of a protocol of no steps, or on the challenger that it seeds.
#[derive(Drop)]
pub enum SeparatorCall {
    /// `identifier`: the identifier of the protocol.
    Identifier,
    /// `chunk HEX`: a chunk more in the label of the instance.
    Chunk(Vec<u8>),
    /// `label`: the label of the instance.
    Label,
    /// `o v`: a symbol that the challenger observes.
    Observe(u64),
    /// `seed`: `ok`, or why the challenger takes no seed.
    Seed,
    /// `st`: what the challenger observed.
    State,
}

// A separator, and a challenger that keeps what it is fed. `U` is the alphabet, and `T` its symbols.
#[derive(Drop)]
struct Seeding<U, T> {
    separator: DomainSeparator<U, Sha256Hasher>,
    challenger: RecordingChallenger<T>,
}

// The same, over one of the alphabets.
#[derive(Drop)]
enum AnySeeding {
    Bytes(Seeding<u8, u8>),
    BabyBear(Seeding<FieldUnit<BabyBear>, BabyBear>),
    F257(Seeding<FieldUnit<F257>, F257>),
}

/// The first call with another answer, on a new separator. The spec is its alphabet, version and name.
pub fn difference(
    alloc: Global,
    spec: &str,
    steps: &[Step<'_>],
) -> Result<Option<(usize, String)>> {
    let (alphabet, spec) = split_first(spec)?;
    let (version, name) = split_first(spec)?;
    let version = version.parse()?;
    let seeding = match alphabet {
        "u8" => AnySeeding::Bytes(Seeding::new(alloc, version, name)?),
        "bb" => AnySeeding::BabyBear(Seeding::new(alloc, version, name)?),
        "f257" => AnySeeding::F257(Seeding::new(alloc, version, name)?),
        _ => bail!("an unknown alphabet"),
    };
    first_difference(alloc, seeding, steps)
}

impl<U, T> Seeding<U, T> {
    fn new(alloc: Global, version: u8, name: &str) -> Result<Seeding<U, T>> {
        let name = name.as_bytes();
        if name.is_empty() || name.len() > 62 {
            bail!("no name of a protocol");
        }
        Ok(Seeding {
            separator: DomainSeparator::new(
                alloc,
                version,
                name,
                InteractionPattern::empty(alloc),
            )?,
            challenger: RecordingChallenger::new(alloc),
        })
    }
}

impl SeparatorCall {
    fn parse(alloc: Global, text: &str) -> Result<SeparatorCall> {
        let (name, words) = split_name(text);
        match name {
            "identifier" => Ok(SeparatorCall::Identifier),
            "chunk" => Ok(SeparatorCall::Chunk(hex::decode(alloc, words)?)),
            "label" => Ok(SeparatorCall::Label),
            "o" => Ok(SeparatorCall::Observe(words.parse()?)),
            "seed" => Ok(SeparatorCall::Seed),
            "st" => Ok(SeparatorCall::State),
            _ => bail!("an unknown call"),
        }
    }
}

impl Replayed for AnySeeding {
    fn answer(&mut self, alloc: Global, call: &str) -> Result<String> {
        let call = SeparatorCall::parse(alloc, call)?;
        match self {
            AnySeeding::Bytes(seeding) => answered(alloc, seeding, call),
            AnySeeding::BabyBear(seeding) => answered(alloc, seeding, call),
            AnySeeding::F257(seeding) => answered(alloc, seeding, call),
        }
    }
}

fn answered<U: Unit<Item = T>, T: Symbol>(
    alloc: Global,
    seeding: &mut Seeding<U, T>,
    call: SeparatorCall,
) -> Result<String>
    requires { U.is_alphabet }
{
    match call {
        SeparatorCall::Identifier => {
            Ok(hex::encode(alloc, &seeding.separator.protocol_id()[..])?)
        }
        SeparatorCall::Chunk(chunk) => {
            answer::verdict(alloc, seeding.separator.instance(chunk.as_slice()))
        }
        SeparatorCall::Label => Ok(hex::encode(alloc, seeding.separator.instance_label())?),
        SeparatorCall::Observe(number) => {
            seeding.challenger.observe(T::of_number(number)?)?;
            answer::nothing(alloc)
        }
        SeparatorCall::Seed => {
            let seeded = seeding.separator.seed(&mut seeding.challenger);
            answer::verdict(alloc, seeded)
        }
        SeparatorCall::State => {
            let numbers = numbers_of(alloc, seeding.challenger.symbols())?;
            answer::numbers(alloc, numbers.as_slice())
        }
    }
}
