// Calls on each challenger.
use crate::calls::{check_witness, copy, grind, observe, observe_slice, sample};
use anyhow::Result;
use p3_challenger::{
    CanCopy, CanObserve, CanSample, ChallengerError, DuplexChallenger, GrindingChallenger,
    HashChallenger, MultiField32Challenger, SerializingChallenger32, SerializingChallenger64,
};
use p3_field::{BabyBear, F257, Goldilocks, PrimeCharacteristicRing, PrimeField64};
use p3_symmetric::{Sha256Hasher, Turn};
use std::alloc::Global;

type Bytes = HashChallenger<u8, Sha256Hasher, 32>;

type Duplex = DuplexChallenger<F257, Turn<2>, 3, 2>;

type MultiField = MultiField32Challenger<F257, BabyBear, Turn<2>, 3, 2>;

// How many groups of bytes a draw tries at most.
const DRAW_LIMIT: u64 = 1000;

/// Makes the calls, and prints what they answer.
pub fn show(rt: &HostRuntime) -> Result<()> {
    show_bytes(rt, bytes(rt.alloc()))?;
    show_duplex(rt)?;
    show_short(rt)?;
    show_long(rt)?;
    show_multi_field(rt)
}

fn bytes(alloc: Global) -> Bytes {
    HashChallenger::new(Vec::new(alloc), Sha256Hasher)
}

fn show_duplex(rt: &HostRuntime) -> Result<()> {
    let challenger = Duplex::new(Turn, DRAW_LIMIT);
    show_work(rt, "duplex", challenger, &[F257::ONE, F257::ZERO])
}

fn show_short(rt: &HostRuntime) -> Result<()> {
    let challenger: SerializingChallenger32<BabyBear, Bytes> = SerializingChallenger32::new(
        bytes(rt.alloc()),
        DRAW_LIMIT,
    );
    show_work(rt, "serializing 32", challenger, &[BabyBear::ONE])
}

fn show_long(rt: &HostRuntime) -> Result<()> {
    let challenger: SerializingChallenger64<Goldilocks, Bytes> = SerializingChallenger64::new(
        bytes(rt.alloc()),
        DRAW_LIMIT,
    );
    show_work(rt, "serializing 64", challenger, &[Goldilocks::ONE])
}

fn show_multi_field(rt: &HostRuntime) -> Result<()> {
    let challenger = MultiField::new(Turn)?;
    show_work(rt, "multi-field", challenger, &[F257::ONE, F257::ZERO])
}

fn show_bytes<C: CanCopy + CanObserve<u8> + CanSample<u8>>(
    rt: &HostRuntime,
    mut challenger: C,
) -> Result<()> {
    let (drawn, of_copy) = draw_bytes(&mut challenger)?;
    println!(rt; "hash: {drawn} {of_copy}")?;
    Ok(())
}

// Observes bytes, copies the challenger, and draws from both.
fn draw_bytes<C: CanCopy + CanObserve<u8> + CanSample<u8>>(
    challenger: &mut C,
) -> Result<(u8, u8), ChallengerError> {
    observe(challenger, 7)?;
    observe_slice(challenger, &[1, 2, 3])?;
    let mut copy = copy(challenger)?;
    let drawn = sample(challenger)?;
    Ok((drawn, sample(&mut copy)?))
}

fn show_work<C: CanCopy + GrindingChallenger + CanSample<C::Witness>>(
    rt: &HostRuntime,
    name: &str,
    mut challenger: C,
    values: &[C::Witness],
) -> Result<()> {
    let (found, passes, drawn, of_copy) = work(&mut challenger, values)?;
    println!(rt; "{name}: {found} {passes} {drawn} {of_copy}")?;
    Ok(())
}

// Observes scalars, copies the challenger, searches for a witness, checks it on the copy, and draws from both. The answer
// has numbers in place of scalars.
fn work<C: CanCopy + GrindingChallenger + CanSample<C::Witness>>(
    challenger: &mut C,
    values: &[C::Witness],
) -> Result<(u64, bool, u64, u64), ChallengerError> {
    observe_slice(challenger, values)?;
    let mut copy = copy(challenger)?;
    let found = grind(challenger)?;
    let passes = check_witness(&mut copy, found)?;
    let drawn = draw(challenger)?;
    Ok((found.as_canonical_u64(), passes, drawn, draw(&mut copy)?))
}

// The number of a scalar that is drawn.
fn draw<C: GrindingChallenger + CanSample<C::Witness>>(
    challenger: &mut C,
) -> Result<u64, ChallengerError> {
    let scalar: C::Witness = sample(challenger)?;
    Ok(scalar.as_canonical_u64())
}
