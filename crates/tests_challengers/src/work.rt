// Proof of work where the draw limit is 1: of uniform bits, and where no witness passes.
use crate::support::{draws, grind, observe_one};
use p3_challenger_core::{CanSample, ChallengerError};
use p3_duplex::DuplexChallenger;
use p3_field::{F257, PrimeCharacteristicRing, UniformSamplingField};
use p3_grinding::{CanCopy, UniformGrindingChallenger};
use p3_lanes::{LanePermutation, PackedField};
use p3_symmetric::Turn;
use std::process::Abort;

// A search and a check, each of 8 uniform bits.

fn grind_uniform<C: UniformGrindingChallenger>(
    challenger: &mut C,
    resample: bool,
) -> Result<C::Witness, ChallengerError> {
    let bits = C::max_bits().min(8);
    if resample {
        challenger.grind_uniform(bits)
    } else {
        challenger.grind_uniform_may_error(bits)
    }
}

fn passes_uniform<C: UniformGrindingChallenger>(
    challenger: &mut C,
    witness: u64,
    resample: bool,
) -> Result<bool, ChallengerError> {
    let (bits, witness) = (C::max_bits().min(8), C::Witness::from_u64(witness));
    if resample {
        challenger.check_witness_uniform(bits, witness)
    } else {
        challenger.check_witness_uniform_may_error(bits, witness)
    }
}

// Whether a search finds the witness after which 0 is drawn. After the one before it, the largest element is.
fn finds_uniform_witness<C: CanCopy + UniformGrindingChallenger + CanSample<C::Witness>>(
    challenger: &C,
    resample: bool,
) -> Result<bool, ChallengerError> {
    let mut copy = challenger.copy()?;
    let found = grind_uniform(&mut copy, resample)?;
    Ok(found == C::Witness::from_u64(255) && draws::<C::Witness, C>(&mut copy, &[2, 4])?)
}

// Whether a check meets the limit where another value may be drawn, and fails where none may.
fn meets_the_limit<C: CanCopy + UniformGrindingChallenger>(
    challenger: &C,
) -> Result<bool, ChallengerError> {
    let mut copy = challenger.copy()?;
    let met = passes_uniform(&mut copy, 254, true) == Err(ChallengerError::DrawLimit);
    let mut copy = challenger.copy()?;
    Ok(met && !passes_uniform(&mut copy, 254, false)?)
}

// Whether no witness is found once 5 is observed, and what is drawn next is what would have been before.
fn finds_none<C: CanCopy + UniformGrindingChallenger + CanSample<C::Witness>>(
    challenger: &C,
) -> Result<bool, ChallengerError> {
    let mut copy = challenger.copy()?;
    observe_one(&mut copy, C::Witness::from_u64(5))?;
    let none = grind(&mut copy, 3) == Err(ChallengerError::NoWitness);
    Ok(none && draws::<C::Witness, C>(&mut copy, &[7, 2, 4])?)
}

fn works<C: CanCopy + UniformGrindingChallenger + CanSample<C::Witness>>(
    challenger: &C,
) -> Result<bool, ChallengerError> {
    let again = finds_uniform_witness(challenger, true)?;
    let or_fails = finds_uniform_witness(challenger, false)?;
    let limited = meets_the_limit(challenger)?;
    Ok(again && or_fails && limited && finds_none(challenger)?)
}

// The same of a duplex challenger. (generic, as the functions of the kinds)
fn duplex_works<
    F: UniformSamplingField + PackedField,
    P: LanePermutation<F, W>,
    const W: usize,
    const R: usize,
>(challenger: &DuplexChallenger<F, P, W, R>) -> Result<bool, ChallengerError> {
    works(challenger)
}

#[test]
fn work_is_found_or_refused(rt: HostRuntime) {
    let challenger: DuplexChallenger<F257, Turn<2>, 3, 2> = DuplexChallenger::new(Turn, 1);
    assert!(rt; duplex_works(&challenger) == Ok(true));
}
