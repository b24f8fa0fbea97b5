//! The search for the least witness by uniform bits, as in `search` for plain ones.
ghost use Rattle.std.specs.Prelude.{◌≡◌, ◌≤◌, IsOk};
ghost use Rattle.p3_grinding.specs.Checks.{zero_and_uniform, uniform_check, ready_uniform_check, TriesOrRefuses};
ghost use Rattle.p3_challenger_core.specs.Sampling.{DrawsOrRefuses};

use crate::search::prepared_copy;
use crate::{BeforeWitness, CanCopy, CanSampleUniformBits, UniformBitsError};
use p3_challenger_core::{CanObserve, ChallengerError};
use p3_field_core::PrimeField64;
use std::mem;

/// Returns the least witness that passes a check of `bits` uniform bits, where `resample` says whether a rejected
/// value is replaced by another draw. The challenger is left as that check leaves it.
///
/// A witness whose check meets a draw limit does not pass. The errors are those of [`least_witness`].
///
/// `bits` is at most `max_bits`. Not in the Rust crate.
pub fn least_uniform_witness<
    W: PrimeField64,
    C: BeforeWitness + CanObserve<W> + CanSampleUniformBits<W> + CanCopy,
>(challenger: &mut C, bits: usize, resample: bool) -> Result<W, ChallengerError>
    requires { bits ≤ C.most_bits }
    ensures found { TriesOrRefuses W.residues C.copies_may_fail
        (uniform_check C.observation C.before_witness C.uniform resample bits)
        (C.state challenger.old) result (C.state challenger.new) }
    ensures free { bits ≡ 0 → IsOk result }
{
    if bits == 0 {
        return Ok(W::from_canonical(0));
    }
    let mut prepared = prepared_copy(challenger)?;
    let witness = least_prepared(&mut prepared, bits, resample)?;
    mem::swap(challenger, &mut prepared);
    Ok(witness)
}

// The least witness that passes on a challenger which is ready for one.
fn least_prepared<W: PrimeField64, C: CanObserve<W> + CanSampleUniformBits<W> + CanCopy>(
    challenger: &mut C,
    bits: usize,
    resample: bool,
) -> Result<W, ChallengerError>
    requires { bits ≤ C.most_bits }
    ensures { TriesOrRefuses W.residues C.copies_may_fail
        (ready_uniform_check C.observation C.uniform resample bits)
        (C.state challenger.old) result (C.state challenger.new) }
{
    let mut trial = challenger.copy()?;
    for candidate in 0..W::ORDER_U64 {
        let witness = W::from_canonical(candidate);
        match passes(&mut trial, bits, resample, witness) {
            Ok(true) => {
                mem::swap(challenger, &mut trial);
                return Ok(witness);
            }
            Ok(false) => trial.copy_from(challenger)?,
            Err(ChallengerError::DrawLimit) => trial.copy_from(challenger)?,
            Err(error) => return Err(error),
        }
    }
    Err(ChallengerError::NoWitness)
}

/// Returns whether a witness passes a check of `bits` uniform bits; `resample` says whether a rejected value is
/// replaced.
///
/// The errors are those of [`CanObserve::observe`] and of a draw.
pub(crate) fn check_uniformly<
    W: PrimeField64,
    C: BeforeWitness + CanObserve<W> + CanSampleUniformBits<W>,
>(challenger: &mut C, bits: usize, resample: bool, witness: W) -> Result<bool, ChallengerError>
    requires { bits ≤ C.most_bits }
    ensures { DrawsOrRefuses
        (uniform_check C.observation C.before_witness C.uniform resample bits witness)
        (C.state challenger.old) result (C.state challenger.new) }
{
    if bits == 0 {
        return Ok(true);
    }
    challenger.draw_before_witness()?;
    passes(challenger, bits, resample, witness)
}

// Whether a witness passes on a challenger which is ready for one.
fn passes<W: PrimeField64, C: CanObserve<W> + CanSampleUniformBits<W>>(
    challenger: &mut C,
    bits: usize,
    resample: bool,
    witness: W,
) -> Result<bool, ChallengerError>
    requires { bits ≤ C.most_bits }
    ensures { DrawsOrRefuses (ready_uniform_check C.observation C.uniform resample bits witness)
        (C.state challenger.old) result (C.state challenger.new) }
{
    challenger.observe(witness)?;
    zero_uniform_bits::<W, C>(challenger, bits, resample)
}

// Whether so many uniform bits are all 0. Where a value is rejected and no other is to be drawn, they are not.
fn zero_uniform_bits<F, C: CanSampleUniformBits<F>>(
    challenger: &mut C,
    bits: usize,
    resample: bool,
) -> Result<bool, ChallengerError>
    requires { bits ≤ C.most_bits }
    ensures { DrawsOrRefuses (zero_and_uniform (C.uniform resample bits))
        (C.state challenger.old) result (C.state challenger.new) }
{
    match challenger.sample_uniform_bits(bits, resample) {
        Ok(value) => Ok(value == 0),
        Err(UniformBitsError::Resampling(_)) => Ok(false),
        Err(UniformBitsError::Challenger(error)) => Err(error),
    }
}
