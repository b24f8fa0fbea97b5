//! Searches for the least witness that passes. One copy of the challenger makes the draws before the witness. A
//! second copy, reset to the first for each candidate, tests the candidates in order. The copy that passed replaces
//! the challenger.
ghost use Rattle.std.specs.Prelude.{◌≡◌, ◌≤◌, Some, OnOk, IfOk, IfErr, IsOk};
ghost use Rattle.p3_grinding.specs.Checks.{bits_check, ready_check, RefusesReady, TriesOrRefuses};
ghost use Rattle.p3_challenger_core.specs.Sampling.{DrawsOrRefuses};

use crate::{BeforeWitness, CanCopy};
use p3_challenger_core::{CanObserve, CanSampleBits, ChallengerError};
use p3_field_core::PrimeField64;
use std::mem;

/// Returns the least witness that passes a check of `bits` bits. The challenger is left as that check leaves it.
///
/// A witness whose check meets a draw limit does not pass. The errors are [`ChallengerError::NoWitness`] where none
/// passes, and [`ChallengerError::OutOfMemory`]. After either the challenger is as it was. With 0 bits there is no
/// error: the witness 0 passes.
///
/// `bits` is at most `max_bits`. Not in the Rust crate.
pub fn least_witness<
    W: PrimeField64,
    C: BeforeWitness + CanObserve<W> + CanSampleBits<usize> + CanCopy,
>(challenger: &mut C, bits: usize) -> Result<W, ChallengerError>
    requires { bits ≤ C.most_bits }
    ensures found { TriesOrRefuses W.residues C.copies_may_fail
        (bits_check C.observation C.before_witness C.bits_sampling bits)
        (C.state challenger.old) result (C.state challenger.new) }
    ensures free { bits ≡ 0 → IsOk result }
{
    if bits == 0 {
        return Ok(W::from_canonical(0));
    }
    let mut prepared = prepared_copy(challenger)?;
    let witness = least_prepared(&mut prepared, bits)?;
    mem::swap(challenger, &mut prepared);
    Ok(witness)
}

/// Returns an equal challenger that has made the draws of a check before its witness.
///
/// The errors are [`ChallengerError::NoWitness`] where these draws meet a limit, so that no witness passes, and
/// [`ChallengerError::OutOfMemory`].
pub(crate) fn prepared_copy<C: BeforeWitness + CanCopy>(
    challenger: &C,
) -> Result<C, ChallengerError>
    ensures drawn { OnOk result (C.before_witness.sampled (C.state challenger.now) ≡ Some tt) }
    ensures after { IfOk result (λ c. C.state c ≡ C.before_witness.after (C.state challenger.now)) }
    ensures err { IfErr result
        (λ e. RefusesReady C.copies_may_fail C.before_witness e (C.state challenger.now)) }
{
    let mut prepared = challenger.copy()?;
    match prepared.draw_before_witness() {
        Ok(()) => Ok(prepared),
        Err(ChallengerError::DrawLimit) => Err(ChallengerError::NoWitness),
        Err(error) => Err(error),
    }
}

// The least witness that passes on a challenger which is ready for one.
fn least_prepared<W: PrimeField64, C: CanObserve<W> + CanSampleBits<usize> + CanCopy>(
    challenger: &mut C,
    bits: usize,
) -> Result<W, ChallengerError>
    requires { bits ≤ C.most_bits }
    ensures { TriesOrRefuses W.residues C.copies_may_fail (ready_check C.observation
        C.bits_sampling bits) (C.state challenger.old) result (C.state challenger.new) }
{
    let mut trial = challenger.copy()?;
    for candidate in 0..W::ORDER_U64 {
        let witness = W::from_canonical(candidate);
        match passes(&mut trial, bits, witness) {
            Ok(true) => {
                mem::swap(challenger, &mut trial);
                return Ok(witness);
            }
            Ok(false) => trial.copy_from(challenger)?,
            Err(ChallengerError::DrawLimit) => trial.copy_from(challenger)?,
            Err(error) => return Err(error),
        }
    }
    Err(ChallengerError::NoWitness)
}

/// Returns whether a witness passes a check of `bits` bits.
///
/// The errors are those of [`CanObserve::observe`] and [`CanSampleBits::sample_bits`].
pub(crate) fn check_plainly<
    W: PrimeField64,
    C: BeforeWitness + CanObserve<W> + CanSampleBits<usize>,
>(challenger: &mut C, bits: usize, witness: W) -> Result<bool, ChallengerError>
    requires { bits ≤ C.most_bits }
    ensures { DrawsOrRefuses
        (bits_check C.observation C.before_witness C.bits_sampling bits witness)
        (C.state challenger.old) result (C.state challenger.new) }
{
    if bits == 0 {
        return Ok(true);
    }
    challenger.draw_before_witness()?;
    passes(challenger, bits, witness)
}

// Whether a witness passes on a challenger which is ready for one.
fn passes<W: PrimeField64, C: CanObserve<W> + CanSampleBits<usize>>(
    challenger: &mut C,
    bits: usize,
    witness: W,
) -> Result<bool, ChallengerError>
    requires { bits ≤ C.most_bits }
    ensures { DrawsOrRefuses (ready_check C.observation C.bits_sampling bits witness)
        (C.state challenger.old) result (C.state challenger.new) }
{
    challenger.observe(witness)?;
    Ok(challenger.sample_bits(bits)? == 0)
}
