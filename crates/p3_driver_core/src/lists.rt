//! Values of a list: observed one after another, drawn one after another, and returned as bound values.
ghost use Rattle.std.specs.Prelude.{◌≡◌, ◌≤◌, Some, OnOk, IfOk, IfErr, length, vec_len};
ghost use Rattle.p3_challenger_core.specs.Observation.{observed_all, LeavesInCalls, RefusesObserve};
ghost use Rattle.p3_challenger_core.specs.Sampling.{draws, after_draws, RefusesDrawVec};
ghost use Rattle.p3_driver_core.specs.Bound.{bound_values};

use crate::candidates::{Candidates, draw_all};
use crate::{TranscriptBound, bind};
use p3_challenger_core::{CanSampleBits, ChallengerError, Sponge};
use p3_codecs::Codec;
use std::alloc::{AllocError, Global};
use std::marker::PhantomData;

// The values that a codec draws.
#[derive(Drop)]
pub(crate) struct Values<Cdc>(pub(crate) PhantomData<Cdc>);

impl<T, C: Sponge, Cdc: Codec<C, T>> Candidates<C, T> for Values<Cdc> {
    ghost may_draw = { λ _. 128 ≤ Cdc.SECURITY_BITS };

    ghost sampling = { λ _. Cdc.sampling };

    fn draw(&self, challenger: &mut C) -> Result<T, ChallengerError> {
        Cdc::sample(challenger)
    }
}

// The numbers of so many bits that a challenger draws.
#[derive(Drop)]
struct Numbers(usize);

impl<C: CanSampleBits<usize>> Candidates<C, usize> for Numbers {
    ghost may_draw = { λ it. it.0 ≤ C.most_bits };

    ghost sampling = { λ it. C.bits_sampling it.0 };

    fn draw(&self, challenger: &mut C) -> Result<usize, ChallengerError> {
        challenger.sample_bits(self.0)
    }
}

/// Observes values one after another.
///
/// The errors are those of [`Codec::observe`]. After an error the values before the refused one are observed, plus
/// what the refused observation leaves. Not in the Rust crate.
pub fn observe_values<T, C: Sponge, Cdc: Codec<C, T>>(
    challenger: &mut C,
    values: &[T],
) -> Result<(), ChallengerError>
    ensures ok { OnOk result (C.state challenger.new
        ≡ observed_all Cdc.observation.observed (C.state challenger.old) values.now) }
    ensures err { IfErr result (λ e. RefusesObserve (LeavesInCalls Cdc.observation.observed
        Cdc.observation.may_leave (C.state challenger.old) values.now) e (C.state challenger.new)) }
{
    for value in values {
        Cdc::observe(challenger, value)?;
    }
    Ok(())
}

/// Returns the values as bound ones.
///
/// The one error is out of memory. Not in the Rust crate.
pub fn bind_all<T: Copy>(alloc: Global, values: &[T]) -> Result<Vec<TranscriptBound<T>>, AllocError>
    ensures values { IfOk result (λ bounds. bound_values bounds ≡ values.now) }
    ensures count { IfOk result (λ bounds. vec_len bounds ≡ length values.now) }
{
    let mut bounds = Vec::with_capacity(alloc, values.len())?;
    for value in values {
        bounds.push_reserved(bind(*value));
    }
    Ok(bounds)
}

/// Draws `n` values one after another. Memory for them is allocated first.
///
/// The errors are those of [`Codec::sample`], after which the draws before the refused one are done, and
/// [`ChallengerError::OutOfMemory`] with nothing drawn. Condition: the codec has at least
/// [`MIN_CHALLENGE_SECURITY_BITS`](p3_codecs::MIN_CHALLENGE_SECURITY_BITS) bits of security. Not in the Rust crate.
pub fn draw_values<T: Copy, C: Sponge, Cdc: Codec<C, T>>(
    challenger: &mut C,
    alloc: Global,
    n: usize,
) -> Result<Vec<TranscriptBound<T>>, ChallengerError>
    requires { 128 ≤ Cdc.SECURITY_BITS }
    ensures drawn { IfOk result
        (λ bounds. draws Cdc.sampling n (C.state challenger.old) ≡ Some (bound_values bounds)) }
    ensures after { OnOk result
        (C.state challenger.new ≡ after_draws Cdc.sampling n (C.state challenger.old)) }
    ensures err { IfErr result
        (λ e. RefusesDrawVec Cdc.sampling n e (C.state challenger.old) (C.state challenger.new)) }
    ensures count { IfOk result (λ bounds. vec_len bounds ≡ n) }
{
    draw_all(&Values::<Cdc>(PhantomData), challenger, alloc, n)
}

/// Draws `n` numbers of `width` bits one after another. Memory for them is allocated first.
///
/// The errors are those of [`CanSampleBits::sample_bits`], after which the draws before the refused one are done, and
/// [`ChallengerError::OutOfMemory`] with nothing drawn. Condition: `width` is at most
/// [`max_bits`](CanSampleBits::max_bits). Not in the Rust crate.
pub fn draw_numbers<C: CanSampleBits<usize>>(
    challenger: &mut C,
    alloc: Global,
    width: usize,
    n: usize,
) -> Result<Vec<TranscriptBound<usize>>, ChallengerError>
    requires { width ≤ C.most_bits }
    ensures drawn { IfOk result (λ bounds.
        draws (C.bits_sampling width) n (C.state challenger.old) ≡ Some (bound_values bounds)) }
    ensures after { OnOk result
        (C.state challenger.new ≡ after_draws (C.bits_sampling width) n (C.state challenger.old)) }
    ensures err { IfErr result (λ e. RefusesDrawVec
        (C.bits_sampling width) n e (C.state challenger.old) (C.state challenger.new)) }
    ensures count { IfOk result (λ bounds. vec_len bounds ≡ n) }
{
    draw_all(&Numbers(width), challenger, alloc, n)
}
