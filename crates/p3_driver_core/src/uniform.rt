//! Numbers of uniform bits, drawn one after another or until a rule has accepted enough of them.
ghost use Rattle.std.specs.Prelude.{◌≡◌, ◌≤◌, ◌↔◌, ℕ, true, List, [], Some, OnOk, IfOk, IfErr, vec_len};
ghost use Rattle.p3_challenger_core.specs.Sampling.{draws, after_draws, RefusesDrawVec};
ghost use Rattle.p3_driver_core.specs.Bound.{bound_values};
ghost use Rattle.p3_driver_core.specs.Rejecting.{Rule, ComputesOfValues, TakesAll, given, keeps, KeepsFirst};

use crate::TranscriptBound;
use crate::candidates::{Candidates, draw_accepted_candidates, draw_all};
use p3_challenger_core::ChallengerError;
use p3_grinding::{CanSampleUniformBits, UniformBitsError};
use std::alloc::Global;
use std::marker::PhantomData;

// Numbers of so many uniform bits. Another value is drawn in the place of one that is rejected.
#[derive(Drop)]
struct UniformNumbers<F>(usize, PhantomData<F>);

impl<F, C: CanSampleUniformBits<F>> Candidates<C, usize> for UniformNumbers<F> {
    ghost may_draw = { λ it. it.0 ≤ C.most_bits };

    ghost sampling = { λ it. (C.uniform true it.0).draw };

    fn draw(&self, challenger: &mut C) -> Result<usize, ChallengerError> {
        match challenger.sample_uniform_bits(self.0, true) {
            Ok(number) => Ok(number),
            Err(UniformBitsError::Challenger(error)) => Err(error),
            Err(UniformBitsError::Resampling(_)) => unreachable!(),
        }
    }
}

/// Draws `n` numbers of `width` uniform bits, one after another. Memory for them is allocated first.
///
/// The errors are those of a draw, after which the draws before the refused one are done, and
/// [`ChallengerError::OutOfMemory`] with nothing drawn. Condition: `width` is at most
/// [`max_bits`](p3_challenger_core::CanSampleBits::max_bits). Not in the Rust crate.
pub fn draw_uniform_numbers<F, C: CanSampleUniformBits<F>>(
    challenger: &mut C,
    alloc: Global,
    width: usize,
    n: usize,
) -> Result<Vec<TranscriptBound<usize>>, ChallengerError>
    requires { width ≤ C.most_bits }
    ensures drawn { IfOk result (λ bounds.
        draws (C.uniform true width).draw n (C.state challenger.old) ≡ Some (bound_values bounds)) }
    ensures after { OnOk result (C.state challenger.new
        ≡ after_draws (C.uniform true width).draw n (C.state challenger.old)) }
    ensures err { IfErr result (λ e. RefusesDrawVec
        (C.uniform true width).draw n e (C.state challenger.old) (C.state challenger.new)) }
    ensures count { IfOk result (λ bounds. vec_len bounds ≡ n) }
{
    let numbers = UniformNumbers::<F>(width, PhantomData);
    draw_all(&numbers, challenger, alloc, n)
}

/// Draws numbers of `width` uniform bits until the rule `accept` has accepted `n`, and returns these in order. Memory
/// for them is allocated first.
///
/// The rule and the errors are as in [`draw_accepted`](crate::draw_accepted). Conditions: the rule may be called at
/// any time, and `width` is at most [`max_bits`](p3_challenger_core::CanSampleBits::max_bits). The contract holds for
/// a rule that is a function of its arguments, and promises nothing for any other rule. Not in the Rust crate.
pub fn draw_accepted_numbers<F, C: CanSampleUniformBits<F>, R: Fn(usize, &[usize]) -> bool>(
    challenger: &mut C,
    alloc: Global,
    width: usize,
    n: usize,
    accept: &R,
    limit: u64,
) -> Result<Vec<TranscriptBound<usize>>, ChallengerError>
    requires within { width ≤ C.most_bits }
    requires callable { R.IsAlwaysCallable accept.now }
    ensures kept { (rule : Rule ℕ) → ComputesOfValues R.Fn accept.now rule →
        TakesAll (C.uniform true width).draw rule
        limit n bound_values (C.state challenger.old) result (C.state challenger.new) }
    ensures count { IfOk result (λ bounds. vec_len bounds ≡ n) }
{
    let numbers = UniformNumbers::<F>(width, PhantomData);
    let accepts = |number: &usize, kept: &[usize]| accept(*number, kept);
    draw_accepted_candidates(&numbers, challenger, alloc, n, &accepts, limit)
}

/// A rejecting draw of uniform bits keeps exactly the first accepted numbers. The law is that of
/// [`rejecting_draws_keep_the_first_accepted`](crate::rejecting_draws_keep_the_first_accepted) for values.
///
/// A law: the body is empty, and a caller cites the clause.
pub fn rejecting_uniform_draws_keep_the_first_accepted<F, C: CanSampleUniformBits<F>>()
    ensures { (width : ℕ) (rule : Rule ℕ) (limit n : ℕ) (s t : C.State) (xs : List ℕ) →
        (keeps (C.uniform true width).draw rule limit n [] s ≡ given xs t
        ↔ KeepsFirst (C.uniform true width).draw rule limit n s xs t) }
{}
