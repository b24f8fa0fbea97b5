//! Candidates of any kind, drawn one after another until a rule has accepted enough of them.
ghost use Rattle.std.specs.Prelude.{◌≡◌, Some, OnOk, IfOk, IfErr, vec_len};
ghost use Rattle.p3_challenger_core.specs.Sampling.{Sampling, RefusesDraw, draws, after_draws, RefusesDrawVec};
ghost use Rattle.p3_driver_core.specs.{Bound.bound_values, Rejecting.{Rule, Computes, Takes, TakesAll}};

use crate::{TranscriptBound, bind};
use p3_challenger_core::{ChallengerError, Sponge};
use std::alloc::Global;

// What candidates are drawn from.
pub(crate) trait Candidates<C: Sponge, T> {
    // What has to hold for a draw.
    ghost may_draw: { Self → Type 0 };

    // What a draw gives, the state after it, and when it is refused and what it leaves then.
    ghost sampling: { Self → Sampling C.State T };

    fn draw(&self, challenger: &mut C) -> Result<T, ChallengerError>
        requires { may_draw self.now }
        ensures drawn { IfOk result
            (λ x. (sampling self.now).sampled (C.state challenger.old) ≡ Some x) }
        ensures after { OnOk result
            (C.state challenger.new ≡ (sampling self.now).after (C.state challenger.old)) }
        ensures err { IfErr result (λ e.
            RefusesDraw (sampling self.now) e (C.state challenger.old) (C.state challenger.new)) };
}

// Draws so many candidates one after another. Their memory is asked for first.
pub(crate) fn draw_all<T: Copy, C: Sponge, D: Candidates<C, T>>(
    candidates: &D,
    challenger: &mut C,
    alloc: Global,
    n: usize,
) -> Result<Vec<TranscriptBound<T>>, ChallengerError>
    requires { D.may_draw candidates.now }
    ensures drawn { IfOk result (λ bounds.
        draws (D.sampling candidates.now) n (C.state challenger.old) ≡ Some (bound_values bounds)) }
    ensures after { OnOk result (C.state challenger.new
        ≡ after_draws (D.sampling candidates.now) n (C.state challenger.old)) }
    ensures err { IfErr result (λ e. RefusesDrawVec (D.sampling candidates.now) n e
        (C.state challenger.old) (C.state challenger.new)) }
    ensures count { IfOk result (λ bounds. vec_len bounds ≡ n) }
{
    let mut bounds = Vec::with_capacity(alloc, n)?;
    for _ in 0..n {
        bounds.push_reserved(bind(candidates.draw(challenger)?));
    }
    Ok(bounds)
}

// Draws until the rule takes a candidate, beside those kept before. The limit is met where it refuses so many.
fn draw_taken<T: Copy, C: Sponge, D: Candidates<C, T>, R: Fn(&T, &[T]) -> bool>(
    candidates: &D,
    challenger: &mut C,
    kept: &[T],
    accept: &R,
    limit: u64,
) -> Result<T, ChallengerError>
    requires may_draw { D.may_draw candidates.now }
    requires callable { R.IsAlwaysCallable accept.now }
    ensures { (rule : Rule T) → Computes R.Fn accept.now rule → Takes (D.sampling candidates.now)
        rule limit kept.now (C.state challenger.old) result (C.state challenger.new) }
{
    for _ in 0..limit {
        let candidate = candidates.draw(challenger)?;
        if accept(&candidate, kept) {
            return Ok(candidate);
        }
    }
    Err(ChallengerError::DrawLimit)
}

// Draws candidates until the rule has taken `n`. Their memory is asked for first.
pub(crate) fn draw_accepted_candidates<
    T: Copy,
    C: Sponge,
    D: Candidates<C, T>,
    R: Fn(&T, &[T]) -> bool,
>(
    candidates: &D,
    challenger: &mut C,
    alloc: Global,
    n: usize,
    accept: &R,
    limit: u64,
) -> Result<Vec<TranscriptBound<T>>, ChallengerError>
    requires may_draw { D.may_draw candidates.now }
    requires callable { R.IsAlwaysCallable accept.now }
    ensures kept { (rule : Rule T) → Computes R.Fn accept.now rule →
        TakesAll (D.sampling candidates.now) rule limit n bound_values
        (C.state challenger.old) result (C.state challenger.new) }
    ensures count { IfOk result (λ bounds. vec_len bounds ≡ n) }
{
    let mut bounds = Vec::with_capacity(alloc, n)?;
    let mut kept = Vec::with_capacity(alloc, n)?;
    for _ in 0..n {
        let value = draw_taken(candidates, challenger, &kept, accept, limit)?;
        kept.push_reserved(value);
        bounds.push_reserved(bind(value));
    }
    Ok(bounds)
}
