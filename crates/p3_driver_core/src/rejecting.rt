//! Values of a codec, drawn until a rule has accepted enough of them.
ghost use Rattle.std.specs.Prelude.{◌≡◌, ◌≤◌, ◌↔◌, ℕ, List, [], IfOk, vec_len};
ghost use Rattle.p3_driver_core.specs.Bound.{bound_values};
ghost use Rattle.p3_driver_core.specs.Rejecting.{Rule, Computes, TakesAll, given, keeps, KeepsFirst};

use crate::TranscriptBound;
use crate::candidates::draw_accepted_candidates;
use crate::lists::Values;
use p3_challenger_core::{ChallengerError, Sponge};
use p3_codecs::Codec;
use std::alloc::Global;
use std::marker::PhantomData;

/// Draws values until the rule `accept` has accepted `n`, and returns these in order. Memory for them is allocated
/// first.
///
/// The rule is called for each candidate, with those kept before it. The errors are [`ChallengerError::OutOfMemory`]
/// and [`ChallengerError::DrawLimit`]. The latter comes where the challenger meets its own draw limit. It comes too
/// right after the rule has refused `limit` candidates in a row, counted from the last kept one or the start. What
/// was drawn is consumed.
///
/// Conditions: the rule may be called at any time, and the codec has at least
/// [`MIN_CHALLENGE_SECURITY_BITS`](p3_codecs::MIN_CHALLENGE_SECURITY_BITS) bits of security. The contract holds for a
/// rule that is a function of its arguments, and promises nothing for any other rule. Not in the Rust crate.
pub fn draw_accepted<T: Copy, C: Sponge, Cdc: Codec<C, T>, R: Fn(&T, &[T]) -> bool>(
    challenger: &mut C,
    alloc: Global,
    n: usize,
    accept: &R,
    limit: u64,
) -> Result<Vec<TranscriptBound<T>>, ChallengerError>
    requires secure { 128 ≤ Cdc.SECURITY_BITS }
    requires callable { R.IsAlwaysCallable accept.now }
    ensures kept { (rule : Rule T) → Computes R.Fn accept.now rule → TakesAll Cdc.sampling
        rule limit n bound_values (C.state challenger.old) result (C.state challenger.new) }
    ensures count { IfOk result (λ bounds. vec_len bounds ≡ n) }
{
    let values = Values::<Cdc>(PhantomData);
    draw_accepted_candidates(&values, challenger, alloc, n, accept, limit)
}

/// A rejecting draw keeps exactly the first accepted candidates. Candidates are drawn in a row, and the kept ones are
/// those that the rule accepts, given those kept before. Before each kept one fewer than `limit` are rejected. The
/// draw ends with the last kept one.
///
/// A law: the body is empty, and a caller cites the clause.
pub fn rejecting_draws_keep_the_first_accepted<A, C: Sponge, Cdc: Codec<C, A>>()
    ensures { (rule : Rule A) (limit n : ℕ) (s t : C.State) (xs : List A) → (keeps Cdc.sampling
        rule limit n [] s ≡ given xs t ↔ KeepsFirst Cdc.sampling rule limit n s xs t) }
{}
