//! Three calls in a row on any challenger: a value is observed, others are observed as one slice, and a value is
//! drawn. Where one of the calls is refused, the traits alone say which prefix of the symbols was fed.
ghost use Rattle.std.specs.Prelude.{◌++◌, flat_map, IfOk, IfErr};
ghost use Rattle.p3_challenger.specs.Dependence.{DrawsAfter};
ghost use Rattle.uses.specs.ThreeCalls.{RefusesThreeCalls};

use p3_challenger::{CanObserve, CanSample, ChallengerError};

/// Observes a value and then others as one slice, and draws a value that depends on them all.
///
/// The errors are [`ChallengerError::OutOfMemory`] and the draw's [`ChallengerError::DrawLimit`]. After the former a
/// prefix of the symbols of the observed values was fed, or all of them were and some smallest draws were made. After
/// the latter everything is observed and the draw is made.
pub fn observe_and_draw<A, B, X: Drop, C: CanObserve<A> + CanObserve<B> + CanSample<X>>(
    challenger: &mut C,
    first: A,
    rest: &[B],
) -> Result<X, ChallengerError>
    ensures drawn { IfOk result (λ x. DrawsAfter C.fed C.sampling (⟦<C as CanObserve<A>>⟧.observation.symbols first
        ++ flat_map ⟦<C as CanObserve<B>>⟧.observation.symbols rest.now)
        x (C.state challenger.old) (C.state challenger.new)) }
    ensures err { IfErr result (λ e. RefusesThreeCalls C.fed C.next C.sampling
        (⟦<C as CanObserve<A>>⟧.observation.symbols first ++ flat_map ⟦<C as CanObserve<B>>⟧.observation.symbols
        rest.now) e (C.state challenger.old) (C.state challenger.new)) }
{
    challenger.observe(first)?;
    challenger.observe_slice(rest)?;
    challenger.sample()
}
