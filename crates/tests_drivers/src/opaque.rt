// Values that the challenger does not tell apart: of lists of elements it observes the elements alone, one after
// another. So two of them come to one transcript, and what was bound differs.
//
// The other program's challenger, fed the seed and the two elements, draws 3.
ghost use Rattle.std.specs.Prelude.{refl};
ghost use Rattle.p3_challenger.specs.{Observation.unrefused_observe, ObservationLaws.unrefused_observe-is_observation};

use crate::small_world::{Prover, Scalars, Verifier, World, challenge, element, separator, world};
use p3_challenger::fs::{
    Hierarchy, Interaction, Kind, Length, ProverState, SymmetricSteps, TranscriptError,
    VerifierState,
};
use p3_challenger::{CanObserve, CanSample, ChallengerError, Sponge};
use p3_field::{F257, PrimeField64};
use std::test::Fail;

/// Two elements, which stand in so many lists. (a vector of vectors is no opaque value: a contract sees where it stands
/// in memory, so that its clone is another value)
#[derive(Clone, Copy, Debug, PartialEq, Eq)]
pub struct Lists {
    /// The elements, in order.
    pub elements: [F257; 2],
    /// The number of lists.
    pub count: usize,
}

impl CanObserve<Lists> for World {
    ghost observation = { unrefused_observe (λ lists. lists.elements)
        (λ s lists. ⟦<World as Sponge>⟧.fed s lists.elements) };

    ghost slice_may_leave = { λ _ _ _. ⊥ };

    ghost observes = { unrefused_observe-is_observation ⟦<World as Sponge>⟧.fed ⟦<World as Sponge>⟧.fed_nothing
        ⟦<World as Sponge>⟧.fed_more (λ lists. lists.elements)
        (λ s lists. ⟦<World as Sponge>⟧.fed s lists.elements) (λ _ _. refl) };

    ghost slice_leaves = { λ _ _ _ h. absurd h };

    fn observe(&mut self, value: Lists) -> Result<(), ChallengerError> {
        CanObserve::observe(self, value.elements)
    }

    fn observe_slice(&mut self, values: &[Lists]) -> Result<(), ChallengerError> {
        for i in 0..values.len() {
            CanObserve::observe(self, values[i].elements)?;
        }
        Ok(())
    }
}

// What is bound, and the number that is drawn after it.
fn play<S: SymmetricSteps>(driver: &mut S, lists: Lists) -> Result<(Lists, u64), TranscriptError>
where
    S::Challenger: CanObserve<Lists> + CanObserve<F257> + CanSample<F257>,
{
    let bound = driver.observe_opaque("x", lists)?;
    let value = driver.challenge_extension::<F257, F257, Scalars>("c")?;
    Ok((bound.into_inner(), value.into_inner().as_canonical_u64()))
}

#[test]
fn lists_of_the_same_elements_are_not_told_apart(rt: HostRuntime) -> Result<(), Fail> {
    let alloc = rt.alloc();
    let opaque = Interaction::opaque(Hierarchy::Atomic, Kind::Message, "x", Length::Scalar);
    let separator = separator(alloc, vec![in alloc; opaque, challenge()]?)?;
    for count in 1..3 {
        let lists = Lists {
            elements: [element(1), element(2)],
            count,
        };
        let mut prover: Prover<World> = ProverState::new(alloc, world(), &separator)?;
        let proved = play(&mut prover, lists);
        assert_eq!(rt; prover.finalize()?.len(), 0);
        assert_eq!(rt; proved?, (lists, 3));
        let mut verifier: Verifier<'_, World> = VerifierState::new(
            alloc,
            world(),
            &separator,
            b"",
        )?;
        let verified = play(&mut verifier, lists);
        verifier.finalize()?;
        assert_eq!(rt; verified?, (lists, 3));
    }
    Ok(())
}
