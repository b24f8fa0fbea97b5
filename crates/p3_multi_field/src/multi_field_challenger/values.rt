//! Observations and draws of scalars and elements, and the final digest.
ghost use Rattle.std.specs.Prelude.{refl, [], ◌∷◌, Some};
ghost use Rattle.p3_multi_field.specs.MultiFieldState.{after_sampled, scalar_observed, drawn, after_drawn, finalized};
ghost use Rattle.p3_multi_field.specs.{MultiFieldStateLaws.{fed-append, is_observation}, MultiFieldCalls.scalar};
ghost use Rattle.p3_challenger_core.specs.{Observation.unrefused_observe, Sampling.unrefused_draw};
ghost use Rattle.p3_sponge.specs.DrawingLaws.{elements-sampled};
ghost use Rattle.p3_multi_field.specs.MultiFieldState as multi_state;

use crate::{HasFieldPair, MultiField32Challenger, MultiFieldSymbol};
use p3_challenger_core::{CanFinalizeDigest, CanObserve, CanSample, ChallengerError, Sponge};
use p3_field_bridge::FieldBridge;
use p3_field_core::{BasedVectorSpace, PrimeField32, PrimeField64};
use p3_symmetric::CryptographicPermutation;

impl<
    F: PrimeField32,
    PF: PrimeField64 + FieldBridge<F, PF>,
    P: CryptographicPermutation<[PF; WIDTH]>,
    const WIDTH: usize,
    const RATE: usize,
> Sponge for MultiField32Challenger<F, PF, P, WIDTH, RATE> {
    type State = Self;

    type Symbol = MultiFieldSymbol<F, PF>;

    ghost state = { λ c. c };

    ghost fed = { multi_state.fed ⟦<PF as HasFieldPair<F>>⟧.field_pair P.permutation RATE };

    ghost next = { after_sampled ⟦<PF as HasFieldPair<F>>⟧.field_pair P.permutation RATE };

    ghost fed_nothing = { λ _. refl };

    ghost fed_more = { fed-append ⟦<PF as HasFieldPair<F>>⟧.field_pair P.permutation RATE };
}

impl<
    F: PrimeField32,
    PF: PrimeField64 + FieldBridge<F, PF>,
    P: CryptographicPermutation<[PF; WIDTH]>,
    const WIDTH: usize,
    const RATE: usize,
> CanObserve<F> for MultiField32Challenger<F, PF, P, WIDTH, RATE> {
    // An observation takes no memory: it is never refused.
    ghost observation = { unrefused_observe (λ x. scalar x ∷ [])
        (scalar_observed ⟦<PF as HasFieldPair<F>>⟧.field_pair P.permutation RATE) };

    ghost slice_may_leave = { λ _ _ _. ⊥ };

    ghost observes = { is_observation ⟦<PF as HasFieldPair<F>>⟧.field_pair P.permutation RATE _ _
        (λ _ _. refl) };

    ghost slice_leaves = { λ _ _ _ h. absurd h };

    fn observe(&mut self, value: F) -> Result<(), ChallengerError> {
        self.push(value);
        Ok(())
    }

    fn observe_slice(&mut self, values: &[F]) -> Result<(), ChallengerError> {
        self.push_all(values);
        Ok(())
    }
}

impl<
    F: PrimeField32,
    A: BasedVectorSpace<F>,
    PF: PrimeField64 + FieldBridge<F, PF>,
    P: CryptographicPermutation<[PF; WIDTH]>,
    const WIDTH: usize,
    const RATE: usize,
> CanSample<A> for MultiField32Challenger<F, PF, P, WIDTH, RATE> {
    // The element whose coefficients are the next digits, coefficient 0 first. A draw takes no memory and has no
    // limit: it is never refused.
    ghost sampling = { unrefused_draw (λ s. Some
        (A.element (drawn ⟦<PF as HasFieldPair<F>>⟧.field_pair P.permutation RATE A.DIMENSION s)))
        (after_drawn ⟦<PF as HasFieldPair<F>>⟧.field_pair P.permutation RATE A.DIMENSION) };

    ghost samples = { elements-sampled _ _ A.DIMENSION A.element };

    fn sample(&mut self) -> Result<A, ChallengerError> {
        let mut element = A::zero();
        for i in 0..A::DIMENSION {
            element = element.with_coefficient(i, self.draw());
        }
        Ok(element)
    }
}

impl<
    F: PrimeField32,
    PF: PrimeField64 + FieldBridge<F, PF>,
    P: CryptographicPermutation<[PF; WIDTH]>,
    const WIDTH: usize,
    const RATE: usize,
> CanFinalizeDigest for MultiField32Challenger<F, PF, P, WIDTH, RATE> {
    type Digest = [PF; RATE];

    // The rate after one more permutation, of what is pending where something is.
    ghost digest_of = { finalized ⟦<PF as HasFieldPair<F>>⟧.field_pair P.permutation RATE };

    fn finalize(self) -> [PF; RATE] {
        let mut challenger = self;
        challenger.duplex();
        challenger.rate()
    }
}
