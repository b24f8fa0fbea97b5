ghost use Rattle.std.specs.Prelude.{◌≡◌};

use p3_challenger_core::{CanObserve, CanSample, ChallengerError, Sponge};
use std::marker::Model;

/// A challenger that draws given bytes, whatever is fed to it. Its draw limit is their number.
#[derive(Drop)]
pub struct Supply<'a> {
    left: &'a [u8],
}

impl<'a> Model for Supply<'a> {
    ghost use Rattle.std.specs.Prelude.{ℕ, List};

    ghost Value = { List ℕ };

    ghost view = { λ s. s.left.now };
}

impl<'a> Supply<'a> {
    /// Returns a challenger that draws these bytes, in order.
    pub fn new(bytes: &'a [u8]) -> Self
        ensures { result ≡ bytes.now }
    {
        Supply { left: bytes }
    }

    /// Returns the bytes not drawn yet.
    pub fn left(&self) -> &[u8]
        ensures { result.now ≡ self.now }
    {
        self.left
    }
}

impl<'a> Sponge for Supply<'a> {
    ghost use Rattle.std.specs.Prelude.{refl};
    ghost use Rattle.p3_test_support.specs.Supply.{rest_of};

    type State = Self;

    type Symbol = u8;

    ghost state = { λ s. s };

    ghost fed = { λ s _. s };

    ghost next = { λ s. rest_of s };

    ghost fed_nothing = { λ _. refl };

    ghost fed_more = { λ _ _ _. refl };
}

impl<'a> CanObserve<u8> for Supply<'a> {
    ghost use Rattle.std.specs.Prelude.{[], ◌∷◌, refl};
    ghost use Rattle.p3_challenger_core.specs.Observation.{unrefused_observe};
    ghost use Rattle.p3_challenger_core.specs.ObservationLaws.{unrefused_observe-is_observation};

    ghost observation = { unrefused_observe (λ x. x ∷ []) (λ s _. s) };

    ghost slice_may_leave = { λ _ _ _. ⊥ };

    ghost observes = { unrefused_observe-is_observation (λ s _. s) (λ _. refl) (λ _ _ _. refl)
        (λ x. x ∷ []) (λ s _. s) (λ _ _. refl) };

    ghost slice_leaves = { λ _ _ _ h. absurd h };

    fn observe(&mut self, _value: u8) -> Result<(), ChallengerError> {
        Ok(())
    }

    #[tactic(auto, using(crate::proofs::Observed::passed_over))]
    fn observe_slice(&mut self, _values: &[u8]) -> Result<(), ChallengerError> {
        Ok(())
    }
}

impl<'a> CanSample<u8> for Supply<'a> {
    ghost use Rattle.p3_test_support.specs.Supply.{first_of, rest_of, IsUsedUp, supply-sampled};

    ghost sampling = { record {
      sampled = λ s. first_of s;
      after = λ s. rest_of s;
      meets_limit = λ s. IsUsedUp s;
      may_leave = λ _ _. ⊥;
    } };

    ghost samples = { supply-sampled };

    fn sample(&mut self) -> Result<u8, ChallengerError> {
        let Some((first, rest)) = self.left.split_first() else {
            return Err(ChallengerError::DrawLimit);
        };
        self.left = rest;
        Ok(*first)
    }
}
