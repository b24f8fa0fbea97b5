ghost use Rattle.std.specs.Prelude.{◌≡◌, []};

use p3_challenger_core::{CanObserve, ChallengerError, Sponge};
use std::alloc::Global;
use std::marker::Model;

/// A challenger that records the symbols fed to it.
#[derive(Drop)]
pub struct RecordingChallenger<T> {
    symbols: Vec<T>,
}

impl<T> Model for RecordingChallenger<T> {
    ghost use Rattle.std.specs.Prelude.{List};

    ghost Value = { List T };

    ghost view = { λ r. r.symbols.items };
}

impl<T> RecordingChallenger<T> {
    /// Returns a challenger to which nothing was fed.
    pub fn new(alloc: Global) -> Self
        ensures { result ≡ [] }
    {
        RecordingChallenger {
            symbols: Vec::new(alloc),
        }
    }

    /// Returns the symbols fed to the challenger, in order.
    pub fn symbols(&self) -> &[T]
        ensures { result.now ≡ self.now }
    {
        self.symbols.as_slice()
    }
}

impl<T: Copy> Sponge for RecordingChallenger<T> {
    ghost use Rattle.std.{specs.Prelude.◌++◌, proofs.Common.append_assoc, proofs.lemmas.List.append-nil};

    type State = Self;

    type Symbol = T;

    ghost state = { λ r. r };

    ghost fed = { λ s xs. s ++ xs };

    ghost next = { λ s. s };

    ghost fed_nothing = { append-nil };

    ghost fed_more = { append_assoc };
}

impl<T: Copy> CanObserve<T> for RecordingChallenger<T> {
    ghost use Rattle.std.specs.Prelude.{◌≡◌, [], ◌∷◌, ◌++◌};
    ghost use Rattle.p3_challenger_core.specs.Sponge.{IsNonEmpty};
    ghost use Rattle.p3_test_support.specs.Recorded.{values-recorded, slice-recorded};

    // A refused call changes nothing.
    ghost observation = { record {
      symbols = λ x. x ∷ [];
      observed = λ s x. s ++ (x ∷ []);
      may_leave = λ s _ t. t ≡ s;
    } };

    ghost slice_may_leave = { λ s xs t. IsNonEmpty xs × (t ≡ s) };

    ghost observes = { values-recorded };

    ghost slice_leaves = { slice-recorded };

    fn observe(&mut self, value: T) -> Result<(), ChallengerError> {
        self.symbols.push(value)?;
        Ok(())
    }

    fn observe_slice(&mut self, values: &[T]) -> Result<(), ChallengerError> {
        if values.is_empty() {
            return Ok(());
        }
        self.symbols.extend_from_slice(values)?;
        Ok(())
    }
}
