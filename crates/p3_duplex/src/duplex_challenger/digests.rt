//! Observations of digests, caps and lists of lists, value by value. None of them is ever refused.
ghost use Rattle.std.specs.{Prelude.{◌≡◌, refl}, List.flat_map};
ghost use Rattle.p3_challenger_core.specs.Observation.{observed_all, ObservesSame, unrefused_observe};
ghost use Rattle.p3_duplex.specs.{DuplexState.fed_parts, DuplexStateLaws.{is_observation, parts-are_observation}};
ghost use Rattle.p3_symmetric.specs.Digests.{values_of};
ghost use Rattle.p3_duplex.specs.DuplexState as duplex_state;

use crate::DuplexChallenger;
use p3_challenger_core::{CanObserve, ChallengerError};
use p3_field_core::PrimeField64;
use p3_symmetric::{CryptographicPermutation, Hash, MerkleCap};
use std::convert::AsSlice;

impl<
    F: PrimeField64,
    P: CryptographicPermutation<[F; WIDTH]>,
    const WIDTH: usize,
    const RATE: usize,
> DuplexChallenger<F, P, WIDTH, RATE> {
    /// A borrowed cap is observed like the cap itself: it feeds the same symbols, and leaves the same state.
    ///
    /// A law: the body is empty, and a caller cites the clauses.
    pub fn lent_caps_are_caps<'a, M, const N: usize>()
        ensures { ObservesSame ⟦<Self as CanObserve<&'a MerkleCap<M, [F; N]>>>⟧.observation
            (λ cap. cap.now) ⟦<Self as CanObserve<MerkleCap<M, [F; N]>>>⟧.observation }
    {}

    // Makes the values of parts pending, part by part.
    pub(crate) fn push_parts<Part: AsSlice<F>>(&mut self, parts: &[Part])
        ensures { self.new ≡ fed_parts F.residues P.permutation RATE Part.items self.old parts.now }
    {
        for i in 0..parts.len() {
            self.push_all(parts[i].as_slice());
        }
    }

    // Makes the values of values of parts pending, part by part.
    fn push_values<Part: AsSlice<F>, V: AsSlice<Part>>(&mut self, values: &[V])
        ensures { self.new ≡ observed_all (λ s value. fed_parts
            F.residues P.permutation RATE Part.items s (V.items value)) self.old values.now }
    {
        for i in 0..values.len() {
            self.push_parts(values[i].as_slice());
        }
    }
}

impl<
    F: PrimeField64,
    M,
    P: CryptographicPermutation<[F; WIDTH]>,
    const WIDTH: usize,
    const RATE: usize,
    const N: usize,
> CanObserve<Hash<M, F, N>> for DuplexChallenger<F, P, WIDTH, RATE> {
    // An observation takes no memory: it is never refused.
    ghost observation = { unrefused_observe values_of
        (λ s digest. duplex_state.fed F.residues P.permutation RATE s (values_of digest)) };

    ghost slice_may_leave = { λ _ _ _. ⊥ };

    ghost observes = { is_observation F.residues P.permutation RATE values_of _ (λ _ _. refl) };

    ghost slice_leaves = { λ _ _ _ h. absurd h };

    fn observe(&mut self, value: Hash<M, F, N>) -> Result<(), ChallengerError> {
        self.push_all(value.as_slice());
        Ok(())
    }

    fn observe_slice(&mut self, values: &[Hash<M, F, N>]) -> Result<(), ChallengerError> {
        self.push_parts(values);
        Ok(())
    }
}

impl<
    F: PrimeField64,
    M,
    P: CryptographicPermutation<[F; WIDTH]>,
    const WIDTH: usize,
    const RATE: usize,
    const N: usize,
> CanObserve<MerkleCap<M, [F; N]>> for DuplexChallenger<F, P, WIDTH, RATE> {
    // An observation takes no memory: it is never refused.
    ghost observation = { unrefused_observe (λ cap. flat_map (λ root. root) cap)
        (λ s cap. fed_parts F.residues P.permutation RATE (λ root. root) s cap) };

    ghost slice_may_leave = { λ _ _ _. ⊥ };

    ghost observes = { parts-are_observation F.residues P.permutation RATE (λ root. root) (λ cap. cap) };

    ghost slice_leaves = { λ _ _ _ h. absurd h };

    fn observe(&mut self, value: MerkleCap<M, [F; N]>) -> Result<(), ChallengerError> {
        self.push_parts(value.roots());
        Ok(())
    }

    fn observe_slice(&mut self, values: &[MerkleCap<M, [F; N]>]) -> Result<(), ChallengerError> {
        self.push_values(values);
        Ok(())
    }
}

impl<
    F: PrimeField64,
    M,
    P: CryptographicPermutation<[F; WIDTH]>,
    const WIDTH: usize,
    const RATE: usize,
    const N: usize,
> CanObserve<&MerkleCap<M, [F; N]>> for DuplexChallenger<F, P, WIDTH, RATE> {
    // An observation takes no memory: it is never refused.
    ghost observation = { unrefused_observe (λ cap. flat_map (λ root. root) cap.now)
        (λ s cap. fed_parts F.residues P.permutation RATE (λ root. root) s cap.now) };

    ghost slice_may_leave = { λ _ _ _. ⊥ };

    ghost observes = { parts-are_observation F.residues P.permutation RATE (λ root. root) (λ cap. cap.now) };

    ghost slice_leaves = { λ _ _ _ h. absurd h };

    fn observe(&mut self, value: &MerkleCap<M, [F; N]>) -> Result<(), ChallengerError> {
        self.push_parts(value.roots());
        Ok(())
    }

    fn observe_slice(&mut self, values: &[&MerkleCap<M, [F; N]>]) -> Result<(), ChallengerError> {
        self.push_values(values);
        Ok(())
    }
}

impl<
    F: PrimeField64,
    P: CryptographicPermutation<[F; WIDTH]>,
    const WIDTH: usize,
    const RATE: usize,
> CanObserve<Vec<Vec<F>>> for DuplexChallenger<F, P, WIDTH, RATE> {
    // An observation takes no memory: it is never refused.
    ghost observation = { unrefused_observe (λ lists. flat_map (λ list. list.items) lists.items)
        (λ s lists. fed_parts F.residues P.permutation RATE (λ list. list.items) s lists.items) };

    ghost slice_may_leave = { λ _ _ _. ⊥ };

    ghost observes = { parts-are_observation F.residues P.permutation RATE (λ list. list.items) (λ lists. lists.items) };

    ghost slice_leaves = { λ _ _ _ h. absurd h };

    fn observe(&mut self, value: Vec<Vec<F>>) -> Result<(), ChallengerError> {
        self.push_parts(value.as_slice());
        Ok(())
    }

    fn observe_slice(&mut self, values: &[Vec<Vec<F>>]) -> Result<(), ChallengerError> {
        self.push_values(values);
        Ok(())
    }
}
