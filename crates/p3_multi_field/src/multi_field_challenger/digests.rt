//! Observations of arrays and lists of lists of scalars, of digests and of caps. None of them is ever refused.
ghost use Rattle.std.specs.{Prelude.{◌≡◌, ◌≤◌, [], length, map, ◌∷◌, refl}, List.flat_map};
ghost use Rattle.p3_challenger_core.specs.Observation.{observed_all, ObservesSame, unrefused_observe};
ghost use Rattle.p3_sponge.specs.{Cells.overwritten, SpongeCalls.permuting};
ghost use Rattle.p3_multi_field.specs.MultiFieldCalls.{absorbed_pending, scalar, digest};
ghost use Rattle.p3_multi_field.specs.MultiFieldState.{digest_observed, rule, each_observed, scalars_observed};
ghost use Rattle.p3_multi_field.specs.MultiFieldStateLaws.{is_observation, scalars-fed, lists-fed, digests-fed};
ghost use Rattle.p3_symmetric.specs.Digests.{values_of};

use crate::{HasFieldPair, MultiField32Challenger};
use p3_challenger_core::{CanObserve, ChallengerError};
use p3_field_bridge::FieldBridge;
use p3_field_core::{PrimeField32, PrimeField64};
use p3_sponge::overwrite;
use p3_symmetric::{CryptographicPermutation, Hash, MerkleCap};
use std::convert::AsSlice;

impl<
    F: PrimeField32,
    PF: PrimeField64 + FieldBridge<F, PF>,
    P: CryptographicPermutation<[PF; WIDTH]>,
    const WIDTH: usize,
    const RATE: usize,
> MultiField32Challenger<F, PF, P, WIDTH, RATE> {
    /// A borrowed cap is observed like the cap itself: it feeds the same symbols, and leaves the same state.
    ///
    /// A law: the body is empty, and a caller cites the clauses.
    pub fn lent_caps_are_caps<'a, const N: usize>()
        ensures { ObservesSame ⟦<Self as CanObserve<&'a MerkleCap<F, [PF; N]>>>⟧.observation
            (λ cap. cap.now) ⟦<Self as CanObserve<MerkleCap<F, [PF; N]>>>⟧.observation }
    {}

    // Absorbs what is pending. Where nothing is, the outputs left are dropped.
    fn empty(&mut self)
        ensures absorbed { self.new ≡ record self.old {
          sponge = absorbed_pending
              ⟦<PF as HasFieldPair<F>>⟧.field_pair (P.permutation self.old.permutation) RATE
              self.old.sponge.cells self.old.sponge.pending;
        } }
        ensures none_pending { self.new.sponge.pending ≡ [] }
    {
        if self.scalars == 0 {
            self.outputs_left = 0;
        } else {
            self.duplex();
        }
    }

    // Absorbs a block of words, where nothing is pending.
    fn absorb_words(&mut self, block: &[PF])
        requires none { self.old.sponge.pending ≡ [] }
        requires fits { length block.now ≤ RATE }
        ensures { self.new ≡ record self.old {
          sponge = permuting
              (rule ⟦<PF as HasFieldPair<F>>⟧.field_pair P.permutation RATE self.old)
              (overwritten PF.residues RATE self.old.sponge.cells block.now);
        } }
    {
        let row_len = self.row_len();
        overwrite(&mut self.sponge_state[..], block, RATE);
        self.permutation.permute_mut(&mut self.sponge_state);
        self.outputs_left = row_len;
    }

    // Observes a digest of words: they are absorbed in blocks, after what is pending.
    fn push_digest(&mut self, words: &[PF])
        ensures { self.new ≡ digest_observed
            ⟦<PF as HasFieldPair<F>>⟧.field_pair P.permutation RATE self.old words.now }
    {
        let _ = &self.sponge_state;
        self.empty();
        let mut rest = words;
        while !rest.is_empty() {
            let (block, after) = rest.split_at(RATE.min(rest.len()));
            self.absorb_words(block);
            rest = after;
        }
    }

    // Makes the scalars of parts pending, part by part.
    fn push_parts<Part: AsSlice<F>>(&mut self, parts: &[Part])
        ensures { self.new ≡ each_observed Part.items (scalars_observed
            ⟦<PF as HasFieldPair<F>>⟧.field_pair P.permutation RATE) self.old parts.now }
    {
        for i in 0..parts.len() {
            self.push_all(parts[i].as_slice());
        }
    }

    // Makes the scalars of lists of parts pending, part by part.
    fn push_lists<Part: AsSlice<F>, V: AsSlice<Part>>(&mut self, values: &[V])
        ensures { self.new ≡ each_observed V.items (each_observed Part.items (scalars_observed
            ⟦<PF as HasFieldPair<F>>⟧.field_pair P.permutation RATE)) self.old values.now }
    {
        for i in 0..values.len() {
            self.push_parts(values[i].as_slice());
        }
    }

    // Observes digests one after another.
    fn push_digests<D: AsSlice<PF>>(&mut self, digests: &[D])
        ensures { self.new ≡ each_observed D.items (digest_observed
            ⟦<PF as HasFieldPair<F>>⟧.field_pair P.permutation RATE) self.old digests.now }
    {
        for i in 0..digests.len() {
            self.push_digest(digests[i].as_slice());
        }
    }

    // Observes the digests of caps one after another.
    fn push_caps<D: AsSlice<PF>, V: AsSlice<D>>(&mut self, caps: &[V])
        ensures { self.new ≡ each_observed V.items (each_observed D.items (digest_observed
            ⟦<PF as HasFieldPair<F>>⟧.field_pair P.permutation RATE)) self.old caps.now }
    {
        for i in 0..caps.len() {
            self.push_digests(caps[i].as_slice());
        }
    }
}

impl<
    F: PrimeField32,
    PF: PrimeField64 + FieldBridge<F, PF>,
    P: CryptographicPermutation<[PF; WIDTH]>,
    const WIDTH: usize,
    const RATE: usize,
    const N: usize,
> CanObserve<[F; N]> for MultiField32Challenger<F, PF, P, WIDTH, RATE> {
    // An observation takes no memory: it is never refused.
    ghost observation = { unrefused_observe (λ xs. map scalar xs)
        (scalars_observed ⟦<PF as HasFieldPair<F>>⟧.field_pair P.permutation RATE) };

    ghost slice_may_leave = { λ _ _ _. ⊥ };

    ghost observes = { is_observation ⟦<PF as HasFieldPair<F>>⟧.field_pair P.permutation RATE _ _
        (scalars-fed ⟦<PF as HasFieldPair<F>>⟧.field_pair P.permutation RATE) };

    ghost slice_leaves = { λ _ _ _ h. absurd h };

    fn observe(&mut self, value: [F; N]) -> Result<(), ChallengerError> {
        self.push_all(&value[..]);
        Ok(())
    }

    fn observe_slice(&mut self, values: &[[F; N]]) -> Result<(), ChallengerError> {
        self.push_parts(values);
        Ok(())
    }
}

impl<
    F: PrimeField32,
    PF: PrimeField64 + FieldBridge<F, PF>,
    P: CryptographicPermutation<[PF; WIDTH]>,
    const WIDTH: usize,
    const RATE: usize,
> CanObserve<Vec<Vec<F>>> for MultiField32Challenger<F, PF, P, WIDTH, RATE> {
    // An observation takes no memory: it is never refused.
    ghost observation = { unrefused_observe (λ lists. flat_map (λ list. map scalar list.items)
        lists.items) (λ s lists. each_observed (λ list. list.items)
        (scalars_observed ⟦<PF as HasFieldPair<F>>⟧.field_pair P.permutation RATE) s lists.items) };

    ghost slice_may_leave = { λ _ _ _. ⊥ };

    ghost observes = { is_observation ⟦<PF as HasFieldPair<F>>⟧.field_pair P.permutation RATE _ _
        (λ s lists. lists-fed ⟦<PF as HasFieldPair<F>>⟧.field_pair P.permutation RATE
        (λ list. list.items) s lists.items) };

    ghost slice_leaves = { λ _ _ _ h. absurd h };

    fn observe(&mut self, value: Vec<Vec<F>>) -> Result<(), ChallengerError> {
        self.push_parts(value.as_slice());
        Ok(())
    }

    fn observe_slice(&mut self, values: &[Vec<Vec<F>>]) -> Result<(), ChallengerError> {
        self.push_lists(values);
        Ok(())
    }
}

impl<
    F: PrimeField32,
    PF: PrimeField64 + FieldBridge<F, PF>,
    P: CryptographicPermutation<[PF; WIDTH]>,
    const WIDTH: usize,
    const RATE: usize,
    const N: usize,
> CanObserve<Hash<F, PF, N>> for MultiField32Challenger<F, PF, P, WIDTH, RATE> {
    // An observation takes no memory: it is never refused.
    ghost observation = { unrefused_observe (λ words. digest (values_of words) ∷ [])
        (λ s words. digest_observed
        ⟦<PF as HasFieldPair<F>>⟧.field_pair P.permutation RATE s (values_of words)) };

    ghost slice_may_leave = { λ _ _ _. ⊥ };

    ghost observes = { is_observation ⟦<PF as HasFieldPair<F>>⟧.field_pair P.permutation RATE _ _
        (λ _ _. refl) };

    ghost slice_leaves = { λ _ _ _ h. absurd h };

    fn observe(&mut self, value: Hash<F, PF, N>) -> Result<(), ChallengerError> {
        self.push_digest(value.as_slice());
        Ok(())
    }

    fn observe_slice(&mut self, values: &[Hash<F, PF, N>]) -> Result<(), ChallengerError> {
        self.push_digests(values);
        Ok(())
    }
}

impl<
    F: PrimeField32,
    PF: PrimeField64 + FieldBridge<F, PF>,
    P: CryptographicPermutation<[PF; WIDTH]>,
    const WIDTH: usize,
    const RATE: usize,
    const N: usize,
> CanObserve<MerkleCap<F, [PF; N]>> for MultiField32Challenger<F, PF, P, WIDTH, RATE> {
    // An observation takes no memory: it is never refused.
    ghost observation = { unrefused_observe (λ cap. map digest cap)
        (observed_all (digest_observed ⟦<PF as HasFieldPair<F>>⟧.field_pair P.permutation RATE)) };

    ghost slice_may_leave = { λ _ _ _. ⊥ };

    ghost observes = { is_observation ⟦<PF as HasFieldPair<F>>⟧.field_pair P.permutation RATE _ _
        (digests-fed ⟦<PF as HasFieldPair<F>>⟧.field_pair P.permutation RATE) };

    ghost slice_leaves = { λ _ _ _ h. absurd h };

    fn observe(&mut self, value: MerkleCap<F, [PF; N]>) -> Result<(), ChallengerError> {
        self.push_digests(value.roots());
        Ok(())
    }

    fn observe_slice(&mut self, values: &[MerkleCap<F, [PF; N]>]) -> Result<(), ChallengerError> {
        self.push_caps(values);
        Ok(())
    }
}

impl<
    F: PrimeField32,
    PF: PrimeField64 + FieldBridge<F, PF>,
    P: CryptographicPermutation<[PF; WIDTH]>,
    const WIDTH: usize,
    const RATE: usize,
    const N: usize,
> CanObserve<&MerkleCap<F, [PF; N]>> for MultiField32Challenger<F, PF, P, WIDTH, RATE> {
    // An observation takes no memory: it is never refused.
    ghost observation = { unrefused_observe (λ cap. map digest cap.now) (λ s cap. observed_all
        (digest_observed ⟦<PF as HasFieldPair<F>>⟧.field_pair P.permutation RATE) s cap.now) };

    ghost slice_may_leave = { λ _ _ _. ⊥ };

    ghost observes = { is_observation ⟦<PF as HasFieldPair<F>>⟧.field_pair P.permutation RATE _ _
        (λ s cap. digests-fed ⟦<PF as HasFieldPair<F>>⟧.field_pair P.permutation RATE s cap.now) };

    ghost slice_leaves = { λ _ _ _ h. absurd h };

    fn observe(&mut self, value: &MerkleCap<F, [PF; N]>) -> Result<(), ChallengerError> {
        self.push_digests(value.roots());
        Ok(())
    }

    fn observe_slice(&mut self, values: &[&MerkleCap<F, [PF; N]>]) -> Result<(), ChallengerError> {
        self.push_caps(values);
        Ok(())
    }
}
