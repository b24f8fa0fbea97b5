//! Observations of digests, caps and lists of lists. Each feeds its values in order, by one call for each digest
//! or list.
ghost use Rattle.std.specs.{Prelude.{◌≡◌, OnOk, IfErr}, List.flat_map};
ghost use Rattle.p3_challenger_core.specs.Observation.{RefusesObserve, LeavesBeginning, observed_all, ObservesSame};
ghost use Rattle.p3_symmetric.specs.Digests.{values_of};
ghost use Rattle.p3_hash_challenger.specs.HashStateLaws.{lists-observed, parts-observed, parts-front};
ghost use Rattle.p3_hash_challenger.specs.HashState as hash_state;

use crate::HashChallenger;
use p3_challenger_core::{CanObserve, ChallengerError};
use p3_symmetric::{CryptographicHasher, Hash, MerkleCap};
use std::convert::AsSlice;

impl<T: Copy, H: CryptographicHasher<T, [T; OUT_LEN]>, const OUT_LEN: usize> HashChallenger<
    T,
    H,
    OUT_LEN,
> {
    /// A borrowed cap is observed like the cap itself: it feeds the same symbols, and leaves the same state.
    ///
    /// A law: the body is empty, and a caller cites the clauses.
    pub fn lent_caps_are_caps<'a, F, const N: usize>()
        ensures { ObservesSame ⟦<Self as CanObserve<&'a MerkleCap<F, [T; N]>>>⟧.observation
            (λ cap. cap.now) ⟦<Self as CanObserve<MerkleCap<F, [T; N]>>>⟧.observation }
    {}

    // Feeds parts in order, each by one call. A refused call has fed the parts before the refused one.
    fn feed_parts<Part: AsSlice<T>>(&mut self, parts: &[Part]) -> Result<(), ChallengerError>
        ensures each { OnOk result (self.new
            ≡ observed_all (λ s part. hash_state.fed s (Part.items part)) self.old parts.now) }
        ensures whole { OnOk result
            (self.new ≡ hash_state.fed self.old (flat_map Part.items parts.now)) }
        ensures err { IfErr result (λ e. RefusesObserve
            (hash_state.LeavesParts Part.items self.old parts.now) e self.new) }
    {
        for part in parts {
            self.feed(part.as_slice())?;
        }
        Ok(())
    }

    // Feeds values of parts in order. A refused call has fed the parts before the refused one.
    fn feed_values<Part: AsSlice<T>, V: AsSlice<Part>>(
        &mut self,
        values: &[V],
    ) -> Result<(), ChallengerError>
        ensures ok { OnOk result (self.new ≡ observed_all (λ s value.
            hash_state.fed s (flat_map Part.items (V.items value))) self.old values.now) }
        ensures err { IfErr result (λ e. RefusesObserve
            (hash_state.LeavesParts Part.items self.old (flat_map V.items values.now)) e self.new) }
    {
        for value in values {
            self.feed_parts(value.as_slice())?;
        }
        Ok(())
    }
}

impl<
    F,
    T: Copy,
    H: CryptographicHasher<T, [T; OUT_LEN]>,
    const N: usize,
    const OUT_LEN: usize,
> CanObserve<Hash<F, T, N>> for HashChallenger<T, H, OUT_LEN> {
    // A refused call changes nothing.
    ghost observation = { hash_state.observation_of_list values_of };

    // A refused slice has fed the digests before the refused one.
    ghost slice_may_leave = { hash_state.LeavesParts values_of };

    ghost observes = { lists-observed values_of };

    ghost slice_leaves = { λ _ _ _ h. h };

    fn observe(&mut self, value: Hash<F, T, N>) -> Result<(), ChallengerError> {
        self.feed(value.as_slice())
    }

    fn observe_slice(&mut self, values: &[Hash<F, T, N>]) -> Result<(), ChallengerError> {
        self.feed_parts(values)
    }
}

impl<
    F,
    T: Copy,
    H: CryptographicHasher<T, [T; OUT_LEN]>,
    const N: usize,
    const OUT_LEN: usize,
> CanObserve<MerkleCap<F, [T; N]>> for HashChallenger<T, H, OUT_LEN> {
    // A refused call has fed the roots before the refused one.
    ghost observation = { hash_state.observation_of_parts (λ cap. cap) (λ root. root) };

    ghost slice_may_leave = { λ s caps t. LeavesBeginning hash_state.fed s
        (flat_map (λ cap. cap) caps) t };

    ghost observes = { parts-observed (λ cap. cap) (λ root. root) };

    ghost slice_leaves = { parts-front (λ cap. cap) (λ root. root) };

    fn observe(&mut self, value: MerkleCap<F, [T; N]>) -> Result<(), ChallengerError> {
        self.feed_parts(value.roots())
    }

    fn observe_slice(&mut self, values: &[MerkleCap<F, [T; N]>]) -> Result<(), ChallengerError> {
        self.feed_values(values)
    }
}

impl<
    F,
    T: Copy,
    H: CryptographicHasher<T, [T; OUT_LEN]>,
    const N: usize,
    const OUT_LEN: usize,
> CanObserve<&MerkleCap<F, [T; N]>> for HashChallenger<T, H, OUT_LEN> {
    // A refused call has fed the roots before the refused one.
    ghost observation = { hash_state.observation_of_parts (λ cap. cap.now) (λ root. root) };

    ghost slice_may_leave = { λ s caps t. LeavesBeginning hash_state.fed s
        (flat_map (λ cap. cap.now) caps) t };

    ghost observes = { parts-observed (λ cap. cap.now) (λ root. root) };

    ghost slice_leaves = { parts-front (λ cap. cap.now) (λ root. root) };

    fn observe(&mut self, value: &MerkleCap<F, [T; N]>) -> Result<(), ChallengerError> {
        self.feed_parts(value.roots())
    }

    fn observe_slice(&mut self, values: &[&MerkleCap<F, [T; N]>]) -> Result<(), ChallengerError> {
        self.feed_values(values)
    }
}

impl<T: Copy, H: CryptographicHasher<T, [T; OUT_LEN]>, const OUT_LEN: usize> CanObserve<Vec<Vec<T>>>
    for HashChallenger<T, H, OUT_LEN> {
    // A refused call has fed the lists before the refused one.
    ghost observation = { hash_state.observation_of_parts
        (λ lists. lists.items) (λ list. list.items) };

    ghost slice_may_leave = { λ s groups t. hash_state.LeavesParts (λ list. list.items) s
        (flat_map (λ lists. lists.items) groups) t };

    ghost observes = { parts-observed (λ lists. lists.items) (λ list. list.items) };

    ghost slice_leaves = { parts-front (λ lists. lists.items) (λ list. list.items) };

    fn observe(&mut self, value: Vec<Vec<T>>) -> Result<(), ChallengerError> {
        self.feed_parts(value.as_slice())
    }

    fn observe_slice(&mut self, values: &[Vec<Vec<T>>]) -> Result<(), ChallengerError> {
        self.feed_values(values)
    }
}
