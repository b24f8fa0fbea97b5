//! Observations of digests of bytes, digests of words of 64 bits, and caps of them. A digest of bytes reaches the
//! inner challenger as one slice, and a digest of words as a slice of 8 bytes for each word.
ghost use Rattle.std.specs.Prelude.{List};
ghost use Rattle.p3_challenger_core.specs.Observation.{each_as, ObservesOrRefuses, ObservesSame, Observation};
ghost use Rattle.p3_challenger_core.specs.Observation.{IsObservation, observed_as, in_row};
ghost use Rattle.p3_serializing.specs.SerializingState.{bytes_observed, words_observed};
ghost use Rattle.p3_serializing.specs.SerializingStateLaws.{bytes-observed, words-observed, as-observed};
ghost use Rattle.p3_serializing.specs.SerializingStateLaws.{rows-observed_as};
ghost use Rattle.p3_symmetric.specs.Digests.{values_of};

use crate::{SerializedIn, SerializingChallenger};
use p3_challenger_core::{CanObserve, ChallengerError, Sponge};
use p3_symmetric::{Hash, MerkleCap};
use std::convert::AsSlice;

impl<F: SerializedIn<BYTES>, Inner: CanObserve<u8>, const BYTES: usize> SerializingChallenger<
    F,
    Inner,
    BYTES,
> {
    /// A borrowed cap is observed like the cap itself: it feeds the same symbols, and leaves the same state.
    ///
    /// A law: the body is empty, and a caller cites the clauses.
    pub fn lent_caps_are_caps<'a, const N: usize>()
        ensures bytes { ObservesSame ⟦<Self as CanObserve<&'a MerkleCap<F, [u8; N]>>>⟧.observation
            (λ cap. cap.now) ⟦<Self as CanObserve<MerkleCap<F, [u8; N]>>>⟧.observation }
        ensures words { ObservesSame ⟦<Self as CanObserve<&'a MerkleCap<F, [u64; N]>>>⟧.observation
            (λ cap. cap.now) ⟦<Self as CanObserve<MerkleCap<F, [u64; N]>>>⟧.observation }
    {}
}

// What the digests consist of that a challenger observes: bytes, or words of 64 bits.
trait DigestPart<C: Sponge>: Copy {
    // What the parts of a digest do to the challenger.
    ghost parts_observed: { Observation C.State C.Symbol (List Self) };

    // Passes them on in order.
    fn feed_parts(challenger: &mut C, parts: &[Self]) -> Result<(), ChallengerError>
        ensures { ObservesOrRefuses parts_observed parts.now
            (C.state challenger.old) result (C.state challenger.new) };

    ghost observes: { IsObservation C.fed parts_observed };
}

impl<F, Inner: CanObserve<u8>, const BYTES: usize> DigestPart<
    SerializingChallenger<F, Inner, BYTES>,
> for u8 {
    ghost parts_observed = { bytes_observed Inner.observation Inner.slice_may_leave };

    ghost observes = { bytes-observed Inner.fed Inner.fed_nothing Inner.fed_more Inner.observation
        Inner.slice_may_leave Inner.observes Inner.slice_leaves };

    // As one slice.
    fn feed_parts(
        challenger: &mut SerializingChallenger<F, Inner, BYTES>,
        parts: &[u8],
    ) -> Result<(), ChallengerError> {
        challenger.feed(parts)
    }
}

impl<F, Inner: CanObserve<u8>, const BYTES: usize> DigestPart<
    SerializingChallenger<F, Inner, BYTES>,
> for u64 {
    ghost parts_observed = { words_observed Inner.observation Inner.slice_may_leave };

    ghost observes = { words-observed Inner.fed Inner.fed_nothing Inner.fed_more Inner.observation
        Inner.slice_may_leave Inner.observes Inner.slice_leaves };

    // Each by one call.
    fn feed_parts(
        challenger: &mut SerializingChallenger<F, Inner, BYTES>,
        parts: &[u64],
    ) -> Result<(), ChallengerError> {
        for i in 0..parts.len() {
            challenger.feed(&parts[i].to_le_bytes())?;
        }
        Ok(())
    }
}

// Passes digests on in order.
fn feed_digests<C: Sponge, Part: DigestPart<C>, Digest: AsSlice<Part>>(
    challenger: &mut C,
    digests: &[Digest],
) -> Result<(), ChallengerError>
    ensures { ObservesOrRefuses (each_as Digest.items Part.parts_observed) digests.now
        (C.state challenger.old) result (C.state challenger.new) }
{
    for i in 0..digests.len() {
        Part::feed_parts(challenger, digests[i].as_slice())?;
    }
    Ok(())
}

// Passes caps on in order, each as its roots.
fn feed_caps<C: Sponge, Part: DigestPart<C>, Digest: AsSlice<Part>, Cap: AsSlice<Digest>>(
    challenger: &mut C,
    caps: &[Cap],
) -> Result<(), ChallengerError>
    ensures { ObservesOrRefuses (each_as Cap.items (each_as Digest.items Part.parts_observed))
        caps.now (C.state challenger.old) result (C.state challenger.new) }
{
    for i in 0..caps.len() {
        feed_digests(challenger, caps[i].as_slice())?;
    }
    Ok(())
}

impl<
    F: SerializedIn<BYTES>,
    Inner: CanObserve<u8>,
    Part: DigestPart<SerializingChallenger<F, Inner, BYTES>>,
    const BYTES: usize,
    const N: usize,
> CanObserve<Hash<F, Part, N>> for SerializingChallenger<F, Inner, BYTES> {
    ghost observation = { observed_as values_of Part.parts_observed };

    ghost slice_may_leave = { (each_as values_of Part.parts_observed).may_leave };

    ghost observes = { as-observed Inner.fed Inner.fed_nothing Inner.fed_more
        values_of Part.parts_observed Part.observes };

    ghost slice_leaves = { λ _ _ _ h. h };

    fn observe(&mut self, value: Hash<F, Part, N>) -> Result<(), ChallengerError> {
        Part::feed_parts(self, value.as_slice())
    }

    fn observe_slice(&mut self, values: &[Hash<F, Part, N>]) -> Result<(), ChallengerError> {
        feed_digests(self, values)
    }
}

impl<
    F: SerializedIn<BYTES>,
    Inner: CanObserve<u8>,
    Part: DigestPart<SerializingChallenger<F, Inner, BYTES>>,
    const BYTES: usize,
    const N: usize,
> CanObserve<MerkleCap<F, [Part; N]>> for SerializingChallenger<F, Inner, BYTES> {
    // Its roots in order.
    ghost observation = { observed_as (λ cap. cap) (in_row Part.parts_observed) };

    ghost slice_may_leave = { (each_as (λ cap. cap) (in_row Part.parts_observed)).may_leave };

    ghost observes = { rows-observed_as Inner.fed Inner.fed_nothing Inner.fed_more
        (λ cap. cap) Part.parts_observed Part.observes };

    ghost slice_leaves = { λ _ _ _ h. h };

    fn observe(&mut self, value: MerkleCap<F, [Part; N]>) -> Result<(), ChallengerError> {
        feed_digests(self, value.roots())
    }

    fn observe_slice(&mut self, caps: &[MerkleCap<F, [Part; N]>]) -> Result<(), ChallengerError> {
        feed_caps(self, caps)
    }
}

impl<
    F: SerializedIn<BYTES>,
    Inner: CanObserve<u8>,
    Part: DigestPart<SerializingChallenger<F, Inner, BYTES>>,
    const BYTES: usize,
    const N: usize,
> CanObserve<&MerkleCap<F, [Part; N]>> for SerializingChallenger<F, Inner, BYTES> {
    // Its roots in order.
    ghost observation = { observed_as (λ cap. cap.now) (in_row Part.parts_observed) };

    ghost slice_may_leave = { (each_as (λ cap. cap.now) (in_row Part.parts_observed)).may_leave };

    ghost observes = { rows-observed_as Inner.fed Inner.fed_nothing Inner.fed_more
        (λ cap. cap.now) Part.parts_observed Part.observes };

    ghost slice_leaves = { λ _ _ _ h. h };

    fn observe(&mut self, value: &MerkleCap<F, [Part; N]>) -> Result<(), ChallengerError> {
        feed_digests(self, value.roots())
    }

    fn observe_slice(&mut self, caps: &[&MerkleCap<F, [Part; N]>]) -> Result<(), ChallengerError> {
        feed_caps(self, caps)
    }
}
