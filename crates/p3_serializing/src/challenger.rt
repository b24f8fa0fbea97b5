//! A challenger of elements over a challenger of bytes, with its observations of elements and arrays.
//!
//! ```text
//! observe ->  the element's number as BYTES bytes, the lowest first  ->  observed by the inner challenger
//! sample  <-  the first group of BYTES drawn bytes, cut to the bits of the order, that is below the order
//! ```
//!
//! The challenger has no state of its own: its state is the inner challenger's.
ghost use Rattle.std.specs.Prelude.{◌≡◌, ◌≤◌};
ghost use Rattle.p3_challenger_core.specs.Observation.{in_row, each_as, ObservesOrRefuses};
ghost use Rattle.p3_hash_challenger.specs.HashCalls.{with_pending};
ghost use Rattle.p3_serializing.specs.SerializingState.{state_of, stepped, bytes_observed, element_observed};
ghost use Rattle.p3_serializing.specs.SerializingStateLaws.{nothing-fed, more-fed, element-observed, elements-observed};
ghost use Rattle.p3_serializing.specs.SerializingState as serializing_state;

mod calls;
mod digests;
mod draws;
mod grinding;
mod witness_search;

use crate::{SerializedIn, SerializingState};
use p3_challenger_core::{CanObserve, ChallengerError, Sponge};
use p3_hash_challenger::HashChallenger;
use p3_symmetric::CryptographicHasher;
use std::convert::AsSlice;
use std::marker::{Model, PhantomData};

/// A challenger of the elements of a field over a challenger of bytes.
///
/// An element is observed as the `BYTES` bytes of its canonical number, lowest first, which reach the inner challenger
/// as one slice. An element is drawn from groups of `BYTES` bytes. A group is a number, lowest byte first, cut to the
/// bits of the order of the field. The first group below the order is the element. A draw tries as many groups as the
/// draw limit allows.
///
/// A digest of bytes reaches the inner challenger as one slice. A digest of words of 64 bits reaches it as 8 bytes for
/// each word, lowest first.
///
/// A number of bits, uniform or not, is the low bits of one group, even for 0 bits. The symbols and the final digest
/// are those of the inner challenger.
///
/// The inner challenger may run out of memory. Then everything before the refused slice stays, plus what the inner
/// challenger leaves of the slice. Of a list of elements, the elements before the refused one stay. Of a digest of
/// words, the words before it stay, and of a draw, the bytes drawn before it.
///
/// Corresponds to the Rust crate's `SerializingChallenger32` and `SerializingChallenger64`, over the bytes of a word.
/// Their draws have no limit.
#[derive_where(Debug; Inner)]
pub struct SerializingChallenger<F, Inner, const BYTES: usize> {
    inner: Inner,
    draw_limit: u64,
    #[derive_where(skip)]
    field: PhantomData<F>,
}

/// A challenger of the elements of a field of 32 bits, each as 4 bytes of the inner challenger.
///
/// Corresponds to the Rust crate's `SerializingChallenger32`.
pub type SerializingChallenger32<F, Inner> = SerializingChallenger<F, Inner, 4>;

/// A challenger of the elements of a field of 64 bits, each as 8 bytes of the inner challenger.
///
/// Corresponds to the Rust crate's `SerializingChallenger64`.
pub type SerializingChallenger64<F, Inner> = SerializingChallenger<F, Inner, 8>;

impl<F, Inner, const BYTES: usize> Model for SerializingChallenger<F, Inner, BYTES> {
    ghost use Rattle.std.specs.Prelude.{◌≤◌};
    ghost use Rattle.p3_serializing.specs.SerializingState.{SerializingState};

    ghost Value = { SerializingState Inner };

    ghost view = { λ c. record { inner = c.inner; draw_limit = c.draw_limit } };

    ghost invariant = { λ c. 1 ≤ c.draw_limit };
}

impl<F, Inner: Drop, const BYTES: usize> Drop for SerializingChallenger<F, Inner, BYTES> {
    fn drop(self) {
        let SerializingChallenger {
            inner: _,
            draw_limit: _,
            field: _,
        } = self;
    }
}

impl<F, Inner, const BYTES: usize> SerializingChallenger<F, Inner, BYTES> {
    /// Returns a challenger over this challenger of bytes.
    ///
    /// `draw_limit`, at least 1, is the greatest number of groups of bytes in a draw of an element. The Rust crate has
    /// no limit.
    pub fn new(inner: Inner, draw_limit: u64) -> Self
        requires { 1 ≤ draw_limit }
        ensures { result ≡ record { inner = inner; draw_limit = draw_limit } }
    {
        SerializingChallenger {
            inner,
            draw_limit,
            field: PhantomData,
        }
    }

    /// Returns the challenger of bytes. Not in the Rust crate.
    pub fn inner(&self) -> &Inner
        ensures { result.now ≡ self.now.inner }
    {
        &self.inner
    }
}

impl<F, H: CryptographicHasher<u8, [u8; 32]>, const BYTES: usize> SerializingChallenger<
    F,
    HashChallenger<u8, H, 32>,
    BYTES,
> {
    /// Returns a challenger over a [`HashChallenger`] with the initial state pending.
    ///
    /// `draw_limit`, at least 1, is the greatest number of groups of bytes in a draw of an element. The Rust crate has
    /// no limit.
    pub fn from_hasher(initial_state: Vec<u8>, hasher: H, draw_limit: u64) -> Self
        requires { 1 ≤ draw_limit }
        ensures { result ≡ record {
          draw_limit = draw_limit;
          inner = record { sponge = with_pending initial_state.items; hasher = hasher };
        } }
    {
        SerializingChallenger::new(HashChallenger::new(initial_state, hasher), draw_limit)
    }
}

impl<F, Inner: Sponge, const BYTES: usize> Sponge for SerializingChallenger<F, Inner, BYTES> {
    type State = SerializingState<Inner::State>;

    type Symbol = Inner::Symbol;

    ghost state = { state_of Inner.state };

    ghost fed = { serializing_state.fed Inner.fed };

    ghost next = { stepped Inner.next };

    ghost fed_nothing = { nothing-fed Inner.fed Inner.fed_nothing Inner.fed_more };

    ghost fed_more = { more-fed Inner.fed Inner.fed_nothing Inner.fed_more };
}

impl<F, Inner: CanObserve<u8>, const BYTES: usize> SerializingChallenger<F, Inner, BYTES> {
    // Passes bytes on to the inner challenger, as one slice.
    fn feed(&mut self, bytes: &[u8]) -> Result<(), ChallengerError>
        ensures { ObservesOrRefuses (bytes_observed Inner.observation Inner.slice_may_leave)
            bytes.now (state_of Inner.state self.old) result (state_of Inner.state self.new) }
    {
        self.inner.observe_slice(bytes)
    }
}

impl<F: SerializedIn<BYTES>, Inner: CanObserve<u8>, const BYTES: usize> SerializingChallenger<
    F,
    Inner,
    BYTES,
> {
    // Passes an element on as its bytes.
    fn feed_element(&mut self, value: F) -> Result<(), ChallengerError>
        ensures { ObservesOrRefuses ⟦<Self as CanObserve<F>>⟧.observation value
            (state_of Inner.state self.old) result (state_of Inner.state self.new) }
    {
        self.feed(&value.to_unique_bytes())
    }

    // Passes elements on in order, each by one call.
    fn feed_elements(&mut self, values: &[F]) -> Result<(), ChallengerError>
        ensures { ObservesOrRefuses (in_row ⟦<Self as CanObserve<F>>⟧.observation) values.now
            (state_of Inner.state self.old) result (state_of Inner.state self.new) }
    {
        for i in 0..values.len() {
            self.feed_element(values[i])?;
        }
        Ok(())
    }

    // Passes lists of elements on in order, each element by one call.
    fn feed_element_lists<Part: AsSlice<F>>(
        &mut self,
        lists: &[Part],
    ) -> Result<(), ChallengerError>
        ensures { ObservesOrRefuses
            (each_as Part.items (in_row ⟦<Self as CanObserve<F>>⟧.observation)) lists.now
            (state_of Inner.state self.old) result (state_of Inner.state self.new) }
    {
        for i in 0..lists.len() {
            self.feed_elements(lists[i].as_slice())?;
        }
        Ok(())
    }
}

impl<F: SerializedIn<BYTES>, Inner: CanObserve<u8>, const BYTES: usize> CanObserve<F>
    for SerializingChallenger<F, Inner, BYTES> {
    ghost observation = { element_observed
        Inner.observation Inner.slice_may_leave F.residues BYTES };

    // A refused slice has fed the elements before the refused one, and of that one what the inner challenger leaves.
    ghost slice_may_leave = { (in_row
        (element_observed Inner.observation Inner.slice_may_leave F.residues BYTES)).may_leave };

    ghost observes = { element-observed Inner.fed Inner.fed_nothing Inner.fed_more Inner.observation
        Inner.slice_may_leave Inner.observes Inner.slice_leaves F.residues BYTES };

    ghost slice_leaves = { λ _ _ _ h. h };

    fn observe(&mut self, value: F) -> Result<(), ChallengerError> {
        self.feed_element(value)
    }

    fn observe_slice(&mut self, values: &[F]) -> Result<(), ChallengerError> {
        self.feed_elements(values)
    }
}

impl<F: SerializedIn<BYTES>, Inner: CanObserve<u8>, const BYTES: usize, const N: usize> CanObserve<
    [F; N],
> for SerializingChallenger<F, Inner, BYTES> {
    // Its elements in order, each by one call. An array of no places feeds nothing.
    ghost observation = { in_row ⟦<Self as CanObserve<F>>⟧.observation };

    ghost slice_may_leave = { (in_row (in_row ⟦<Self as CanObserve<F>>⟧.observation)).may_leave };

    ghost observes = { elements-observed Inner.fed Inner.fed_nothing Inner.fed_more _
        Inner.slice_may_leave Inner.observes Inner.slice_leaves F.residues BYTES };

    ghost slice_leaves = { λ _ _ _ h. h };

    fn observe(&mut self, value: [F; N]) -> Result<(), ChallengerError> {
        self.feed_elements(&value[..])
    }

    fn observe_slice(&mut self, values: &[[F; N]]) -> Result<(), ChallengerError> {
        self.feed_element_lists(values)
    }
}
