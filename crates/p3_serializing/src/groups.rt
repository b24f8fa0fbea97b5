//! A serializing challenger over whole lists of calls.
ghost use Rattle.std.specs.Prelude.{ℕ, List};
ghost use Rattle.p3_serializing.specs.SerializingState.{AlwaysGives};
ghost use Rattle.p3_serializing.specs.SerializingGroups.{SerializingCall, by_calls, AreRead};

use crate::{SerializedIn, SerializingChallenger, SerializingState};
use p3_challenger_core::{CanObserve, CanSample, CanSampleBits};
use p3_grinding::{BeforeWitness, CanSampleUniformBits};

impl<
    F: SerializedIn<BYTES>,
    Inner: CanObserve<u8> + CanSample<u8>,
    const BYTES: usize,
> SerializingChallenger<F, Inner, BYTES> {
    /// A list of calls is a list of calls on the inner challenger. The calls observe elements, draw elements and
    /// numbers of bits, plain or uniform, and drop bytes for checks of witnesses. The inner challenger observes the
    /// bytes of each element as one slice, and draws the groups of each draw and each dropped byte. The groups
    /// determine the results, and the inner challenger ends where these calls leave it. The draw limit stays. This
    /// holds where the inner challenger's draws meet no limit of their own.
    ///
    /// A check of a witness is such a list too, as [`checks_are_calls`](SerializingChallenger::checks_are_calls) says:
    /// a dropped byte, an observation and a draw of bits. Digests and arrays are not among these calls. Their
    /// observations are those of their bytes, by [`observes_are_calls`](SerializingChallenger::observes_are_calls).
    ///
    /// A law: the body is empty, and a caller cites the clause.
    pub fn follows_groups()
        ensures { AlwaysGives Inner.CanSample.sampling →
            (calls : List (SerializingCall F)) (s : SerializingState Inner.State) → (words : List ℕ)
            × AreRead Inner.CanObserve.observation Inner.CanSample.sampling F.residues BYTES
            (by_calls ⟦<Self as CanObserve<F>>⟧.observation ⟦<Self as CanSample<F>>⟧.sampling
            ⟦<Self as CanSampleBits<usize>>⟧.bits_sampling
            ⟦<Self as CanSampleUniformBits<F>>⟧.uniform ⟦<Self as BeforeWitness>⟧.before_witness)
            calls s words }
    {}
}
