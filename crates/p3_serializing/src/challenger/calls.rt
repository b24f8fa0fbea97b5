//! Laws: each method as calls on the inner challenger, or as calls of the list that `follows_groups` speaks of.
ghost use Rattle.std.specs.{Prelude.{◌≡◌, ◌==◌, ℕ, suc, Bool, [], ◌∷◌, Some, None, IsSome}, List.flat_map};
ghost use Rattle.std.specs.Option.{option_map};
ghost use Rattle.p3_symmetric.specs.Digests.{values_of};
ghost use Rattle.p3_challenger_core.specs.Sampling.{draws, after_draws};
ghost use Rattle.p3_grinding.specs.Checks.{bits_check};
ghost use Rattle.p3_serializing.specs.{Bytes.bytes_of, SerializingState.{SerializingState, FeedsBytes}};
ghost use Rattle.p3_serializing.specs.SerializingGroups.{observe, draw_bits, drop_byte, bits, by_calls};
ghost use Rattle.p3_serializing.specs.SerializingGroups.{answers_by_calls, after_calls, check_by};

use crate::{SerializedIn, SerializingChallenger};
use p3_challenger_core::{CanFinalizeDigest, CanObserve, CanSample, CanSampleBits};
use p3_field_core::BasedVectorSpace;
use p3_grinding::{BeforeWitness, CanSampleUniformBits};
use p3_symmetric::{Hash, MerkleCap};

impl<F: SerializedIn<BYTES>, Inner: CanObserve<u8>, const BYTES: usize> SerializingChallenger<
    F,
    Inner,
    BYTES,
> {
    /// The inner challenger observes the bytes of each value, in order. An element has the `BYTES` bytes of its number,
    /// lowest first, and an array those of its elements. A digest of bytes has these bytes, a digest of words 8 bytes
    /// for each word, and a cap those of its roots.
    ///
    /// A law: the body is empty, and a caller cites the clauses.
    pub fn observes_are_calls<const N: usize>()
        ensures value { FeedsBytes Inner.observation ⟦<Self as CanObserve<F>>⟧.observation
            (λ x. bytes_of BYTES (F.residues.number x)) }
        ensures array { FeedsBytes Inner.observation ⟦<Self as CanObserve<[F; N]>>⟧.observation
            (λ xs. flat_map (λ x. bytes_of BYTES (F.residues.number x)) xs) }
        ensures digest { FeedsBytes Inner.observation
            ⟦<Self as CanObserve<Hash<F, u8, N>>>⟧.observation (λ digest. values_of digest) }
        ensures cap { FeedsBytes Inner.observation
            ⟦<Self as CanObserve<MerkleCap<F, [u8; N]>>>⟧.observation
            (λ cap. flat_map (λ root. root) cap) }
        ensures digest_of_words { FeedsBytes Inner.observation
            ⟦<Self as CanObserve<Hash<F, u64, N>>>⟧.observation
            (λ digest. flat_map (bytes_of 8) (values_of digest)) }
        ensures cap_of_words { FeedsBytes Inner.observation
            ⟦<Self as CanObserve<MerkleCap<F, [u64; N]>>>⟧.observation
            (λ cap. flat_map (λ root. flat_map (bytes_of 8) root) cap) }
    {}
}

impl<F: SerializedIn<BYTES>, Inner: CanSample<u8>, const BYTES: usize> SerializingChallenger<
    F,
    Inner,
    BYTES,
> {
    /// An element of a space is one draw of a field element for each coefficient, coefficient 0 first. The draw stops
    /// at the first coefficient that meets the draw limit. Uniform bits are drawn as plain bits, and no value is
    /// rejected.
    ///
    /// A law: the body is empty, and a caller cites the clauses.
    pub fn draws_are_calls<A: BasedVectorSpace<F>>()
        ensures element { (s : SerializingState Inner.State) →
            ⟦<Self as CanSample<A>>⟧.sampling.sampled s
            ≡ option_map A.element (draws ⟦<Self as CanSample<F>>⟧.sampling A.DIMENSION s) }
        ensures after { (s : SerializingState Inner.State) →
            ⟦<Self as CanSample<A>>⟧.sampling.after s
            ≡ after_draws ⟦<Self as CanSample<F>>⟧.sampling A.DIMENSION s }
        ensures uniform { (resample : Bool) (bits : ℕ) (s : SerializingState Inner.State) →
            (⟦<Self as CanSampleUniformBits<F>>⟧.uniform resample bits).draw.sampled s
            ≡ (⟦<Self as CanSampleBits<usize>>⟧.bits_sampling bits).sampled s }
        ensures after_uniform { (resample : Bool) (bits : ℕ) (s : SerializingState Inner.State) →
            (⟦<Self as CanSampleUniformBits<F>>⟧.uniform resample bits).draw.after s
            ≡ (⟦<Self as CanSampleBits<usize>>⟧.bits_sampling bits).after s }
        ensures rejects { (resample : Bool) (bits : ℕ) (s : SerializingState Inner.State) →
            (⟦<Self as CanSampleUniformBits<F>>⟧.uniform resample bits).rejects s ≡ None }
    {}

    /// The final digest is that of the inner challenger.
    ///
    /// A law: the body is empty, and a caller cites the clause.
    pub fn digest_is_inner()
    where
        Inner: CanFinalizeDigest,
        ensures { (s : SerializingState Inner.State) →
            ⟦<Self as CanFinalizeDigest>⟧.digest_of s ≡ Inner.CanFinalizeDigest.digest_of s.inner }
    {}
}

impl<
    F: SerializedIn<BYTES>,
    Inner: CanObserve<u8> + CanSample<u8>,
    const BYTES: usize,
> SerializingChallenger<F, Inner, BYTES> {
    /// A check of a witness by at least one bit drops a byte, observes the witness and draws the bits. The witness
    /// passes where they are 0. These are calls of a list that `follows_groups` speaks of. A check by 0 bits passes and
    /// does nothing. The dropped byte has to be there: its draw meets no limit of the inner challenger.
    ///
    /// A law: the body is empty, and a caller cites the clauses.
    pub fn checks_are_calls()
        ensures none { (witness : F) (s : SerializingState Inner.State) → (bits_check
            ⟦<Self as CanObserve<F>>⟧.observation ⟦<Self as BeforeWitness>⟧.before_witness
            ⟦<Self as CanSampleBits<usize>>⟧.bits_sampling 0 witness).sampled s ≡ Some Bool.true }
        ensures sampled { (more n : ℕ) (witness : F) (s : SerializingState Inner.State) →
            let by = by_calls ⟦<Self as CanObserve<F>>⟧.observation
            ⟦<Self as CanSample<F>>⟧.sampling ⟦<Self as CanSampleBits<usize>>⟧.bits_sampling
            ⟦<Self as CanSampleUniformBits<F>>⟧.uniform ⟦<Self as BeforeWitness>⟧.before_witness in
            IsSome (Inner.CanSample.sampling.sampled s.inner) → answers_by_calls by
            (drop_byte ∷ observe witness ∷ draw_bits (suc more) ∷ []) s ≡ bits (Some n) ∷ []
            → (check_by by (suc more) witness).sampled s ≡ Some (n == 0) }
        ensures after { (more : ℕ) (witness : F) (s : SerializingState Inner.State) →
            let by = by_calls ⟦<Self as CanObserve<F>>⟧.observation
            ⟦<Self as CanSample<F>>⟧.sampling ⟦<Self as CanSampleBits<usize>>⟧.bits_sampling
            ⟦<Self as CanSampleUniformBits<F>>⟧.uniform ⟦<Self as BeforeWitness>⟧.before_witness in
            IsSome (Inner.CanSample.sampling.sampled s.inner) →
            (check_by by (suc more) witness).after s
            ≡ after_calls by (drop_byte ∷ observe witness ∷ draw_bits (suc more) ∷ []) s }
    {}
}
