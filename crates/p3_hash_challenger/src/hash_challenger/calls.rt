//! Each method as a list of calls in the call-by-call definition that `follows_segments` speaks of.
ghost use Rattle.std.specs.{Prelude.{◌≡◌, ◌+◌, ◌++◌, ℕ, List, [], ◌∷◌, Some, map, replicate}, List.flat_map};
ghost use Rattle.std.specs.List.{range_with_len};
ghost use Rattle.p3_symmetric.specs.Digests.{values_of};
ghost use Rattle.p3_challenger_core.specs.{Observation.ActsAs, Segments.{observe, observe_empty_array, draw}};
ghost use Rattle.p3_challenger_core.specs.Sponge.{after_steps};
ghost use Rattle.p3_hash_challenger.specs.{HashSegments.output_at, HashState.{calls_of_array, HashState, function_of}};
ghost use Rattle.p3_hash_challenger.specs.HashState.{run, run_to_digest, after_calls};

use crate::HashChallenger;
use p3_challenger_core::{CanFinalizeDigest, CanObserve, CanSample, Sponge};
use p3_symmetric::{CryptographicHasher, Hash, MerkleCap};

impl<T: Copy, H: CryptographicHasher<T, [T; OUT_LEN]>, const OUT_LEN: usize> HashChallenger<
    T,
    H,
    OUT_LEN,
> {
    /// Each value of an observation is observed, in order. The values are those of an array, of a digest, of the
    /// roots of a cap, or of lists in a list. An empty array is a call of its own, which drops the outputs.
    ///
    /// A law: the body is empty, and a caller cites the clauses.
    pub fn observes_are_calls<F, const N: usize>()
        ensures value { ActsAs ⟦<Self as CanObserve<T>>⟧.observation.observed
            (after_calls (function_of H.hash OUT_LEN H.filler)) (λ x. observe x ∷ []) }
        ensures array { ActsAs ⟦<Self as CanObserve<[T; N]>>⟧.observation.observed
            (after_calls (function_of H.hash OUT_LEN H.filler)) calls_of_array }
        ensures digest { ActsAs ⟦<Self as CanObserve<Hash<F, T, N>>>⟧.observation.observed
            (after_calls (function_of H.hash OUT_LEN H.filler)) (λ x. map observe (values_of x)) }
        ensures cap { ActsAs ⟦<Self as CanObserve<MerkleCap<F, [T; N]>>>⟧.observation.observed
            (after_calls (function_of H.hash OUT_LEN H.filler))
            (λ cap. map observe (flat_map (λ root. root) cap)) }
        ensures lists { ActsAs ⟦<Self as CanObserve<Vec<Vec<T>>>>⟧.observation.observed
            (after_calls (function_of H.hash OUT_LEN H.filler))
            (λ lists. map observe (flat_map (λ list. list.items) lists.items)) }
    {}

    /// Symbols fed by values and steps of a transcript are observed one after another. Smallest draws in a row are as
    /// many draws.
    ///
    /// A law: the body is empty, and a caller cites the clauses.
    pub fn symbols_are_calls()
        ensures fed { ActsAs ⟦<Self as Sponge>⟧.fed
            (after_calls (function_of H.hash OUT_LEN H.filler)) (map observe) }
        ensures drawn { (n : ℕ) (s : HashState T H) → after_steps ⟦<Self as Sponge>⟧.next n s
            ≡ after_calls (function_of H.hash OUT_LEN H.filler) s (replicate n draw) }
    {}

    /// A draw is one draw, and the digest is that of the calls before it.
    ///
    /// A law: the body is empty, and a caller cites the clauses.
    pub fn draws_are_calls()
        ensures value { (s : HashState T H) (x : T) →
            (run (function_of H.hash OUT_LEN H.filler) s (draw ∷ [])).answers ≡ x ∷ [] →
            ⟦<Self as CanSample<T>>⟧.sampling.sampled s ≡ Some x }
        ensures after { (s : HashState T H) → ⟦<Self as CanSample<T>>⟧.sampling.after s
            ≡ after_calls (function_of H.hash OUT_LEN H.filler) s (draw ∷ []) }
        ensures digest { (s : HashState T H) → ⟦<Self as CanFinalizeDigest>⟧.digest_of s
            ≡ (run_to_digest (function_of H.hash OUT_LEN H.filler) s []).after }
    {}

    /// After an observed value, and perhaps more, draw `k` gives output `OUT_LEN + k` of the chain of the pending
    /// values and the observed ones. The same holds after an empty array, for the chain of the pending values.
    ///
    /// A law: the body does nothing, and a caller cites the clauses.
    pub fn draws_have_places(&self)
        ensures values { (x : T) (xs : List T) (n : ℕ) →
            let h = function_of H.hash OUT_LEN H.filler in
            (run h self.now (map observe (x ∷ xs) ++ replicate n draw)).answers ≡ map
            (λ k. output_at (h self.now.hasher) (self.now.sponge.pending ++ x ∷ xs) (OUT_LEN + k))
            (range_with_len 0 n) }
        ensures array { (n : ℕ) → let h = function_of H.hash OUT_LEN H.filler in
            (run h self.now (observe_empty_array ∷ replicate n draw)).answers ≡ map
            (λ k. output_at (h self.now.hasher) self.now.sponge.pending (OUT_LEN + k))
            (range_with_len 0 n) }
    {
        let _ = &self.outputs_left;
    }
}
