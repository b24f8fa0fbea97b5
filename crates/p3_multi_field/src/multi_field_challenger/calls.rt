//! Each method as a list of calls in the call-by-call definition that `follows_segments` speaks of.
ghost use Rattle.std.specs.Prelude.{◌≡◌, ◌^◌, ◌%◌, ◌==◌, ℕ, suc, Bool, List, [], ◌∷◌, Some, map, replicate};
ghost use Rattle.std.specs.List.{flat_map};
ghost use Rattle.p3_symmetric.specs.Digests.{values_of};
ghost use Rattle.p3_challenger_core.specs.{Sponge.after_steps, Segments.{observe, draw}};
ghost use Rattle.p3_grinding.specs.Checks.{bits_check};
ghost use Rattle.p3_multi_field.specs.{MultiFieldCalls.{scalar, digest}, MultiFieldState.DrawsHavePlaces};
ghost use Rattle.p3_multi_field.specs.MultiFieldState.{MultiFieldState, run, run_to_digest, after_calls, ActsAsCalls};

use crate::{HasFieldPair, MultiField32Challenger};
use p3_challenger_core::{CanFinalizeDigest, CanObserve, CanSample, CanSampleBits, Sponge};
use p3_field_bridge::FieldBridge;
use p3_field_core::{BasedVectorSpace, PrimeField32, PrimeField64};
use p3_grinding::BeforeWitness;
use p3_symmetric::{CryptographicPermutation, Hash, MerkleCap};

impl<
    F: PrimeField32,
    PF: PrimeField64 + FieldBridge<F, PF>,
    P: CryptographicPermutation<[PF; WIDTH]>,
    const WIDTH: usize,
    const RATE: usize,
> MultiField32Challenger<F, PF, P, WIDTH, RATE> {
    /// Each symbol of an observation is observed, in order. Each scalar of an array and of lists in a list is a symbol.
    /// So is a digest, and each root of a cap as a digest.
    ///
    /// A law: the body is empty, and a caller cites the clauses.
    pub fn observes_are_calls<const N: usize>()
        ensures value { ActsAsCalls ⟦<PF as HasFieldPair<F>>⟧.field_pair P.permutation RATE
            ⟦<Self as CanObserve<F>>⟧.observation.observed (λ x. observe (scalar x) ∷ []) }
        ensures array { ActsAsCalls ⟦<PF as HasFieldPair<F>>⟧.field_pair P.permutation RATE
            ⟦<Self as CanObserve<[F; N]>>⟧.observation.observed
            (λ values. map observe (map scalar values)) }
        ensures lists { ActsAsCalls ⟦<PF as HasFieldPair<F>>⟧.field_pair P.permutation RATE
            ⟦<Self as CanObserve<Vec<Vec<F>>>>⟧.observation.observed (λ lists.
            map observe (flat_map (λ list. map scalar list.items) lists.items)) }
        ensures digest { ActsAsCalls ⟦<PF as HasFieldPair<F>>⟧.field_pair P.permutation RATE
            ⟦<Self as CanObserve<Hash<F, PF, N>>>⟧.observation.observed
            (λ words. observe (digest (values_of words)) ∷ []) }
        ensures cap { ActsAsCalls ⟦<PF as HasFieldPair<F>>⟧.field_pair P.permutation RATE
            ⟦<Self as CanObserve<MerkleCap<F, [PF; N]>>>⟧.observation.observed
            (λ cap. map observe (map digest cap)) }
    {}

    /// Symbols fed by values and steps of a transcript are observed one after another. Smallest draws in a row are as
    /// many draws.
    ///
    /// A law: the body is empty, and a caller cites the clauses.
    pub fn symbols_are_calls()
        ensures fed { ActsAsCalls ⟦<PF as HasFieldPair<F>>⟧.field_pair P.permutation RATE
            ⟦<Self as Sponge>⟧.fed (λ symbols. map observe symbols) }
        ensures drawn { (n : ℕ) (c : MultiFieldState F PF P) →
            after_steps ⟦<Self as Sponge>⟧.next n c ≡ after_calls
            ⟦<PF as HasFieldPair<F>>⟧.field_pair P.permutation RATE c (replicate n draw) }
    {}

    /// An element of a space is one draw for each coefficient, coefficient 0 first. A number of bits is the low bits of
    /// one draw. The digest is that of the calls before it.
    ///
    /// A law: the body is empty, and a caller cites the clauses.
    pub fn draws_are_calls<A: BasedVectorSpace<F>>()
        ensures element { (c : MultiFieldState F PF P) → ⟦<Self as CanSample<A>>⟧.sampling.sampled c
            ≡ Some (A.element (run ⟦<PF as HasFieldPair<F>>⟧.field_pair P.permutation RATE c
            (replicate A.DIMENSION draw)).answers) }
        ensures after { (c : MultiFieldState F PF P) → ⟦<Self as CanSample<A>>⟧.sampling.after c
            ≡ after_calls ⟦<PF as HasFieldPair<F>>⟧.field_pair P.permutation RATE c
            (replicate A.DIMENSION draw) }
        ensures bits { (bits : ℕ) (c : MultiFieldState F PF P) (x : F) →
            (run ⟦<PF as HasFieldPair<F>>⟧.field_pair P.permutation RATE c (draw ∷ [])).answers
            ≡ x ∷ [] → (⟦<Self as CanSampleBits<usize>>⟧.bits_sampling bits).sampled c
            ≡ Some (F.residues.number x % 2 ^ bits) }
        ensures after_bits { (bits : ℕ) (c : MultiFieldState F PF P) →
            (⟦<Self as CanSampleBits<usize>>⟧.bits_sampling bits).after c
            ≡ after_calls ⟦<PF as HasFieldPair<F>>⟧.field_pair P.permutation RATE c (draw ∷ []) }
        ensures digest { (c : MultiFieldState F PF P) → ⟦<Self as CanFinalizeDigest>⟧.digest_of c
            ≡ (run_to_digest ⟦<PF as HasFieldPair<F>>⟧.field_pair P.permutation RATE c []).after }
    {}

    /// After at least one observed scalar, draw `k` gives output `k` of the cells once all scalars are absorbed,
    /// whatever was left or pending before. The same holds after a digest with at least one word.
    ///
    /// A law: the body does nothing, and a caller cites the clauses.
    pub fn draws_have_places(&self)
        ensures scalars { (x : F) (xs : List F) (n : ℕ) →
            DrawsHavePlaces ⟦<PF as HasFieldPair<F>>⟧.field_pair P.permutation RATE self.now
            (map scalar (x ∷ xs)) n }
        ensures digest { (word : PF) (words : List PF) (n : ℕ) →
            DrawsHavePlaces ⟦<PF as HasFieldPair<F>>⟧.field_pair P.permutation RATE self.now
            (digest (word ∷ words) ∷ []) n }
    {
        let _ = &self.outputs_left;
    }

    /// A check of a witness by at least one bit observes it and draws once, and passes where the low bits are 0. A
    /// check by 0 bits passes and does nothing.
    ///
    /// A law: the body is empty, and a caller cites the clauses.
    pub fn checks_are_calls()
        ensures none { (witness : F) (c : MultiFieldState F PF P) → (bits_check
            ⟦<Self as CanObserve<F>>⟧.observation ⟦<Self as BeforeWitness>⟧.before_witness
            ⟦<Self as CanSampleBits<usize>>⟧.bits_sampling 0 witness).sampled c ≡ Some Bool.true }
        ensures sampled { (more : ℕ) (witness x : F) (c : MultiFieldState F PF P) →
            (run ⟦<PF as HasFieldPair<F>>⟧.field_pair P.permutation RATE c
            (observe (scalar witness) ∷ draw ∷ [])).answers ≡ x ∷ [] →
            (bits_check ⟦<Self as CanObserve<F>>⟧.observation
            ⟦<Self as BeforeWitness>⟧.before_witness ⟦<Self as CanSampleBits<usize>>⟧.bits_sampling
            (suc more) witness).sampled c ≡ Some (F.residues.number x % 2 ^ suc more == 0) }
        ensures after { (more : ℕ) (witness : F) (c : MultiFieldState F PF P) → (bits_check
            ⟦<Self as CanObserve<F>>⟧.observation ⟦<Self as BeforeWitness>⟧.before_witness
            ⟦<Self as CanSampleBits<usize>>⟧.bits_sampling (suc more) witness).after c
            ≡ after_calls ⟦<PF as HasFieldPair<F>>⟧.field_pair P.permutation RATE c
            (observe (scalar witness) ∷ draw ∷ []) }
    {}
}
