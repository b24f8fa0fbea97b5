//! Each method as a list of calls in the call-by-call definition that `follows_segments` speaks of.
ghost use Rattle.std.specs.Prelude.{◌≡◌, ◌<◌, ◌≤◌, ◌^◌, ◌%◌, ◌==◌, ◌++◌, ℕ, suc, Bool, List, [], ◌∷◌, Some, map};
ghost use Rattle.std.specs.{Prelude.replicate, List.{flat_map, range_with_len}};
ghost use Rattle.p3_symmetric.specs.Digests.{values_of};
ghost use Rattle.p3_challenger_core.specs.{Sponge.after_steps, Segments.{observe, draw}};
ghost use Rattle.p3_grinding.specs.{Checks.bits_check, UniformDraws.no_bits};
ghost use Rattle.p3_duplex.specs.{DuplexSegments.{absorbed_cells, output_at}, DuplexUniform.{SameDraw, single, halved}};
ghost use Rattle.p3_duplex.specs.DuplexState.{DuplexState, run, run_to_digest, after_calls, ObservesEach};

use crate::DuplexChallenger;
use p3_challenger_core::{CanFinalizeDigest, CanObserve, CanSample, CanSampleBits, Sponge};
use p3_field_core::{BasedVectorSpace, PrimeField64, UniformSamplingField};
use p3_grinding::{BeforeWitness, CanSampleUniformBits};
use p3_symmetric::{CryptographicPermutation, Hash, MerkleCap};

impl<
    F: PrimeField64,
    P: CryptographicPermutation<[F; WIDTH]>,
    const WIDTH: usize,
    const RATE: usize,
> DuplexChallenger<F, P, WIDTH, RATE> {
    /// Each value of an observation is observed, in order. The values are those of an array, of a digest, of the roots
    /// of a cap, or of lists in a list.
    ///
    /// A law: the body is empty, and a caller cites the clauses.
    pub fn observes_are_calls<'a, M, const N: usize>()
        ensures value { ObservesEach F.residues P.permutation RATE
            ⟦<Self as CanObserve<F>>⟧.observation (λ x. x ∷ []) }
        ensures array { ObservesEach F.residues P.permutation RATE
            ⟦<Self as CanObserve<[F; N]>>⟧.observation (λ xs. xs) }
        ensures digest { ObservesEach F.residues P.permutation RATE
            ⟦<Self as CanObserve<Hash<M, F, N>>>⟧.observation values_of }
        ensures cap { ObservesEach F.residues P.permutation RATE
            ⟦<Self as CanObserve<MerkleCap<M, [F; N]>>>⟧.observation (flat_map (λ root. root)) }
        ensures lists { ObservesEach F.residues P.permutation RATE
            ⟦<Self as CanObserve<Vec<Vec<F>>>>⟧.observation
            (λ lists. flat_map (λ list. list.items) lists.items) }
    {}

    /// Symbols fed by values and steps of a transcript are observed one after another. Smallest draws in a row are as
    /// many draws.
    ///
    /// A law: the body is empty, and a caller cites the clauses.
    pub fn symbols_are_calls()
        ensures fed { (c : DuplexState F P) (symbols : List F) → ⟦<Self as Sponge>⟧.fed c symbols
            ≡ after_calls F.residues P.permutation RATE c (map observe symbols) }
        ensures drawn { (n : ℕ) (c : DuplexState F P) → after_steps ⟦<Self as Sponge>⟧.next n c
            ≡ after_calls F.residues P.permutation RATE c (replicate n draw) }
    {}

    /// An element of a space is one draw for each coefficient, coefficient 0 first. A number of bits is the low bits of
    /// one draw. The digest is that of the calls before it.
    ///
    /// A law: the body is empty, and a caller cites the clauses.
    pub fn draws_are_calls<A: BasedVectorSpace<F>>()
        ensures element { (c : DuplexState F P) → ⟦<Self as CanSample<A>>⟧.sampling.sampled c ≡ Some
            (A.element (run F.residues P.permutation RATE c (replicate A.DIMENSION draw)).answers) }
        ensures after { (c : DuplexState F P) → ⟦<Self as CanSample<A>>⟧.sampling.after c
            ≡ after_calls F.residues P.permutation RATE c (replicate A.DIMENSION draw) }
        ensures bits { (bits : ℕ) (c : DuplexState F P) (x : F) →
            (run F.residues P.permutation RATE c (draw ∷ [])).answers ≡ x ∷ [] →
            (⟦<Self as CanSampleBits<usize>>⟧.bits_sampling bits).sampled c
            ≡ Some (F.residues.number x % 2 ^ bits) }
        ensures after_bits { (bits : ℕ) (c : DuplexState F P) →
            (⟦<Self as CanSampleBits<usize>>⟧.bits_sampling bits).after c
            ≡ after_calls F.residues P.permutation RATE c (draw ∷ []) }
        ensures digest { (c : DuplexState F P) → ⟦<Self as CanFinalizeDigest>⟧.digest_of c
            ≡ (run_to_digest F.residues P.permutation RATE c []).after }
    {}

    /// After an observed value, and perhaps more, draw `k` gives output `k` of the cells once all values are absorbed.
    /// Outputs left and values pending before do not matter.
    ///
    /// A law: the body does nothing, and a caller cites the clause.
    pub fn draws_have_places(&self)
        ensures { (x : F) (xs : List F) (n : ℕ) →
            let permute = P.permutation self.now.permutation in
            let cells = absorbed_cells F.residues permute RATE self.now.sponge (x ∷ xs) in
            let calls = map observe (x ∷ xs) ++ replicate n draw in
            (run F.residues P.permutation RATE self.now calls).answers
            ≡ map (output_at F.residues permute RATE cells) (range_with_len 0 n) }
    {
        let _ = &self.outputs_left;
    }

    /// A check of a witness by at least one bit observes it and draws once, and passes where the low bits are 0. A
    /// check by 0 bits does nothing, and passes.
    ///
    /// A law: the body is empty, and a caller cites the clauses.
    pub fn checks_are_calls()
        ensures none { (witness : F) (c : DuplexState F P) → (bits_check
            ⟦<Self as CanObserve<F>>⟧.observation ⟦<Self as BeforeWitness>⟧.before_witness
            ⟦<Self as CanSampleBits<usize>>⟧.bits_sampling 0 witness).sampled c ≡ Some Bool.true }
        ensures sampled { (more : ℕ) (witness x : F) (c : DuplexState F P) →
            (run F.residues P.permutation RATE c (observe witness ∷ draw ∷ [])).answers ≡ x ∷ [] →
            (bits_check ⟦<Self as CanObserve<F>>⟧.observation
            ⟦<Self as BeforeWitness>⟧.before_witness ⟦<Self as CanSampleBits<usize>>⟧.bits_sampling
            (suc more) witness).sampled c ≡ Some (F.residues.number x % 2 ^ suc more == 0) }
        ensures after { (more : ℕ) (witness : F) (c : DuplexState F P) → (bits_check
            ⟦<Self as CanObserve<F>>⟧.observation ⟦<Self as BeforeWitness>⟧.before_witness
            ⟦<Self as CanSampleBits<usize>>⟧.bits_sampling (suc more) witness).after c
            ≡ after_calls F.residues P.permutation RATE c (observe witness ∷ draw ∷ []) }
    {}
}

impl<
    F: UniformSamplingField,
    P: CryptographicPermutation<[F; WIDTH]>,
    const WIDTH: usize,
    const RATE: usize,
> DuplexChallenger<F, P, WIDTH, RATE> {
    /// A draw of 0 uniform bits draws nothing. A draw takes one element if that suffices for the bits. A draw of more
    /// bits is two draws, low half first, each with a bound and a draw limit of its own.
    ///
    /// A law: the body is empty, and a caller cites the clauses.
    pub fn uniform_draws_have_parts()
        ensures none { (resample : Bool) →
            SameDraw (⟦<Self as CanSampleUniformBits<F>>⟧.uniform resample 0) no_bits }
        ensures one { (resample : Bool) (bits : ℕ) → 0 < bits → bits ≤ F.MAX_SINGLE_SAMPLE_BITS →
            SameDraw (⟦<Self as CanSampleUniformBits<F>>⟧.uniform resample bits)
            (single F.residues P.permutation RATE resample bits) }
        ensures halves { (resample : Bool) (bits : ℕ) → F.MAX_SINGLE_SAMPLE_BITS < bits →
            SameDraw (⟦<Self as CanSampleUniformBits<F>>⟧.uniform resample bits)
            (halved F.residues P.permutation RATE resample bits) }
    {}
}
