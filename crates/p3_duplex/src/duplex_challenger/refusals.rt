//! Laws on the calls that are never refused.
ghost use Rattle.std.specs.Prelude.{ℕ, Bool, false};
ghost use Rattle.p3_challenger_core.specs.Sampling.{RefusesDraw};
ghost use Rattle.p3_grinding.specs.Checks.{bits_check, uniform_check};
ghost use Rattle.p3_sponge.specs.CallPromises.{IsNeverRefused, IsUnrefusedDraw};

use crate::DuplexChallenger;
use p3_challenger_core::{CanObserve, CanSample, CanSampleBits};
use p3_field_core::{BasedVectorSpace, PrimeField64, UniformSamplingField};
use p3_grinding::{BeforeWitness, CanSampleUniformBits};
use p3_symmetric::{CryptographicPermutation, Hash, MerkleCap};

impl<
    F: PrimeField64,
    P: CryptographicPermutation<[F; WIDTH]>,
    const WIDTH: usize,
    const RATE: usize,
> DuplexChallenger<F, P, WIDTH, RATE> {
    /// Observations of single values are never refused: no list of them leaves any challenger with an error.
    ///
    /// A law: the body is empty, and a caller cites the clause.
    pub fn observes_are_not_refused()
        ensures { IsNeverRefused ⟦<Self as CanObserve<F>>⟧.observation }
    {}

    /// Draws of elements of a vector space are never refused: no number of them leaves any challenger with an error.
    ///
    /// A law: the body is empty, and a caller cites the clause.
    pub fn draws_are_not_refused<A: BasedVectorSpace<F>>()
        ensures { IsUnrefusedDraw ⟦<Self as CanSample<A>>⟧.sampling }
    {}

    /// Draws of bits are never refused.
    ///
    /// A law: the body is empty, and a caller cites the clause.
    pub fn bit_draws_are_not_refused()
        ensures { (bits : ℕ) →
            IsUnrefusedDraw (⟦<Self as CanSampleBits<usize>>⟧.bits_sampling bits) }
    {}

    /// Observations of arrays, digests, caps and lists of lists are never refused: no list of them leaves any
    /// challenger with an error. By the law `slice_leaves` of [`CanObserve`], a slice of them leaves what such a list
    /// leaves.
    ///
    /// A law: the body is empty, and a caller cites the clauses.
    pub fn observes_of_lists_are_not_refused<M, const N: usize>()
        ensures arrays { IsNeverRefused ⟦<Self as CanObserve<[F; N]>>⟧.observation }
        ensures digests { IsNeverRefused ⟦<Self as CanObserve<Hash<M, F, N>>>⟧.observation }
        ensures caps { IsNeverRefused ⟦<Self as CanObserve<MerkleCap<M, [F; N]>>>⟧.observation }
        ensures lists { IsNeverRefused ⟦<Self as CanObserve<Vec<Vec<F>>>>⟧.observation }
    {}

    /// Checks of witnesses are never refused, for any number of bits: they take no memory, and meet no limit.
    ///
    /// A law: the body is empty, and a caller cites the clause.
    pub fn checks_are_not_refused()
        ensures { (bits : ℕ) (witness : F) (e : _) (c d : _) → ¬ (RefusesDraw (bits_check
            ⟦<Self as CanObserve<F>>⟧.observation ⟦<Self as BeforeWitness>⟧.before_witness
            ⟦<Self as CanSampleBits<usize>>⟧.bits_sampling bits witness) e c d) }
    {}
}

impl<
    F: UniformSamplingField,
    P: CryptographicPermutation<[F; WIDTH]>,
    const WIDTH: usize,
    const RATE: usize,
> DuplexChallenger<F, P, WIDTH, RATE> {
    /// Checks of witnesses by uniform bits take no memory, and those that do not replace a rejected value are never
    /// refused.
    ///
    /// A law: the body is empty, and a caller cites the clauses.
    pub fn uniform_checks_take_no_memory()
        ensures memory { (resample : Bool) (bits : ℕ) (witness : F) (c d : _) → ¬ ((uniform_check
            ⟦<Self as CanObserve<F>>⟧.observation ⟦<Self as BeforeWitness>⟧.before_witness
            ⟦<Self as CanSampleUniformBits<F>>⟧.uniform resample bits witness).may_leave c d) }
        ensures unrefused { (bits : ℕ) (witness : F) (e : _) (c d : _) →
            ¬ (RefusesDraw (uniform_check ⟦<Self as CanObserve<F>>⟧.observation
            ⟦<Self as BeforeWitness>⟧.before_witness ⟦<Self as CanSampleUniformBits<F>>⟧.uniform
            false bits witness) e c d) }
    {}
}
