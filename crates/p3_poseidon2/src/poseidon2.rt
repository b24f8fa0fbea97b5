//! The permutation Poseidon2.
ghost use Rattle.std.specs.Prelude.{◌≡◌, ℕ, ◌<◌, ◌%◌, ◌^◌, map, ⊤};
ghost use Rattle.p3_goldilocks.specs.GoldilocksResidues.{residues};
ghost use Rattle.p3_poseidon2.specs.{Poseidon2.permuted, Layers.IsDegree};

use crate::cells::wide_elements_of;
use crate::layers::mix_external;
use crate::rounds::{play_externals, play_internals};
use crate::{unreduced_layers, unreduced_rounds};
use p3_field_core::PrimeCharacteristicRing;
use p3_goldilocks::Goldilocks;
use p3_lanes::PackedValue;
use std::alloc::AllocError;

/// The permutation Poseidon2 of `WIDTH` cells of the field `F`, with S-boxes of degree `DEGREE`. It has four external
/// rounds, `INTERNAL` internal ones, and four external ones. It holds its constants, and a copy has them too.
///
/// It permutes states of the parameter sets that have an alias here, such as
/// [`Poseidon2BabyBear16`](crate::Poseidon2BabyBear16). The constants are the alias' default ones or
/// [others](Poseidon2::new).
///
/// Intended to equal Plonky3's `Poseidon2`, whose layers are type parameters.
#[derive(Debug)]
pub struct Poseidon2<F, const WIDTH: usize, const DEGREE: u64, const INTERNAL: usize> {
    diagonal: [F; WIDTH],
    initial: [[F; WIDTH]; 4],
    internal: [F; INTERNAL],
    terminal: [[F; WIDTH]; 4],
    pub ghost some: { 0 < WIDTH },
    pub ghost blocks: { WIDTH % 4 ≡ 0 },
    pub ghost degree: { IsDegree DEGREE },
}

impl<F: Copy, const WIDTH: usize, const DEGREE: u64, const INTERNAL: usize> Clone
    for Poseidon2<F, WIDTH, DEGREE, INTERNAL> {
    ghost is_clone = { λ x y. y ≡ x };

    ghost is_infallible = { λ _. ⊤ };

    fn clone(&self) -> Result<Self, AllocError> {
        Ok(*self)
    }
}

impl<F: Copy, const WIDTH: usize, const DEGREE: u64, const INTERNAL: usize> Copy
    for Poseidon2<F, WIDTH, DEGREE, INTERNAL> {}

impl<
    F: PrimeCharacteristicRing,
    const WIDTH: usize,
    const DEGREE: u64,
    const INTERNAL: usize,
> Poseidon2<F, WIDTH, DEGREE, INTERNAL> {
    /// Returns the permutation with these constants: of the first four external rounds, the internal rounds and the
    /// last four external ones. The internal matrix is 1 everywhere, with `diagonal` added on the diagonal.
    ///
    /// The width is a positive multiple of 4, and the degree is 3 or 7. An inverse of the matrix is not required.
    pub fn new(
        diagonal: [F; WIDTH],
        initial: [[F; WIDTH]; 4],
        internal: [F; INTERNAL],
        terminal: [[F; WIDTH]; 4],
    ) -> Self
        requires some { 0 < WIDTH }
        requires blocks { WIDTH % 4 ≡ 0 }
        requires degree { IsDegree DEGREE }
        ensures diagonal { result.diagonal ≡ diagonal }
        ensures initial { result.initial ≡ initial }
        ensures internal { result.internal ≡ internal }
        ensures terminal { result.terminal ≡ terminal }
    {
        Poseidon2 {
            diagonal,
            initial,
            internal,
            terminal,
        }
    }

    // Permutes states side by side: each lane as the definition says.
    #[inline(always)]
    pub(crate) fn permute_cells<V: PackedValue<F>>(&self, state: &mut [V; WIDTH])
        ensures { (l : ℕ) → l < V.WIDTH → map (V.in_lane l) state.new
            ≡ permuted F.residues WIDTH DEGREE self.now.diagonal self.now.initial self.now.internal
            self.now.terminal (map (V.in_lane l) state.old) }
    {
        mix_external::<F, V, WIDTH>(state);
        play_externals::<F, V, WIDTH, DEGREE, 4>(&self.initial, state);
        play_internals::<F, V, WIDTH, DEGREE, INTERNAL>(&self.diagonal, &self.internal, state);
        play_externals::<F, V, WIDTH, DEGREE, 4>(&self.terminal, state);
    }
}

impl<const WIDTH: usize, const DEGREE: u64, const INTERNAL: usize> Poseidon2<
    Goldilocks,
    WIDTH,
    DEGREE,
    INTERNAL,
> {
    // Permutes numbers as the definition says of the elements that they stand for.
    #[inline(always)]
    fn permute_numbers(&self, state: &mut [u64; WIDTH])
        requires { WIDTH < 2 ^ 16 }
        ensures { map residues.of state.new ≡ permuted residues WIDTH DEGREE self.now.diagonal
            self.now.initial self.now.internal self.now.terminal (map residues.of state.old) }
    {
        unreduced_layers::mix_external::<WIDTH>(&self.initial[0], state);
        unreduced_rounds::play_externals::<WIDTH, DEGREE>(&self.initial, state);
        unreduced_rounds::play_internals::<WIDTH, DEGREE, INTERNAL>(
            &self.diagonal,
            &self.internal,
            state,
        );
        unreduced_layers::add_constants::<WIDTH>(&self.terminal[0], state);
        unreduced_rounds::play_externals::<WIDTH, DEGREE>(&self.terminal, state);
    }

    // Permutes a state as the definition says.
    #[inline(always)]
    pub(crate) fn permute_unreduced(&self, state: &mut [Goldilocks; WIDTH])
        requires { WIDTH < 2 ^ 16 }
        ensures { state.new ≡ permuted residues WIDTH DEGREE self.now.diagonal self.now.initial
            self.now.internal self.now.terminal state.old }
    {
        let mut numbers = unreduced_rounds::numbers_of::<WIDTH>(state);
        self.permute_numbers(&mut numbers);
        *state = wide_elements_of::<Goldilocks, WIDTH>(&numbers);
    }
}
