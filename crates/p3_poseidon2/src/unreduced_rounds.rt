//! Single rounds and the whole sequence of rounds over Goldilocks, on numbers that need not be below the order.
ghost use Rattle.std.specs.Prelude.{◌≡◌, ◌<◌, ◌%◌, ◌^◌, List, [], map, slice_index_or};
ghost use Rattle.p3_goldilocks.specs.GoldilocksResidues.{residues};
ghost use Rattle.p3_poseidon2.specs.Poseidon2.{times, m_e, external_rounds, internal_round, internal_rounds};
ghost use Rattle.p3_poseidon2.specs.Begun.{with_constants, powered};
ghost use Rattle.p3_poseidon2.specs.Layers.{IsDegree};

use crate::unreduced::{plus, power};
use crate::unreduced_layers::{mix_external, mix_internal, number_in, put_number, put_powers};
use p3_field_core::{PrimeCharacteristicRing, PrimeField64};
use p3_goldilocks::Goldilocks;

// An external round of cells that have its constants. They get those of the next round.
#[inline(always)]
fn play_external<const WIDTH: usize, const DEGREE: u64>(
    next: &[Goldilocks; WIDTH],
    state: &mut [u64; WIDTH],
)
    requires blocks { WIDTH % 4 ≡ 0 }
    requires few { WIDTH < 2 ^ 16 }
    requires degree { IsDegree DEGREE }
    ensures { map residues.of state.new ≡ with_constants residues WIDTH next.now
        (times residues WIDTH m_e (powered residues WIDTH DEGREE (map residues.of state.old))) }
{
    put_powers::<WIDTH, DEGREE>(state);
    mix_external::<WIDTH>(next, state);
}

// External rounds, one after another, of cells that have the constants of the first.
#[inline(always)]
pub(crate) fn play_externals<const WIDTH: usize, const DEGREE: u64>(
    rounds: &[[Goldilocks; WIDTH]; 4],
    state: &mut [u64; WIDTH],
)
    requires blocks { WIDTH % 4 ≡ 0 }
    requires few { WIDTH < 2 ^ 16 }
    requires degree { IsDegree DEGREE }
    ensures { (cells : List Goldilocks) →
        map residues.of state.old ≡ with_constants residues WIDTH (slice_index_or rounds.now 0 []) cells →
        map residues.of state.new ≡ external_rounds residues WIDTH DEGREE rounds.now cells }
{
    for i in 0..3 {
        play_external::<WIDTH, DEGREE>(&rounds[i + 1], state);
    }
    let none = [Goldilocks::ZERO; WIDTH];
    play_external::<WIDTH, DEGREE>(&none, state);
}

// An internal round.
#[inline(always)]
fn play_internal<const WIDTH: usize, const DEGREE: u64>(
    diagonal: &[Goldilocks; WIDTH],
    constant: Goldilocks,
    state: &mut [u64; WIDTH],
)
    requires some { 0 < WIDTH }
    requires few { WIDTH < 2 ^ 16 }
    requires degree { IsDegree DEGREE }
    ensures { map residues.of state.new
        ≡ internal_round residues WIDTH DEGREE diagonal.now constant (map residues.of state.old) }
{
    let first = number_in::<WIDTH>(state, 0);
    let sum = plus(first, constant);
    let power = power::<DEGREE>(sum);
    put_number::<WIDTH>(state, 0, power);
    mix_internal::<WIDTH>(diagonal, state);
}

// Internal rounds, one after another.
#[inline(always)]
pub(crate) fn play_internals<const WIDTH: usize, const DEGREE: u64, const ROUNDS: usize>(
    diagonal: &[Goldilocks; WIDTH],
    rounds: &[Goldilocks; ROUNDS],
    state: &mut [u64; WIDTH],
)
    requires some { 0 < WIDTH }
    requires few { WIDTH < 2 ^ 16 }
    requires degree { IsDegree DEGREE }
    ensures { map residues.of state.new
        ≡ internal_rounds residues WIDTH DEGREE diagonal.now rounds.now (map residues.of state.old) }
{
    for constant in rounds {
        play_internal::<WIDTH, DEGREE>(diagonal, *constant, state);
    }
}

// The numbers of elements.
#[inline(always)]
pub(crate) fn numbers_of<const WIDTH: usize>(elements: &[Goldilocks; WIDTH]) -> [u64; WIDTH]
    ensures { map residues.of result ≡ elements.now }
{
    let mut numbers = [0; WIDTH];
    for i in 0..WIDTH {
        let number = elements[i].as_canonical_u64();
        put_number::<WIDTH>(&mut numbers, i, number);
    }
    numbers
}
