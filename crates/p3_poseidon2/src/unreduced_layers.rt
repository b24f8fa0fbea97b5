//! The layers of a round over Goldilocks, on numbers that need not be below the order. Sums are made in 128 bits, so that each
//! cell is brought back to 64 bits once a layer, and not after each sum.
ghost use Rattle.std.specs.Prelude.{◌≡◌, ℕ, ◌<◌, ◌+◌, ◌*◌, ◌/◌, ◌%◌, ◌^◌, map, slice_set};
ghost use Rattle.p3_field_core.specs.Residues.{sum_of, product_of};
ghost use Rattle.p3_goldilocks.specs.GoldilocksResidues.{residues};
ghost use Rattle.p3_poseidon2.specs.Poseidon2.{cell, times, m_e, m_i, sum_below};
ghost use Rattle.p3_poseidon2.specs.Begun.{with_constants, powered};
ghost use Rattle.p3_poseidon2.specs.Layers.{number_at, column, IsDegree};

use crate::cells::element_at;
use crate::unreduced::{folded, folded_sum, plus, power};
use p3_field_core::PrimeField64;
use p3_goldilocks::Goldilocks;

// The number at a place.
#[inline(always)]
pub(crate) fn number_in<const WIDTH: usize>(state: &[u64; WIDTH], place: usize) -> u64
    requires { place < WIDTH }
    ensures { residues.of result ≡ cell residues (map residues.of state.now) place }
{
    state[place]
}

// The numbers with one replaced.
#[inline(always)]
pub(crate) fn put_number<const WIDTH: usize>(state: &mut [u64; WIDTH], place: usize, value: u64)
    requires { place < WIDTH }
    ensures { map residues.of state.new
        ≡ slice_set (map residues.of state.old) place (residues.of value) }
{
    state[place] = value;
}

// A constant added to each cell.
#[inline(always)]
pub(crate) fn add_constants<const WIDTH: usize>(
    constants: &[Goldilocks; WIDTH],
    state: &mut [u64; WIDTH],
)
    ensures { map residues.of state.new
        ≡ with_constants residues WIDTH constants.now (map residues.of state.old) }
{
    for i in 0..WIDTH {
        let constant = element_at::<Goldilocks, WIDTH>(constants, i);
        let own = number_in::<WIDTH>(state, i);
        let sum = plus(own, constant);
        put_number::<WIDTH>(state, i, sum);
    }
}

// The S-boxes of an external round, of cells that have its constants.
#[inline(always)]
pub(crate) fn put_powers<const WIDTH: usize, const DEGREE: u64>(state: &mut [u64; WIDTH])
    requires { IsDegree DEGREE }
    ensures { map residues.of state.new ≡ powered residues WIDTH DEGREE (map residues.of state.old) }
{
    for i in 0..WIDTH {
        let own = number_in::<WIDTH>(state, i);
        let power = power::<DEGREE>(own);
        put_number::<WIDTH>(state, i, power);
    }
}

// M_4 times four sums.
#[inline(always)]
fn mixed_four(a: u128, b: u128, c: u128, d: u128) -> (u128, u128, u128, u128)
    requires first { a < 2 ^ 81 }
    requires second { b < 2 ^ 81 }
    requires third { c < 2 ^ 81 }
    requires fourth { d < 2 ^ 81 }
    ensures first { result.0 ≡ 2 * a + 3 * b + 1 * c + 1 * d }
    ensures second { result.1 ≡ 1 * a + 2 * b + 3 * c + 1 * d }
    ensures third { result.2 ≡ 1 * a + 1 * b + 2 * c + 3 * d }
    ensures fourth { result.3 ≡ 3 * a + 1 * b + 1 * c + 2 * d }
{
    let left = a + b;
    let right = c + d;
    let total = left + right;
    let total_b = total + b;
    let total_d = total + d;
    (
        total_b + left,
        total_b + (c + c),
        total_d + right,
        total_d + (a + a),
    )
}

// The sums of the four columns of the blocks of four.
#[inline(always)]
fn column_sums<const WIDTH: usize>(state: &[u64; WIDTH]) -> (u128, u128, u128, u128)
    requires { WIDTH < 2 ^ 16 }
    ensures first { (residues.of result.0 ≡ residues.of
        (column (number_at residues (map residues.of state.now)) 0 (WIDTH / 4))) × (result.0 < 2 ^ 80) }
    ensures second { (residues.of result.1 ≡ residues.of
        (column (number_at residues (map residues.of state.now)) 1 (WIDTH / 4))) × (result.1 < 2 ^ 80) }
    ensures third { (residues.of result.2 ≡ residues.of
        (column (number_at residues (map residues.of state.now)) 2 (WIDTH / 4))) × (result.2 < 2 ^ 80) }
    ensures fourth { (residues.of result.3 ≡ residues.of
        (column (number_at residues (map residues.of state.now)) 3 (WIDTH / 4))) × (result.3 < 2 ^ 80) }
{
    let mut first: u128 = 0;
    let mut second: u128 = 0;
    let mut third: u128 = 0;
    let mut fourth: u128 = 0;
    for block in 0..WIDTH / 4 {
        let place = 4 * block;
        let a = number_in::<WIDTH>(state, place);
        let b = number_in::<WIDTH>(state, place + 1);
        let c = number_in::<WIDTH>(state, place + 2);
        let d = number_in::<WIDTH>(state, place + 3);
        first = first + u128::from(a);
        second = second + u128::from(b);
        third = third + u128::from(c);
        fourth = fourth + u128::from(d);
    }
    (first, second, third, fourth)
}

// A sum with a constant added.
#[inline(always)]
fn folded_with(sum: u128, constant: Goldilocks) -> u64
    requires { sum < 2 ^ 90 }
    ensures { residues.of result ≡ sum_of residues (residues.of sum) constant }
{
    folded_sum(sum + u128::from(constant.as_canonical_u64()))
}

// M_E times the cells, with the constants of the next round: M_4 times each block with the sum of all blocks added. What
// the constants add is brought back to 64 bits with the rest.
#[inline(always)]
pub(crate) fn mix_external<const WIDTH: usize>(next: &[Goldilocks; WIDTH], state: &mut [u64; WIDTH])
    requires blocks { WIDTH % 4 ≡ 0 }
    requires small { WIDTH < 2 ^ 16 }
    ensures { map residues.of state.new ≡ with_constants residues WIDTH next.now
        (times residues WIDTH m_e (map residues.of state.old)) }
{
    let (first, second, third, fourth) = column_sums::<WIDTH>(state);
    for block in 0..WIDTH / 4 {
        let place = 4 * block;
        let a = number_in::<WIDTH>(state, place);
        let b = number_in::<WIDTH>(state, place + 1);
        let c = number_in::<WIDTH>(state, place + 2);
        let d = number_in::<WIDTH>(state, place + 3);
        let sum_a = u128::from(a) + first;
        let sum_b = u128::from(b) + second;
        let sum_c = u128::from(c) + third;
        let sum_d = u128::from(d) + fourth;
        let (mixed_a, mixed_b, mixed_c, mixed_d) = mixed_four(sum_a, sum_b, sum_c, sum_d);
        let next_a = element_at::<Goldilocks, WIDTH>(next, place);
        let new_a = folded_with(mixed_a, next_a);
        let next_b = element_at::<Goldilocks, WIDTH>(next, place + 1);
        let new_b = folded_with(mixed_b, next_b);
        let next_c = element_at::<Goldilocks, WIDTH>(next, place + 2);
        let new_c = folded_with(mixed_c, next_c);
        let next_d = element_at::<Goldilocks, WIDTH>(next, place + 3);
        let new_d = folded_with(mixed_d, next_d);
        put_number::<WIDTH>(state, place, new_a);
        put_number::<WIDTH>(state, place + 1, new_b);
        put_number::<WIDTH>(state, place + 2, new_c);
        put_number::<WIDTH>(state, place + 3, new_d);
    }
}

// The sum of the cells. An internal round has the first one last, so that is added last.
#[inline(always)]
fn total_of<const WIDTH: usize>(state: &[u64; WIDTH]) -> u128
    requires some { 0 < WIDTH }
    requires few { WIDTH < 2 ^ 16 }
    ensures sum { residues.of result ≡ residues.of
        (sum_below WIDTH (number_at residues (map residues.of state.now))) }
    ensures small { result < 2 ^ 80 }
{
    let mut others: u128 = 0;
    for i in 0..WIDTH - 1 {
        let summand = number_in::<WIDTH>(state, 1 + i);
        others = others + u128::from(summand);
    }
    let first = number_in::<WIDTH>(state, 0);
    others + u128::from(first)
}

// A product with a sum added. The entry is below the order, so both together have no more than 128 bits.
#[inline(always)]
fn product_and(own: u64, entry: Goldilocks, total: u128) -> u64
    requires { total < 2 ^ 80 }
    ensures { residues.of result ≡ sum_of residues (residues.of total) (product_of residues (residues.of own) entry) }
{
    let more = u128::from(own) * u128::from(entry.as_canonical_u64());
    folded(more + total)
}

// M_I times the cells.
#[inline(always)]
pub(crate) fn mix_internal<const WIDTH: usize>(
    diagonal: &[Goldilocks; WIDTH],
    state: &mut [u64; WIDTH],
)
    requires some { 0 < WIDTH }
    requires few { WIDTH < 2 ^ 16 }
    ensures { map residues.of state.new
        ≡ times residues WIDTH (m_i (number_at residues diagonal.now)) (map residues.of state.old) }
{
    let total = total_of::<WIDTH>(state);
    for i in 0..WIDTH {
        let entry = element_at::<Goldilocks, WIDTH>(diagonal, i);
        let own = number_in::<WIDTH>(state, i);
        let sum = product_and(own, entry, total);
        put_number::<WIDTH>(state, i, sum);
    }
}
