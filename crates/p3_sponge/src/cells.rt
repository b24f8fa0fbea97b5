//! Cells of a sponge over a prime field, with a block written over the rate.
ghost use Rattle.std.specs.Prelude.{◌≡◌, ◌<◌, ◌≤◌, length, replicate, take};
ghost use Rattle.p3_field_core.specs.Residues.{plus};
ghost use Rattle.p3_sponge.specs.Cells.{counted_over, overwritten};

use p3_field_core::PrimeField64;

/// Returns the element 0. Not in the Rust crate.
pub fn zero<F: PrimeField64>() -> F
    ensures { result ≡ F.residues.of 0 }
{
    F::ZERO
}

// The element that is a number more.
fn plus_number<F: PrimeField64>(x: F, n: u64) -> F
    ensures { result ≡ plus F.residues x n }
{
    x + F::from_u64(n)
}

/// Adds a number to the cell after the rate. Not in the Rust crate.
///
/// Condition: there is such a cell.
pub fn count<F: PrimeField64>(cells: &mut [F], rate: usize, n: u64)
    requires { rate < length cells.old }
    ensures { cells.new ≡ counted_over F.residues rate cells.old (take rate cells.old) n }
{
    cells[rate] = plus_number(cells[rate], n);
}

/// Writes a block over the rate with zeros after it, and adds the length of the block to the cell after the rate. Not
/// in the Rust crate.
///
/// Conditions: the block is at most as long as the rate, and there is a cell after the rate.
// It is written out at each call: the length of a whole block is known there.
#[inline(always)]
pub fn overwrite<F: PrimeField64>(cells: &mut [F], block: &[F], rate: usize)
    requires fits { length block.now ≤ rate }
    requires capacity { rate < length cells.old }
    ensures { cells.new ≡ overwritten F.residues rate cells.old block.now }
{
    cells[..block.len()].copy_from_slice(block);
    fill_zeros(&mut cells[block.len()..rate]);
    count(cells, rate, block.len() as u64);
}

// Makes each cell zero.
fn fill_zeros<F: PrimeField64>(cells: &mut [F])
    ensures { cells.new ≡ replicate (length cells.old) (F.residues.of 0) }
{
    for i in 0..cells.len() {
        cells[i] = zero();
    }
}
