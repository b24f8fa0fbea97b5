//! Cells of a larger field, into which scalars are packed and from which digits are drawn.
ghost use Rattle.std.specs.Prelude.{◌≡◌, ◌/◌, ◌<◌, length};
ghost use Rattle.p3_sponge.specs.SpongeCalls.{permutation_input};
ghost use Rattle.p3_multi_field.specs.MultiFieldCalls.{packed_cells, scalars_over, digit_in_row, scalars_rule};

use crate::HasFieldPair;
use p3_field_bridge::FieldBridge;
use p3_field_core::{PrimeField32, PrimeField64};
use p3_sponge::count;
use p3_symmetric::CryptographicPermutation;

// The digit at a place of the row that cells give.
pub(super) fn digit_at<F: PrimeField32, PF: PrimeField64 + FieldBridge<F, PF>>(
    cells: &[PF],
    place: usize,
) -> F
    requires some { 0 < PF.SQUEEZE_COUNT }
    requires inside { place / PF.SQUEEZE_COUNT < length cells.now }
    ensures { result ≡ digit_in_row ⟦<PF as HasFieldPair<F>>⟧.field_pair cells.now place }
{
    PF::digit(cells[place / PF::SQUEEZE_COUNT], place % PF::SQUEEZE_COUNT)
}

// Packs scalars into cells, as many into each as it can: the first ones into the first cell. Where none are left a
// cell is zero.
fn pack_all<F: PrimeField32, PF: PrimeField64 + FieldBridge<F, PF>>(cells: &mut [PF], scalars: &[F])
    ensures { cells.new
        ≡ packed_cells ⟦<PF as HasFieldPair<F>>⟧.field_pair (length cells.old) scalars.now }
{
    let mut rest = scalars;
    for i in 0..cells.len() {
        let (packed, after) = rest.split_at(PF::ABSORB_COUNT.min(rest.len()));
        cells[i] = PF::pack(packed);
        rest = after;
    }
}

// Packs scalars over the rate, and adds their number to the cell after it.
pub(super) fn pack_over<F: PrimeField32, PF: PrimeField64 + FieldBridge<F, PF>>(
    cells: &mut [PF],
    scalars: &[F],
    rate: usize,
)
    requires capacity { rate < length cells.old }
    ensures { cells.new
        ≡ scalars_over ⟦<PF as HasFieldPair<F>>⟧.field_pair rate cells.old scalars.now }
{
    pack_all::<F, PF>(&mut cells[..rate], scalars);
    count(cells, rate, scalars.len() as u64);
}

// Absorbs scalars; without one it only permutes.
pub(super) fn absorb<
    F: PrimeField32,
    PF: PrimeField64 + FieldBridge<F, PF>,
    P: CryptographicPermutation<[PF; WIDTH]>,
    const WIDTH: usize,
    const RATE: usize,
>(cells: &mut [PF; WIDTH], scalars: &[F], permutation: &P)
    requires capacity { RATE < WIDTH }
    ensures { let permute = P.permutation permutation.now in
        let rule = scalars_rule ⟦<PF as HasFieldPair<F>>⟧.field_pair permute RATE in
        cells.new ≡ permute (permutation_input rule cells.old scalars.now) }
{
    if !scalars.is_empty() {
        pack_over::<F, PF>(&mut cells[..], scalars, RATE);
    }
    permutation.permute_mut(cells);
}
