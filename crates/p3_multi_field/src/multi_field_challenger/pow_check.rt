//! The search for a witness, whose checks all start from one prepared state: a candidate changes one digit of one cell.
ghost use Rattle.std.specs.Prelude.{◌≡◌, ◌<◌, ◌≤◌, ◌↔◌, MatchOption, IsOk, IsTrue, slice_set, length};
ghost use Rattle.p3_challenger_core.specs.Sampling.{most_bits_of};
ghost use Rattle.p3_grinding.specs.Checks.{FindsOrRefuses};
ghost use Rattle.p3_multi_field.specs.PreparedChecks.{PreparedFor, Accepts, IsLeastAccepted, NoneAccepted, check};
ghost use Rattle.p3_multi_field.specs.PreparedChecks.{with_candidate};

use super::packing::pack_over;
use crate::{HasFieldPair, MultiField32Challenger};
use p3_challenger_core::ChallengerError;
use p3_field_bridge::FieldBridge;
use p3_field_core::{PrimeField32, PrimeField64};
use p3_sponge::{write_after, zero};
use p3_symmetric::CryptographicPermutation;
use std::marker::Model;

// What the checks of all candidates start from: the rate packs what is pending, with one scalar more counted, the
// candidate. It is the last scalar of its cell. The fields are in kind and order those of the challenger: so where that
// has room, these have.
#[derive(Drop)]
struct PowCheck<
    F: PrimeField32,
    PF: PrimeField64 + FieldBridge<F, PF>,
    P,
    const WIDTH: usize,
    const RATE: usize,
> {
    cells: [PF; WIDTH],
    // The scalars before the candidate in its cell are the first `within`. The others are of no meaning.
    before: [F; 255],
    // The candidate's cell.
    place: usize,
    within: usize,
    permutation: P,
}

impl<
    F: PrimeField32,
    PF: PrimeField64 + FieldBridge<F, PF>,
    P,
    const WIDTH: usize,
    const RATE: usize,
> Model for PowCheck<F, PF, P, WIDTH, RATE> {
    ghost use Rattle.std.specs.Prelude.{take};
    ghost use Rattle.p3_multi_field.specs.PreparedChecks.{PreparedChecks, KeepsChecks};

    ghost Value = { PreparedChecks F PF P };

    ghost view = { λ s. record {
      cells = s.cells;
      place = s.place;
      before = take s.within s.before;
      permutation = s.permutation;
    } };

    ghost invariant = { λ s. KeepsChecks WIDTH RATE PF.SQUEEZE_COUNT s.within };
}

impl<
    F: PrimeField32,
    PF: PrimeField64 + FieldBridge<F, PF>,
    P: CryptographicPermutation<[PF; WIDTH]>,
    const WIDTH: usize,
    const RATE: usize,
> PowCheck<F, PF, P, WIDTH, RATE> {
    // Checks, with the cells as they are without a candidate, and the scalars before it in its cell.
    fn new(
        cells: [PF; WIDTH],
        place: usize,
        before: &[F],
        permutation: P,
    ) -> PowCheck<F, PF, P, WIDTH, RATE>
        requires rate { 0 < RATE }
        requires capacity { RATE < WIDTH }
        requires some_digits { 0 < PF.SQUEEZE_COUNT }
        requires few { length before.now < 255 }
        ensures { result ≡ record {
          cells = cells;
          place = place;
          before = before.now;
          permutation = permutation;
        } }
    {
        let mut scalars = [zero(); 255];
        write_after(&mut scalars[..], 0, before);
        PowCheck {
            cells,
            before: scalars,
            place,
            within: before.len(),
            permutation,
        }
    }

    // The least candidate that passes a check of `bits` bits, if one does. The cell of the candidate 0 packs what is
    // before it. From each candidate to the next the cell is more by the weight of a candidate's digit.
    //
    // The even candidates have one copy of the cells, the odd ones another. So a candidate's cells are written before
    // those of the candidate before it are permuted. A permutation that is called reads its cells from memory, and
    // would else wait for what was written just before.
    fn least(self, bits: usize) -> Option<F>
        requires { bits < 64 }
        ensures { let pair = ⟦<PF as HasFieldPair<F>>⟧.field_pair in
            MatchOption result (NoneAccepted pair P.permutation RATE self bits)
            (IsLeastAccepted pair P.permutation RATE self bits) }
    {
        let weight = PF::from_u64(1 << PF::RADIX_BITS).exp_u64(self.within as u64);
        let first = PF::pack(&self.before[..self.within]);
        let mut even = self.cells_with(first);
        let mut value = first + weight;
        let mut odd = self.cells_with(value);
        'pairs: for pair in 0..F::ORDER_U64 / 2 + 1 {
            let next_even = value + weight;
            if self.accepts(&mut even, next_even, bits) {
                return F::from_canonical_checked(2 * pair);
            }
            value = next_even + weight;
            if self.accepts(&mut odd, value, bits) {
                return F::from_canonical_checked(2 * pair + 1);
            }
        }
        None
    }

    // Whether the candidate passes that these cells have: whether so many low bits of what it gives are 0. The cells
    // are then those with `next` in the candidate's, for the candidate two further.
    // It is written out at both calls: else it makes all cells, also where a compiler could leave most of them out.
    #[inline(always)]
    fn accepts(&self, cells: &mut [PF; WIDTH], next: PF, bits: usize) -> bool
        requires { bits < 64 }
        ensures passes { let pair = ⟦<PF as HasFieldPair<F>>⟧.field_pair in
            (x : F) → cells.old ≡ with_candidate pair P.permutation RATE self.now x →
            IsTrue result ↔ Accepts pair P.permutation RATE self.now bits x }
        ensures next { cells.new ≡ slice_set self.now.cells self.now.place next }
    {
        self.permutation.permute_mut(cells);
        let given: F = PF::digit(cells[RATE - 1], PF::SQUEEZE_COUNT - 1);
        *cells = self.cells_with(next);
        given.as_canonical_u64() % (1 << bits) == 0
    }

    // The cells with a value in the candidate's. Each cell is chosen, and not that one written: a compiler that sees
    // through the permutation then leaves out what no output depends on.
    fn cells_with(&self, value: PF) -> [PF; WIDTH]
        ensures { result ≡ slice_set self.now.cells self.now.place value }
    {
        let mut cells = self.cells;
        'cells: for i in 0..WIDTH {
            cells[i] = if i == self.place {
                value
            } else {
                self.cells[i]
            };
        }
        cells
    }
}

impl<
    F: PrimeField32,
    PF: PrimeField64 + FieldBridge<F, PF>,
    P: CryptographicPermutation<[PF; WIDTH]>,
    const WIDTH: usize,
    const RATE: usize,
> MultiField32Challenger<F, PF, P, WIDTH, RATE> {
    // The least witness that passes a check of `bits` bits, all from one prepared state. The challenger is left as that
    // check leaves it; where no witness passes, it is as it was.
    pub(super) fn grind_prepared(&mut self, bits: usize) -> Result<F, ChallengerError>
        requires { bits ≤ most_bits_of F.residues.order }
        ensures found { FindsOrRefuses F.residues (λ _. ⊥)
            (check ⟦<PF as HasFieldPair<F>>⟧.field_pair P.permutation RATE bits)
            self.old result self.new }
        ensures free { bits ≡ 0 → IsOk result }
    {
        if bits == 0 {
            return Ok(F::from_canonical(0));
        }
        let check = self.prepare();
        let found = check.least(bits);
        match found {
            Some(witness) => {
                self.push(witness);
                let _ = self.draw();
                Ok(witness)
            }
            None => Err(ChallengerError::NoWitness),
        }
    }

    // The checks of all candidates, prepared.
    fn prepare(&self) -> PowCheck<F, PF, P, WIDTH, RATE>
        ensures { PreparedFor ⟦<PF as HasFieldPair<F>>⟧.field_pair P.permutation RATE
            self.now result }
    {
        let scalars = self.pending();
        let place = scalars.len() / PF::ABSORB_COUNT;
        let whole = scalars.len() - scalars.len() % PF::ABSORB_COUNT;
        let mut cells = self.sponge_state;
        // (any scalar may stand in the place of the candidate)
        pack_over::<F, PF>(&mut cells[..], &self.pending[..self.scalars + 1], RATE);
        PowCheck::new(cells, place, &scalars[whole..], self.permutation)
    }
}
