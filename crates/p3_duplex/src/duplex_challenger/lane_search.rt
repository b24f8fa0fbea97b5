//! The search for a witness, which tries one candidate in each lane: all start from one state, and differ in one cell.
ghost use Rattle.std.specs.Prelude.{◌≡◌, ◌<◌, ℕ, ◌+◌, ◌-◌, ◌*◌, ◌^◌, ◌≤◌, ◌↔◌, min, MatchOption, IsOk, IsTrue};
ghost use Rattle.std.specs.Mem.{type_size};
ghost use Rattle.p3_duplex.specs.LaneSearch.{given_by, HasZeros, candidate, IsLeastOf, NoneOfAll, IsFirstLane};
ghost use Rattle.p3_duplex.specs.LaneSearch.{PassesAt, LanePasses, check};
ghost use Rattle.p3_challenger_core.specs.Sampling.{most_bits_of};
ghost use Rattle.p3_grinding.specs.Checks.{FindsOrRefuses};

use crate::DuplexChallenger;
use p3_challenger_core::ChallengerError;
use p3_field_core::PrimeField64;
use p3_lanes::{LanePermutation, PackedField, PackedValue};
use p3_sponge::overwrite;

impl<
    F: PrimeField64 + PackedField,
    P: LanePermutation<F, WIDTH>,
    const WIDTH: usize,
    const RATE: usize,
> DuplexChallenger<F, P, WIDTH, RATE> {
    // The least witness that passes a check of `bits` bits: a candidate in each lane, all from one prepared state. The
    // challenger is left as that check leaves it; where no witness passes, it is as it was.
    pub(super) fn grind_in_lanes(&mut self, bits: usize) -> Result<F, ChallengerError>
        requires bits { bits ≤ most_bits_of F.residues.order }
        requires width { WIDTH < 2 ^ 32 }
        ensures found { FindsOrRefuses F.residues (λ _. ⊥)
            (check F.residues P.permutation RATE bits) self.old result self.new }
        ensures free { bits ≡ 0 → IsOk result }
    {
        if bits == 0 {
            return Ok(F::from_canonical(0));
        }
        let mut cells = self.sponge_state;
        // (any value may stand in the last place of the block: the candidates are written there)
        overwrite(&mut cells[..], &self.input_buffer[..self.inputs + 1], RATE);
        let found = least_in_lanes::<F, P, WIDTH>(
            &self.permutation,
            &cells,
            self.inputs,
            RATE - 1,
            bits,
        );
        match found {
            Some(witness) => {
                self.push(witness);
                let _ = self.draw();
                Ok(witness)
            }
            None => Err(ChallengerError::NoWitness),
        }
    }
}

// The least element which, put at a place of the cells, gives an output cell of the permuted cells with so many low
// bits 0. Lanes past the order repeat the last candidate.
fn least_in_lanes<F: PrimeField64 + PackedField, P: LanePermutation<F, WIDTH>, const WIDTH: usize>(
    permutation: &P,
    cells: &[F; WIDTH],
    place: usize,
    output: usize,
    bits: usize,
) -> Option<F>
    requires place { place < WIDTH }
    requires output { output < WIDTH }
    requires room { WIDTH * type_size F.Packing.row < 2 ^ 63 }
    requires bits { bits < 64 }
    ensures { let Passes =
        PassesAt F.residues (P.permutation permutation.now) cells.now place output bits in
        MatchOption result (NoneOfAll F.residues Passes) (IsLeastOf F.residues Passes) }
{
    let mut first = 0;
    'batches: while first < F::ORDER_U64 {
        let candidates = candidates_from::<F>(first);
        let given = given_in_lanes::<F, P, WIDTH>(permutation, cells, place, output, candidates);
        match first_lane_with_zeros::<F>(given, bits) {
            Some(lane) => return Some(candidate_in::<F>(first, lane)),
            None => first += count_of_next::<F>(first),
        }
    }
    None
}

// How many candidates stand in the lanes from a first one on.
fn count_of_next<F: PrimeField64 + PackedField>(first: u64) -> u64
    requires { first < F.residues.order }
    ensures exact { result ≡ min F.Packing.WIDTH (F.residues.order - first) }
    ensures some { 0 < result }
    ensures within { first + result ≤ F.residues.order }
    ensures lanes { result ≤ F.Packing.WIDTH }
{
    (F::Packing::WIDTH as u64).min(F::ORDER_U64 - first)
}

// The candidate in a lane.
fn candidate_in<F: PrimeField64 + PackedField>(first: u64, lane: usize) -> F
    requires { first < F.residues.order }
    ensures { result ≡ F.residues.of (candidate F.residues.order first lane) }
{
    let left = F::ORDER_U64 - 1 - first;
    F::from_canonical(first + (lane as u64).min(left))
}

// The candidates from a first one on.
fn candidates_from<F: PrimeField64 + PackedField>(first: u64) -> F::Packing
    requires { first < F.residues.order }
    ensures { (l : ℕ) → l < F.Packing.WIDTH →
        F.Packing.in_lane l result ≡ F.residues.of (candidate F.residues.order first l) }
{
    F::Packing::from_fn(
        |lane: usize| -> F
            requires { first < F.residues.order }
            ensures { result ≡ F.residues.of (candidate F.residues.order first lane) }
        { candidate_in::<F>(first, lane) },
    )
}

// In each lane what the candidate there gives.
fn given_in_lanes<F: PrimeField64 + PackedField, P: LanePermutation<F, WIDTH>, const WIDTH: usize>(
    permutation: &P,
    cells: &[F; WIDTH],
    place: usize,
    output: usize,
    candidates: F::Packing,
) -> F::Packing
    requires place { place < WIDTH }
    requires output { output < WIDTH }
    requires room { WIDTH * type_size F.Packing.row < 2 ^ 63 }
    ensures { (l : ℕ) → l < F.Packing.WIDTH → F.Packing.in_lane l result ≡ given_by F.residues
        (P.permutation permutation.now) cells.now place output (F.Packing.in_lane l candidates) }
{
    let mut lanes = [F::Packing::broadcast(F::ZERO); WIDTH];
    'cells: for i in 0..WIDTH {
        lanes[i] = F::Packing::broadcast(cells[i]);
    }
    lanes[place] = candidates;
    permutation.permute_lanes(&mut lanes);
    lanes[output]
}

// The first lane whose element has so many low bits 0.
fn first_lane_with_zeros<F: PrimeField64 + PackedField>(
    given: F::Packing,
    bits: usize,
) -> Option<usize>
    requires { bits < 64 }
    ensures { let Passes = LanePasses F.residues F.Packing.in_lane bits given in MatchOption result
        ((l : ℕ) → l < F.Packing.WIDTH → ¬ (Passes l)) (IsFirstLane F.Packing.WIDTH Passes) }
{
    'lanes: for lane in 0..F::Packing::WIDTH {
        if has_zeros(given.lane(lane), bits) {
            return Some(lane);
        }
    }
    None
}

// Whether so many low bits of an element are 0.
fn has_zeros<F: PrimeField64>(x: F, bits: usize) -> bool
    requires { bits < 64 }
    ensures { IsTrue result ↔ HasZeros F.residues bits x }
{
    x.as_canonical_u64() % (1 << bits) == 0
}
