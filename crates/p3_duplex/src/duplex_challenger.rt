//! The challenger over a permutation, with its observations of values and arrays.
//!
//! ```text
//! observe ->  pending values, fewer than RATE
//!                |  RATE of them, or a draw where some are pending or no output is left
//!                v
//!             [ cells 0 .. RATE of the rate | capacity ]   the values written over the front, zeros up to RATE,
//!                |                                         and their number added to the cell after the rate
//!                |  the permutation
//!                v
//! sample  <-  outputs: the first RATE cells, the last of them first
//! ```
//!
//! An observation drops the outputs that are left. Where nothing is pending, the cells are permuted as they are.
ghost use Rattle.std.specs.Prelude.{◌≡◌, ◌<◌, ◌≤◌, ◌+◌, List, [], Some, length, take, refl, ◌∷◌};
ghost use Rattle.p3_challenger_core.specs.{Segments.{Call, segments}, Observation.unrefused_observe};
ghost use Rattle.p3_challenger_core.specs.Sampling.{unrefused_draw};
ghost use Rattle.p3_duplex.specs.DuplexReadBack.{ReadsBack, ReadsBackToDigest, ReadsBackOrCollides};
ghost use Rattle.p3_duplex.specs.{DuplexCalls.{duplex, fresh, outputs}, DuplexState.{run, run_to_digest, segments_run}};
ghost use Rattle.p3_duplex.specs.DuplexState.{segments_run_to_digest, duplexed, observed, fed, sampled, after_sampled};
ghost use Rattle.p3_duplex.specs.DuplexStateLaws.{fed-append, is_observation};
ghost use Rattle.p3_sponge.specs.{SpongeCalls.permutation_input, CallPromises.QueriesDecide};
ghost use Rattle.p3_sponge.specs.DrawingLaws.{elements-sampled};
ghost use Rattle.p3_duplex.specs.DuplexState as duplex_state;

mod bits;
mod calls;
mod digests;
mod grinding;
mod lane_search;
mod refusals;
mod uniform;

use p3_challenger_core::{
    CanFinalizeDigest, CanObserve, CanSample, CanSampleBits, ChallengerError, Sponge,
};
use p3_field_core::{BasedVectorSpace, PrimeCharacteristicRing, PrimeField64};
use p3_sponge::{overwrite, write_after, zero};
use p3_symmetric::CryptographicPermutation;
use std::fmt;
use std::marker::Model;

/// A challenger over a permutation of `WIDTH` cells, of which the first `RATE` are the rate.
///
/// Observed values are pending until they fill the rate, or until a draw finds no output left. Then they are absorbed:
/// they overwrite the rate with zeros after them, and their number is added to the cell after the rate. The cells are
/// permuted. The cells of the rate are then the outputs, drawn from the last one backwards. An observation drops the
/// outputs left. A draw with no output left and no value pending permutes the cells.
///
/// Only [`sample_vec`](CanSample::sample_vec) takes memory. No other observation and no other draw of a value is
/// refused. A draw of uniform bits may meet the draw limit or reject a value, and a search may find no witness.
///
/// A symbol is an element of `F`. A number of bits is the low bits of one drawn element. A number of uniform bits is
/// that of an element below their bound, or is drawn in two such halves, low half first. For 0 bits the number is 0,
/// and nothing is drawn. The final digest is the `RATE` cells of the rate after one more permutation.
///
/// Corresponds to the Rust crate's `DuplexChallenger`, with getters in place of public fields and of vectors. Its debug
/// text shows the pending values and the outputs left by their names there, and nothing of what was absorbed.
#[derive(Drop)]
pub struct DuplexChallenger<F, P, const WIDTH: usize, const RATE: usize> {
    sponge_state: [F; WIDTH],
    // Its first `inputs` places are what is pending; the others are of no meaning.
    input_buffer: [F; RATE],
    inputs: usize,
    // How many outputs are left to draw: the first cells of the rate.
    outputs_left: usize,
    permutation: P,
    draw_limit: u64,
}

impl<F, P, const WIDTH: usize, const RATE: usize> Model for DuplexChallenger<F, P, WIDTH, RATE> {
    ghost use Rattle.std.specs.Prelude.{take};
    ghost use Rattle.p3_duplex.specs.DuplexState.{DuplexState, KeepsRate};

    ghost Value = { DuplexState F P };

    ghost view = { λ c. record {
      sponge = record {
        cells = c.sponge_state;
        pending = take c.inputs c.input_buffer;
        outputs_left = c.outputs_left;
      };
      permutation = c.permutation;
      draw_limit = c.draw_limit;
    } };

    ghost invariant = { λ c. KeepsRate WIDTH RATE c.inputs c.outputs_left c.draw_limit };
}

// By hand: the places of the buffer that mean nothing hold values that were absorbed long ago.
impl<F: fmt::Debug, P: fmt::Debug, const WIDTH: usize, const RATE: usize> fmt::Debug
    for DuplexChallenger<F, P, WIDTH, RATE> {
    fn fmt<W: fmt::Write>(&self, f: &mut fmt::Formatter<W>) -> fmt::Result {
        f.debug_struct("DuplexChallenger")
            .field("sponge_state", &self.sponge_state)
            .field("input_buffer", &&self.input_buffer[..self.inputs])
            .field("output_buffer", &&self.sponge_state[..self.outputs_left])
            .field("permutation", &self.permutation)
            .field("draw_limit", &self.draw_limit)
            .finish()
    }
}

impl<
    F: PrimeField64,
    P: CryptographicPermutation<[F; WIDTH]>,
    const WIDTH: usize,
    const RATE: usize,
> DuplexChallenger<F, P, WIDTH, RATE> {
    /// Returns a challenger of zeros, without pending values and outputs.
    ///
    /// `RATE` is from 1 to 255 and below `WIDTH`. `draw_limit`, at least 1, bounds the elements drawn by a draw that
    /// may reject candidates. A draw of one element takes the first. The Rust crate has no limit.
    ///
    /// For those who check the permutations and not the calls, the permuted states determine the observed values. Take
    /// two lists of calls, where the order of the field exceeds `RATE`. If they permute the same states, and leave the
    /// same pending values or end in a digest, they observed the same values. If they only permute equally many states,
    /// the same one last, and leave the same pending values, two cases remain. Either they observed the same values, or
    /// two states at one place collide. Colliding states differ, and their images are equal after cell `RATE`, and
    /// differ in cell `RATE` by a number from `-RATE` to `RATE`.
    pub fn new(permutation: P, draw_limit: u64) -> Self
        requires rate { 0 < RATE }
        requires capacity { RATE < WIDTH }
        requires count { RATE ≤ 255 }
        requires draws { 1 ≤ draw_limit }
        ensures value { result ≡ record {
          sponge = fresh F.residues WIDTH;
          permutation = permutation;
          draw_limit = draw_limit;
        } }
        ensures reads_back { RATE < F.residues.order →
            ReadsBack F.residues (P.permutation permutation) RATE result.sponge }
        ensures to_digest { RATE < F.residues.order →
            ReadsBackToDigest F.residues (P.permutation permutation) RATE result.sponge }
        ensures or_collides { RATE < F.residues.order →
            ReadsBackOrCollides F.residues (P.permutation permutation) RATE result.sponge }
    {
        DuplexChallenger {
            sponge_state: [zero(); WIDTH],
            input_buffer: [zero(); RATE],
            inputs: 0,
            outputs_left: 0,
            permutation,
            draw_limit,
        }
    }

    /// Segments determine all calls. From this challenger on, every list of calls has the results, the queries to the
    /// permutation and the final sponge that its segments name. So have calls that end in a digest. The queries are
    /// complete: another permutation with the same results on the queried states gives the same calls.
    ///
    /// A law: the body does nothing, and a caller cites the clauses.
    pub fn follows_segments(&self)
        ensures calls { (calls : List (Call F)) → run F.residues P.permutation RATE self.now calls
            ≡ segments_run F.residues P.permutation RATE self.now (segments calls) }
        ensures digest { (calls : List (Call F)) →
            run_to_digest F.residues P.permutation RATE self.now calls
            ≡ segments_run_to_digest F.residues P.permutation RATE self.now (segments calls) }
        ensures queries { (calls : List (Call F)) →
            QueriesDecide (P.permutation self.now.permutation)
            (λ permute. run F.residues (λ _. permute) RATE self.now calls) }
        ensures queries_to_digest { (calls : List (Call F)) → QueriesDecide
            (P.permutation self.now.permutation)
            (λ permute. run_to_digest F.residues (λ _. permute) RATE self.now calls) }
    {
        let _ = &self.outputs_left;
    }

    /// Returns the cells: the first `RATE` are the rate, and the others the capacity.
    pub fn sponge_state(&self) -> &[F; WIDTH]
        ensures { result.now ≡ self.now.sponge.cells }
    {
        &self.sponge_state
    }

    /// Returns the pending values, in the order of their observation.
    pub fn input(&self) -> &[F]
        ensures { result.now ≡ self.now.sponge.pending }
    {
        &self.input_buffer[..self.inputs]
    }

    /// Returns the outputs that are left. The last one is drawn next.
    pub fn output(&self) -> &[F]
        ensures { result.now ≡ outputs self.now.sponge }
    {
        &self.sponge_state[..self.outputs_left]
    }

    /// Returns the permutation.
    pub fn permutation(&self) -> &P
        ensures { result.now ≡ self.now.permutation }
    {
        &self.permutation
    }

    /// Returns a copy of the challenger. The copy takes no memory, so it cannot fail.
    ///
    /// Corresponds to the Rust crate's `Clone`.
    pub fn clone(&self) -> Self
        ensures { result ≡ self.now }
    {
        DuplexChallenger {
            sponge_state: self.sponge_state,
            input_buffer: self.input_buffer,
            inputs: self.inputs,
            outputs_left: self.outputs_left,
            permutation: self.permutation,
            draw_limit: self.draw_limit,
        }
    }

    // The rate.
    fn rate(&self) -> [F; RATE]
        ensures { result ≡ take RATE self.now.sponge.cells }
    {
        let mut rate = self.input_buffer;
        rate.copy_from_slice(&self.sponge_state[..RATE]);
        rate
    }

    // Absorbs what is pending, or only permutes where nothing is. All outputs are left. Not inlined, so that a draw of an
    // output that is left stays short enough to stand where it is called.
    #[inline(never)]
    fn duplex(&mut self)
        ensures { self.new ≡ duplexed F.residues P.permutation RATE self.old }
    {
        absorb::<F, P, WIDTH, RATE>(
            &mut self.sponge_state,
            &self.input_buffer[..self.inputs],
            &self.permutation,
        );
        self.inputs = 0;
        self.outputs_left = RATE;
    }

    // Draws a value: the last output left, after a permutation where none is.
    #[inline(always)]
    fn draw(&mut self) -> F
        ensures value { result ≡ sampled F.residues P.permutation RATE self.old }
        ensures after { self.new ≡ after_sampled F.residues P.permutation RATE self.old }
    {
        if self.outputs_left == 0 {
            self.duplex();
        }
        self.outputs_left -= 1;
        self.sponge_state[self.outputs_left]
    }

    // How many values more fill the rate.
    fn room(&self) -> usize
        ensures fills { result + length self.now.sponge.pending ≡ RATE }
        ensures some { 0 < result }
    {
        RATE - self.inputs
    }

    // Makes values pending that at most fill the rate, and absorbs what is pending if they do.
    fn push_within(&mut self, values: &[F])
        requires { length self.old.sponge.pending + length values.now ≤ RATE }
        ensures fed { self.new ≡ fed F.residues P.permutation RATE self.old values.now }
        ensures full { length self.old.sponge.pending + length values.now ≡ RATE →
            self.new.sponge.pending ≡ [] }
    {
        let end = self.inputs + values.len();
        if values.is_empty() {
            return;
        }
        write_after(&mut self.input_buffer[..], self.inputs, values);
        if end == RATE {
            absorb::<F, P, WIDTH, RATE>(
                &mut self.sponge_state,
                &self.input_buffer[..end],
                &self.permutation,
            );
            self.inputs = 0;
            self.outputs_left = RATE;
        } else {
            self.inputs = end;
            self.outputs_left = 0;
        }
    }

    // Makes a value pending, and absorbs what is pending if it fills the rate.
    fn push(&mut self, value: F)
        ensures { self.new ≡ observed F.residues P.permutation RATE self.old value }
    {
        prove!(self.room() > 0);
        self.push_within(&[value]);
    }

    // Absorbs a block that fills the rate, where nothing is pending: straight from where it stands.
    fn absorb_block(&mut self, block: &[F])
        requires none { self.old.sponge.pending ≡ [] }
        requires whole { length block.now ≡ RATE }
        ensures fed { self.new ≡ fed F.residues P.permutation RATE self.old block.now }
        ensures none_left { self.new.sponge.pending ≡ [] }
    {
        overwrite(&mut self.sponge_state[..], block, RATE);
        self.permutation.permute_mut(&mut self.sponge_state);
        self.outputs_left = RATE;
    }

    // Makes values pending in order, and absorbs each block that they fill. The first values fill up what is
    // pending, and the blocks after them are not copied into it.
    pub(crate) fn push_all(&mut self, values: &[F])
        ensures { self.new ≡ fed F.residues P.permutation RATE self.old values.now }
    {
        let (front, mut rest) = values.split_at(self.room().min(values.len()));
        self.push_within(front);
        while rest.len() >= RATE {
            let (block, after) = rest.split_at(RATE);
            self.absorb_block(block);
            rest = after;
        }
        if !rest.is_empty() {
            self.push_within(rest);
        }
    }
}

impl<
    F: PrimeField64,
    P: CryptographicPermutation<[F; WIDTH]>,
    const WIDTH: usize,
    const RATE: usize,
> Sponge for DuplexChallenger<F, P, WIDTH, RATE> {
    type State = Self;

    type Symbol = F;

    ghost state = { λ c. c };

    ghost fed = { λ s xs. duplex_state.fed F.residues P.permutation RATE s xs };

    ghost next = { λ s. duplex_state.after_sampled F.residues P.permutation RATE s };

    ghost fed_nothing = { λ _. refl };

    ghost fed_more = { fed-append F.residues P.permutation RATE };
}

impl<
    F: PrimeField64,
    P: CryptographicPermutation<[F; WIDTH]>,
    const WIDTH: usize,
    const RATE: usize,
> CanObserve<F> for DuplexChallenger<F, P, WIDTH, RATE> {
    // An observation takes no memory: it is never refused.
    ghost observation = { unrefused_observe
        (λ x. x ∷ []) (duplex_state.observed F.residues P.permutation RATE) };

    ghost slice_may_leave = { λ _ _ _. ⊥ };

    ghost observes = { is_observation F.residues P.permutation RATE (λ x. x ∷ []) _ (λ _ _. refl) };

    ghost slice_leaves = { λ _ _ _ h. absurd h };

    fn observe(&mut self, value: F) -> Result<(), ChallengerError> {
        self.push(value);
        Ok(())
    }

    fn observe_slice(&mut self, values: &[F]) -> Result<(), ChallengerError> {
        self.push_all(values);
        Ok(())
    }
}

impl<
    F: PrimeField64,
    P: CryptographicPermutation<[F; WIDTH]>,
    const WIDTH: usize,
    const RATE: usize,
    const N: usize,
> CanObserve<[F; N]> for DuplexChallenger<F, P, WIDTH, RATE> {
    // An observation takes no memory: it is never refused.
    ghost observation = { unrefused_observe (λ xs. xs) (λ s xs. duplex_state.fed F.residues P.permutation RATE s xs) };

    ghost slice_may_leave = { λ _ _ _. ⊥ };

    ghost observes = { is_observation F.residues P.permutation RATE (λ xs. xs) _ (λ _ _. refl) };

    ghost slice_leaves = { λ _ _ _ h. absurd h };

    fn observe(&mut self, values: [F; N]) -> Result<(), ChallengerError> {
        self.push_all(&values[..]);
        Ok(())
    }

    fn observe_slice(&mut self, values: &[[F; N]]) -> Result<(), ChallengerError> {
        self.push_parts(values);
        Ok(())
    }
}

impl<
    F: PrimeField64,
    A: BasedVectorSpace<F>,
    P: CryptographicPermutation<[F; WIDTH]>,
    const WIDTH: usize,
    const RATE: usize,
> CanSample<A> for DuplexChallenger<F, P, WIDTH, RATE> {
    // The element whose coefficients are the next values, coefficient 0 first. A draw takes no memory and has no
    // limit: it is never refused.
    ghost sampling = { unrefused_draw
        (λ s. Some (A.element (duplex_state.drawn F.residues P.permutation RATE A.DIMENSION s)))
        (λ s. duplex_state.after_drawn F.residues P.permutation RATE A.DIMENSION s) };

    ghost samples = { elements-sampled (duplex_state.sampled F.residues P.permutation RATE)
        (duplex_state.after_sampled F.residues P.permutation RATE) A.DIMENSION A.element };

    fn sample(&mut self) -> Result<A, ChallengerError> {
        let mut element = A::zero();
        for i in 0..A::DIMENSION {
            element = element.with_coefficient(i, self.draw());
        }
        Ok(element)
    }
}

impl<
    F: PrimeField64,
    P: CryptographicPermutation<[F; WIDTH]>,
    const WIDTH: usize,
    const RATE: usize,
> CanFinalizeDigest for DuplexChallenger<F, P, WIDTH, RATE> {
    type Digest = [F; RATE];

    // The rate after one more permutation, whether values are pending or not.
    ghost digest_of = { λ s. duplex_state.digest F.residues P.permutation RATE s };

    fn finalize(self) -> [F; RATE] {
        let mut challenger = self;
        challenger.duplex();
        challenger.rate()
    }
}

// Absorbs a block; an empty one only permutes.
fn absorb<
    F: PrimeField64,
    P: CryptographicPermutation<[F; WIDTH]>,
    const WIDTH: usize,
    const RATE: usize,
>(cells: &mut [F; WIDTH], block: &[F], permutation: &P)
    requires fits { length block.now ≤ RATE }
    requires capacity { RATE < WIDTH }
    ensures { let rule = duplex F.residues (P.permutation permutation.now) RATE in
        cells.new ≡ rule.permute (permutation_input rule cells.old block.now) }
{
    if block.is_empty() {
        *cells = permuted(&*cells, permutation);
    } else {
        overwrite(&mut cells[..], block, RATE);
        permutation.permute_mut(cells);
    }
}

// The cells, permuted.
// It is not written out at each call: else a loop of draws keeps the cells in registers of vectors, and at every draw
// moves them about for the next permutation. It reads them where they stand, since a copy made for the call would be
// read at other places than it was written, which waits for the writes.
#[inline(never)]
fn permuted<F: PrimeField64, P: CryptographicPermutation<[F; WIDTH]>, const WIDTH: usize>(
    cells: &[F; WIDTH],
    permutation: &P,
) -> [F; WIDTH]
    ensures { result ≡ P.permutation permutation.now cells.now }
{
    let mut permuted = *cells;
    permutation.permute_mut(&mut permuted);
    permuted
}
