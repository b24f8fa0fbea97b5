//! The challenger of scalars of one field over a sponge of cells of a larger one.
//!
//! ```text
//! observe ->  pending scalars, fewer than the rate packs
//!                |  packed, several to a cell, the first ones lowest; their number is added to the cell after the rate
//!                v
//!             [ rate | capacity ]
//!                |  the permutation
//!                v
//! sample  <-  digits of the cells of the rate, the last one first
//! ```
//!
//! A digest of cells is absorbed at once: its words overwrite the rate, and their number is added.
ghost use Rattle.std.specs.Prelude.{◌≡◌, ◌*◌, ◌<◌, ◌≤◌, ◌+◌, List, [], IfOk, IfErr, length, take};
ghost use Rattle.p3_multi_field.specs.{MultiFieldCalls.{fresh, queued, Symbol}, MultiFieldReadBack.ReadsBack};
ghost use Rattle.p3_multi_field.specs.MultiFieldState.{duplexed, scalar_observed, scalars_observed, sampled};
ghost use Rattle.p3_multi_field.specs.MultiFieldState.{after_sampled, run, run_to_digest, run_by_segments};
ghost use Rattle.p3_multi_field.specs.{MultiFieldState.run_by_segments_to_digest, Refusals.{MakeChallenger, Refuses}};
ghost use Rattle.p3_sponge.specs.CallPromises.{QueriesDecide};
ghost use Rattle.p3_challenger_core.specs.Segments.{Call};

mod bits;
mod calls;
mod digests;
mod grinding;
mod packing;
mod pow_check;
mod refusals;
mod values;

use self::packing::{absorb, digit_at, pack_over};
use crate::{HasFieldPair, MultiField32ChallengerError};
use p3_field_bridge::FieldBridge;
use p3_field_core::{Named, PrimeField32, PrimeField64};
use p3_sponge::{write_after, zero};
use p3_symmetric::CryptographicPermutation;
use std::fmt;
use std::marker::Model;

// The greatest tag of an absorb, and so the most scalars that may be pending.
const MOST_SCALARS: usize = 255;

/// A challenger that observes and draws elements of `F`, over a permutation of `WIDTH` cells of a larger field `PF`.
/// The first `RATE` cells are the rate.
///
/// Observed scalars are pending until the rate can pack no more, or until a draw finds no output left. Then they are
/// absorbed. Each cell of the rate gets the element that packs the next scalars, as many as it can, and zero where none
/// are left. The number of scalars is added to the cell after the rate, and the cells are permuted. A digest of words
/// of `PF` first absorbs the pending scalars. Then blocks of words, each at most as long as the rate, overwrite the
/// rate with zeros after them, each with its own count.
///
/// The outputs are then the digits of the cells of the rate, in the base of the order of `F`. They are drawn from the
/// last digit of the last cell backwards. A scalar or a digest drops the outputs left. A draw with no output left and
/// nothing pending permutes the cells.
///
/// Only [`sample_vec`](CanSample::sample_vec) takes memory. No other observation or draw is refused, and a search may
/// find no witness.
///
/// A symbol is a scalar, or a digest with all its words. A number of bits is the low bits of one drawn scalar. The
/// final digest is the `RATE` cells of the rate after one more permutation.
///
/// The Rust crate's `MultiField32Challenger` wraps a duplex challenger. Here the challenger is a sponge of its own, and
/// its counts are those of a [`FieldBridge`]. Its debug text shows the cells, what is pending and how many outputs are
/// left, and nothing of what was absorbed.
#[derive(Drop)]
pub struct MultiField32Challenger<
    F: PrimeField32,
    PF: PrimeField64 + FieldBridge<F, PF>,
    P,
    const WIDTH: usize,
    const RATE: usize,
> {
    sponge_state: [PF; WIDTH],
    // Its first `scalars` places are what is pending; the others are of no meaning.
    pending: [F; 255],
    scalars: usize,
    // How many outputs are left to draw: the first digits of the row that the rate gives. Where one stands is found by
    // a constant, `PF::SQUEEZE_COUNT`, so that no division is left in a draw when that is a power of two.
    outputs_left: usize,
    permutation: P,
}

impl<
    F: PrimeField32,
    PF: PrimeField64 + FieldBridge<F, PF>,
    P,
    const WIDTH: usize,
    const RATE: usize,
> Model for MultiField32Challenger<F, PF, P, WIDTH, RATE> {
    ghost use Rattle.std.specs.Prelude.{take};
    ghost use Rattle.p3_multi_field.specs.MultiFieldState.{MultiFieldState, KeepsNumbers};

    ghost Value = { MultiFieldState F PF P };

    ghost view = { λ c. record {
      sponge = record {
        cells = c.sponge_state;
        pending = take c.scalars c.pending;
        outputs_left = c.outputs_left;
      };
      permutation = c.permutation;
    } };

    ghost invariant = { λ c. KeepsNumbers WIDTH RATE F.residues.order PF.residues.order
        PF.ABSORB_COUNT PF.SQUEEZE_COUNT c.scalars c.outputs_left };
}

// By hand: the places that mean nothing hold scalars that were absorbed long ago.
impl<
    F: PrimeField32 + fmt::Debug,
    PF: PrimeField64 + FieldBridge<F, PF> + fmt::Debug,
    P: fmt::Debug,
    const WIDTH: usize,
    const RATE: usize,
> fmt::Debug for MultiField32Challenger<F, PF, P, WIDTH, RATE> {
    fn fmt<W: fmt::Write>(&self, f: &mut fmt::Formatter<W>) -> fmt::Result {
        f.debug_struct("MultiField32Challenger")
            .field("sponge_state", &self.sponge_state)
            .field("pending", &&self.pending[..self.scalars])
            .field("outputs_left", &self.outputs_left)
            .field("permutation", &self.permutation)
            .finish()
    }
}

impl<
    F: PrimeField32 + Named,
    PF: PrimeField64 + FieldBridge<F, PF> + Named,
    P: CryptographicPermutation<[PF; WIDTH]>,
    const WIDTH: usize,
    const RATE: usize,
> MultiField32Challenger<F, PF, P, WIDTH, RATE> {
    /// Returns a challenger of zeros, without pending scalars and outputs. `RATE` is at least 1 and below `WIDTH`.
    ///
    /// The errors are [`MultiField32ChallengerError::FieldOrderNotIncreasing`], exactly where the order of `F` is not
    /// below that of `PF`, and else [`MultiField32ChallengerError::AbsorbLengthTagOverflow`], exactly where the rate
    /// packs more than 255 scalars. No challenger is made then.
    ///
    /// For those who check the permutations and not the calls, the permuted states determine the observed scalars. The
    /// premises are that it observes only scalars, and that the order of `PF` exceeds the number of scalars that the
    /// rate packs. Then two lists of such calls that permute the same states and leave the same pending scalars
    /// observed the same scalars. Nothing is said of calls that observe digests.
    pub fn new(permutation: P) -> Result<Self, MultiField32ChallengerError>
        requires rate { 0 < RATE }
        requires capacity { RATE < WIDTH }
        ensures made { IfOk result
            (λ _. MakeChallenger F.residues.order PF.residues.order (PF.ABSORB_COUNT * RATE)) }
        ensures fresh { IfOk result (λ c. c ≡ record {
          permutation = permutation;
          sponge = fresh ⟦<PF as HasFieldPair<F>>⟧.field_pair WIDTH;
        }) }
        ensures reads_back { PF.ABSORB_COUNT * RATE < PF.residues.order →
            IfOk result (λ c. ReadsBack ⟦<PF as HasFieldPair<F>>⟧.field_pair
            (P.permutation permutation) RATE c.sponge) }
        ensures refused { IfErr result (λ e. Refuses F.residues.order PF.residues.order
            (PF.ABSORB_COUNT * RATE) F.name_bytes PF.name_bytes e) }
    {
        if F::ORDER_U64 >= PF::ORDER_U64 {
            return Err(MultiField32ChallengerError::FieldOrderNotIncreasing {
                input_field: F::type_name(),
                sponge_field: PF::type_name(),
            });
        }
        let batch_len = PF::ABSORB_COUNT.saturating_mul(RATE);
        if batch_len > MOST_SCALARS {
            return Err(MultiField32ChallengerError::AbsorbLengthTagOverflow {
                batch_len,
                max: MOST_SCALARS,
            });
        }
        Ok(MultiField32Challenger {
            sponge_state: [zero(); WIDTH],
            pending: [zero(); 255],
            scalars: 0,
            outputs_left: 0,
            permutation,
        })
    }
}

impl<
    F: PrimeField32,
    PF: PrimeField64 + FieldBridge<F, PF>,
    P: CryptographicPermutation<[PF; WIDTH]>,
    const WIDTH: usize,
    const RATE: usize,
> MultiField32Challenger<F, PF, P, WIDTH, RATE> {
    /// Segments determine all calls. From this challenger on, every list of calls has the results, the queries to the
    /// permutation and the final sponge that its segments name. So have calls that end in a digest. The queries are
    /// complete: another permutation with the same results on the queried states gives the same calls.
    ///
    /// A law: the body does nothing, and a caller cites the clauses.
    pub fn follows_segments(&self)
        ensures calls { (calls : List (Call (Symbol F PF))) →
            run ⟦<PF as HasFieldPair<F>>⟧.field_pair P.permutation RATE self.now calls ≡
            run_by_segments ⟦<PF as HasFieldPair<F>>⟧.field_pair P.permutation RATE self.now calls }
        ensures digest { (calls : List (Call (Symbol F PF))) →
            run_to_digest ⟦<PF as HasFieldPair<F>>⟧.field_pair P.permutation RATE self.now calls
            ≡ run_by_segments_to_digest
            ⟦<PF as HasFieldPair<F>>⟧.field_pair P.permutation RATE self.now calls }
        ensures queries { (calls : List (Call (Symbol F PF))) → QueriesDecide
            (P.permutation self.now.permutation) (λ permute.
            run ⟦<PF as HasFieldPair<F>>⟧.field_pair (λ _. permute) RATE self.now calls) }
        ensures queries_to_digest { (calls : List (Call (Symbol F PF))) →
            QueriesDecide (P.permutation self.now.permutation) (λ permute.
            run_to_digest ⟦<PF as HasFieldPair<F>>⟧.field_pair (λ _. permute) RATE self.now calls) }
    {
        let _ = &self.outputs_left;
    }

    /// Returns the number of bits in which a scalar is packed: the least that holds every canonical number.
    pub fn absorb_radix_bits(&self) -> u32
        ensures { result ≡ PF.RADIX_BITS }
    {
        PF::RADIX_BITS
    }

    /// Returns how many scalars are packed into one cell.
    pub fn absorb_num_f_elms(&self) -> usize
        ensures { result ≡ PF.ABSORB_COUNT }
    {
        PF::absorb_num()
    }

    /// Returns how many digits of one cell are drawn.
    pub fn squeeze_num_f_elms(&self) -> usize
        ensures { result ≡ PF.SQUEEZE_COUNT }
    {
        PF::squeeze_num()
    }

    /// Returns how many digits a draw has queued that were neither drawn nor dropped since. The number is 0 after an
    /// absorption. The next draw queues the digits of the rate and takes one.
    pub fn pending_f_squeeze_len(&self) -> usize
        ensures { result ≡ queued ⟦<PF as HasFieldPair<F>>⟧.field_pair RATE self.now.sponge }
    {
        if self.outputs_left == self.row_len() {
            0
        } else {
            self.outputs_left
        }
    }

    /// Returns a copy of the challenger. The copy takes no memory, so it cannot fail.
    ///
    /// Corresponds to the Rust crate's `Clone`.
    pub fn clone(&self) -> Self
        ensures { result ≡ self.now }
    {
        MultiField32Challenger {
            sponge_state: self.sponge_state,
            pending: self.pending,
            scalars: self.scalars,
            outputs_left: self.outputs_left,
            permutation: self.permutation,
        }
    }

    // What is pending, in the order in which it was observed.
    pub(crate) fn pending(&self) -> &[F]
        ensures values { result.now ≡ self.now.sponge.pending }
        ensures short { length result.now < PF.ABSORB_COUNT * RATE }
    {
        &self.pending[..self.scalars]
    }

    // How many scalars the rate packs.
    fn batch_len(&self) -> usize
        ensures { result ≡ PF.ABSORB_COUNT * RATE }
    {
        let _ = &self.scalars;
        PF::ABSORB_COUNT * RATE
    }

    // How many digits the rate gives.
    fn row_len(&self) -> usize
        ensures { result ≡ RATE * PF.SQUEEZE_COUNT }
    {
        let _ = &self.outputs_left;
        RATE * PF::SQUEEZE_COUNT
    }

    // The rate.
    fn rate(&self) -> [PF; RATE]
        ensures { result ≡ take RATE self.now.sponge.cells }
    {
        let mut rate = [zero(); RATE];
        rate.copy_from_slice(&self.sponge_state[..RATE]);
        rate
    }

    // Absorbs what is pending, or only permutes where nothing is. All outputs are left.
    fn duplex(&mut self)
        ensures { self.new
            ≡ duplexed ⟦<PF as HasFieldPair<F>>⟧.field_pair P.permutation RATE self.old }
    {
        let row_len = self.row_len();
        absorb::<F, PF, P, WIDTH, RATE>(
            &mut self.sponge_state,
            &self.pending[..self.scalars],
            &self.permutation,
        );
        self.scalars = 0;
        self.outputs_left = row_len;
    }

    // Draws a scalar: the last output left, after a permutation where none is.
    fn draw(&mut self) -> F
        ensures value { result
            ≡ sampled ⟦<PF as HasFieldPair<F>>⟧.field_pair P.permutation RATE self.old }
        ensures after { self.new
            ≡ after_sampled ⟦<PF as HasFieldPair<F>>⟧.field_pair P.permutation RATE self.old }
    {
        if self.outputs_left == 0 {
            self.duplex();
        }
        self.outputs_left -= 1;
        digit_at::<F, PF>(&self.sponge_state[..], self.outputs_left)
    }

    // How many scalars more the rate packs.
    fn room(&self) -> usize
        ensures fills { result + length self.now.sponge.pending ≡ PF.ABSORB_COUNT * RATE }
        ensures some { 0 < result }
    {
        self.batch_len() - self.pending().len()
    }

    // Makes scalars pending that the rate packs with what is pending, and absorbs them all if it packs no more.
    fn push_within(&mut self, values: &[F])
        requires { length self.old.sponge.pending + length values.now ≤ PF.ABSORB_COUNT * RATE }
        ensures fed { self.new ≡ scalars_observed
            ⟦<PF as HasFieldPair<F>>⟧.field_pair P.permutation RATE self.old values.now }
        ensures full { length self.old.sponge.pending + length values.now ≡ PF.ABSORB_COUNT * RATE →
            self.new.sponge.pending ≡ [] }
    {
        let batch_len = self.batch_len();
        let row_len = self.row_len();
        let end = self.scalars + values.len();
        if values.is_empty() {
            return;
        }
        write_after(&mut self.pending[..], self.scalars, values);
        if end == batch_len {
            absorb::<F, PF, P, WIDTH, RATE>(
                &mut self.sponge_state,
                &self.pending[..end],
                &self.permutation,
            );
            self.scalars = 0;
            self.outputs_left = row_len;
        } else {
            self.scalars = end;
            self.outputs_left = 0;
        }
    }

    // Makes a scalar pending, and absorbs what is pending if the rate packs no more.
    fn push(&mut self, value: F)
        ensures { self.new ≡ scalar_observed
            ⟦<PF as HasFieldPair<F>>⟧.field_pair P.permutation RATE self.old value }
    {
        prove!(self.room() > 0);
        self.push_within(&[value]);
    }

    // Absorbs as many scalars as the rate packs, where nothing is pending: straight from where they stand.
    fn absorb_batch(&mut self, batch: &[F])
        requires none { self.old.sponge.pending ≡ [] }
        requires whole { length batch.now ≡ PF.ABSORB_COUNT * RATE }
        ensures fed { self.new ≡ scalars_observed
            ⟦<PF as HasFieldPair<F>>⟧.field_pair P.permutation RATE self.old batch.now }
        ensures none_left { self.new.sponge.pending ≡ [] }
    {
        let row_len = self.row_len();
        pack_over::<F, PF>(&mut self.sponge_state[..], batch, RATE);
        self.permutation.permute_mut(&mut self.sponge_state);
        self.outputs_left = row_len;
    }

    // Makes scalars pending in order, and absorbs each batch that they fill. The first scalars fill up what is
    // pending, and the batches after them are not copied into it.
    pub(crate) fn push_all(&mut self, values: &[F])
        ensures { self.new ≡ scalars_observed
            ⟦<PF as HasFieldPair<F>>⟧.field_pair P.permutation RATE self.old values.now }
    {
        let batch_len = self.batch_len();
        let (front, mut rest) = values.split_at(self.room().min(values.len()));
        self.push_within(front);
        while rest.len() >= batch_len {
            let (batch, after) = rest.split_at(batch_len);
            self.absorb_batch(batch);
            rest = after;
        }
        if !rest.is_empty() {
            self.push_within(rest);
        }
    }
}
