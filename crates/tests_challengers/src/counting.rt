// A permutation and a hasher that count their calls: those for one state, or one message, apart from those for several
// at once. So a search that tries as many candidates at once as there are lanes is told from one that tries fewer.
use p3_field::{BabyBear, F257};
use p3_lanes::{LanePermutation, PackedField};
use p3_symmetric::{CryptographicHasher, CryptographicPermutation, Turn};
use p3_test_support::SumHasher;
use std::cell::Cell;

/// How often a function was called.
#[derive(Drop)]
pub struct Calls {
    /// For one state, or one message.
    pub single: Cell<u32>,
    /// For several at once.
    pub batches: Cell<u32>,
    /// How many messages these had together.
    pub messages: Cell<u32>,
}

impl Calls {
    /// No calls yet.
    pub fn new() -> Calls {
        Calls {
            single: Cell::new(0),
            batches: Cell::new(0),
            messages: Cell::new(0),
        }
    }

    /// Begins to count anew.
    pub fn forget(&self) {
        self.single.set(0);
        self.batches.set(0);
        self.messages.set(0);
    }
}

fn add(count: &Cell<u32>, more: u32) {
    count.set(count.get().saturating_add(more));
}

/// `Turn<2>` over three cells.
#[derive(Clone, Copy)]
pub struct CountedTurn<'a> {
    pub calls: &'a Calls,
}

impl CryptographicPermutation<[F257; 3]> for CountedTurn<'_> {
    ghost use Rattle.p3_field.specs.F257Residues.{residues};
    ghost use Rattle.p3_symmetric.specs.Turn.{turned};

    ghost permutation = { λ _ cells. turned residues 2 3 cells };

    fn permute_mut(&self, state: &mut [F257; 3]) {
        add(&self.calls.single, 1);
        Turn::<2>.permute_mut(state);
    }
}

impl CryptographicPermutation<[BabyBear; 3]> for CountedTurn<'_> {
    ghost use Rattle.p3_field.specs.BabyBearResidues.{residues};
    ghost use Rattle.p3_symmetric.specs.Turn.{turned};

    ghost permutation = { λ _ cells. turned residues 2 3 cells };

    fn permute_mut(&self, state: &mut [BabyBear; 3]) {
        add(&self.calls.single, 1);
        Turn::<2>.permute_mut(state);
    }
}

impl LanePermutation<F257, 3> for CountedTurn<'_> {
    fn permute_lanes(&self, state: &mut [<F257 as PackedField>::Packing; 3]) {
        add(&self.calls.batches, 1);
        LanePermutation::<F257, 3>::permute_lanes(&Turn::<2>, state);
    }
}

/// What counts calls.
pub trait Counter: Copy {
    /// Counts one more for one message.
    fn count_single(&self);

    /// Counts one more for so many messages.
    fn count_batch(&self, messages: usize);
}

impl Counter for &Calls {
    fn count_single(&self) {
        add(&self.single, 1);
    }

    fn count_batch(&self, messages: usize) {
        add(&self.batches, 1);
        add(&self.messages, messages.min(1000) as u32);
    }
}

/// `SumHasher`, four messages at once.
#[derive(Clone, Copy)]
pub struct CountedSum<C> {
    pub calls: C,
}

// (the toolchain has no contract for a constant of a type with a lifetime, so the counter is a type)
impl<C: Counter> CryptographicHasher<u8, [u8; 32]> for CountedSum<C> {
    ghost use Rattle.std.{specs.Prelude.refl, proofs.Common.lit<};
    ghost use Rattle.p3_test_support.specs.TestHashers.{sum_digest};

    const LANES: usize = 4;

    ghost LANES = { 4 };

    ghost hash = { λ _ message. sum_digest message };

    ghost filler = { 0 };

    ghost some_lanes = { lit< tt };

    ghost digests = { λ _ _. refl };

    fn hash_slice(&self, input: &[u8]) -> [u8; 32] {
        self.calls.count_single();
        SumHasher.hash_slice(input)
    }

    fn hash_many(&self, messages: &[u8], digests: &mut [[u8; 32]]) {
        self.calls.count_batch(digests.len());
        SumHasher.hash_many(messages, digests);
    }
}
