// How often a search permutes or hashes, for one candidate and for several at once, which no clause says; beside the plain
// search, which tries one candidate after another on a copy of the challenger.
use crate::counting::{Calls, CountedSum, CountedTurn};
use crate::kinds::{Trial, duplex_passes, multi_field_passes, serializing_passes};
use crate::support::{grind, observe_one};
use p3_challenger_core::{CanSample, ChallengerError};
use p3_duplex::DuplexChallenger;
use p3_field::{BabyBear, F257, PrimeCharacteristicRing};
use p3_grinding::{
    ByteCandidates, ByteGrindingChallenger, CanCopy, GrindingChallenger, least_witness,
};
use p3_hash_challenger::HashChallenger;
use p3_multi_field::MultiField32Challenger;
use p3_serializing::{SerializingChallenger32, SerializingChallenger64};
use p3_symmetric::{CryptographicHasher, Sha256Hasher};
use std::process::Abort;
use std::test::Fail;

// ---- permutations

type Sponge<'a> = DuplexChallenger<F257, CountedTurn<'a>, 3, 2>;

type TwoFields<'a> = MultiField32Challenger<F257, BabyBear, CountedTurn<'a>, 3, 2>;

/// The number of the witness, how often one state is permuted at most, and how often several are at once.
pub type Cost = (u64, u32, u32);

// Whether a search for 8 bits costs that.
fn costs<C: GrindingChallenger>(
    challenger: &mut C,
    calls: &Calls,
    cost: Cost,
) -> Result<bool, ChallengerError> {
    let (witness, most_single, batches) = cost;
    calls.forget();
    let found = grind(challenger, 8)?;
    let is_cheap = calls.single.get() <= most_single && calls.batches.get() == batches;
    Ok(is_cheap && found == C::Witness::from_u64(witness))
}

// Whether the plain search finds the witness too, permutes one state for each candidate up to it, and leaves a challenger
// that draws the same.
fn plain_agrees<C: CanCopy + GrindingChallenger + CanSample<C::Witness>>(
    plain: &mut C,
    searched: &mut C,
    calls: &Calls,
    witness: u64,
) -> Result<bool, ChallengerError> {
    calls.forget();
    let found = least_witness(plain, C::max_bits().min(8))?;
    let tries_each = u64::from(calls.single.get()) > witness && calls.batches.get() == 0;
    let draws_same = plain.sample()? == searched.sample()?;
    Ok(tries_each && draws_same && found == C::Witness::from_u64(witness))
}

/// Both, with these numbers observed before.
pub fn searches<C: CanCopy + GrindingChallenger + CanSample<C::Witness>>(
    mut challenger: C,
    calls: &Calls,
    observed: &[u64],
    cost: Cost,
) -> Result<bool, ChallengerError> {
    for number in observed {
        observe_one(&mut challenger, C::Witness::from_u64(*number))?;
    }
    let mut plain = challenger.copy()?;
    let is_cheap = costs(&mut challenger, calls, cost)?;
    Ok(is_cheap && plain_agrees(&mut plain, &mut challenger, calls, cost.0)?)
}

// The first 255 candidates of the duplex challenger are tried, in four lanes.
#[test]
fn searches_permute_several_states_at_once(rt: HostRuntime) {
    let calls = Calls::new();
    let turn = CountedTurn { calls: &calls };
    let sponge: Sponge<'_> = DuplexChallenger::new(turn, 10);
    let trial = Trial::Permutes(&calls, &[], (254, 4, 64));
    assert!(rt; duplex_passes(sponge, trial) == Ok(true));
    let made: Result<TwoFields<'_>, _> = MultiField32Challenger::new(turn);
    let fields = made.expect(&rt, "these fields make a challenger");
    let trial = Trial::Permutes(&calls, &[1, 2], (65, 70, 0));
    assert!(rt; multi_field_passes(fields, trial) == Ok(true));
}

// ---- hash functions

// One whose hasher counts.
type Counted<'a> = HashChallenger<u8, CountedSum<&'a Calls>, 32>;

// Candidate c is the byte c, and passes before this drawn byte.
#[derive(Drop)]
struct OneByte(u8);

impl ByteCandidates<1, 1> for OneByte {
    ghost use Rattle.std.{specs.Prelude.{nat_eq, ◌%◌, [], ◌∷◌, slice_index}, proofs.Common.lit<};

    ghost encoded = { λ _ candidate. candidate % 256 ∷ [] };

    ghost accepted = { λ before drawn. nat_eq (slice_index drawn 0) before.0 };

    ghost encoded_fit = { lit< tt };

    ghost drawn_fit = { lit< tt };

    fn encode(&self, candidate: u64) -> [u8; 1] {
        [(candidate % 256) as u8]
    }

    fn accepts(&self, drawn: &[u8; 1]) -> bool {
        drawn[0] == self.0
    }
}

// How many candidates there are, the byte before which one passes, and which one is the first that does; in how many
// batches they are hashed, and how many messages that are.
const SEARCHES: [(u64, u8, Option<u64>, u32, u32); 3] = [
    (64, 10, None, 16, 64),
    (11, 47, Some(10), 3, 11),
    (10, 47, None, 3, 10),
];

// Whether each search is answered so, and hashes no message by itself.
fn finds_bytes<C: ByteGrindingChallenger<1, 1>>(
    challenger: &C,
    calls: &Calls,
) -> Result<bool, ChallengerError> {
    for search in &SEARCHES {
        calls.forget();
        let found = challenger.find_witness(search.0, &OneByte(search.1))?;
        let counted = (calls.batches.get(), calls.messages.get());
        if found != search.2 || counted != (search.3, search.4) || calls.single.get() != 0 {
            return Ok(false);
        }
    }
    Ok(true)
}

// The same over any hash function: generic for the reason that `kinds` gives.
fn hash_finds_bytes<H: CryptographicHasher<u8, [u8; 32]>>(
    challenger: &HashChallenger<u8, H, 32>,
    calls: &Calls,
) -> Result<bool, ChallengerError> {
    finds_bytes(challenger, calls)
}

/// Whether the first 242 candidates are hashed, four at once.
pub fn finds_element<C: GrindingChallenger + Drop>(
    mut challenger: C,
    calls: &Calls,
) -> Result<bool, ChallengerError> {
    calls.forget();
    let found = grind(&mut challenger, 8)?;
    let counted = (calls.batches.get(), calls.messages.get());
    Ok(counted == (61, 244) && found == C::Witness::from_u64(241))
}

#[test]
fn searches_hash_several_messages_at_once(rt: HostRuntime) -> Result<(), Fail> {
    let calls = Calls::new();
    let hasher = CountedSum { calls: &calls };
    let bytes: Counted<'_> = HashChallenger::new(vec![in rt.alloc(); 0u8, 1, 2, 3]?, hasher);
    assert!(rt; hash_finds_bytes(&bytes, &calls) == Ok(true));
    let inner: Counted<'_> = HashChallenger::new(Vec::new(rt.alloc()), hasher);
    let narrow: SerializingChallenger32<F257, Counted<'_>> = SerializingChallenger32::new(
        inner, 1000,
    );
    assert!(rt; serializing_passes(narrow, Trial::Hashes(&calls)) == Ok(true));
    let inner: Counted<'_> = HashChallenger::new(Vec::new(rt.alloc()), hasher);
    let wide: SerializingChallenger64<F257, Counted<'_>> = SerializingChallenger64::new(
        inner, 1000,
    );
    assert!(rt; serializing_passes(wide, Trial::Hashes(&calls)) == Ok(true));
    assert!(rt; <Sha256Hasher as CryptographicHasher<u8, [u8; 32]>>::LANES == 8);
    Ok(())
}
