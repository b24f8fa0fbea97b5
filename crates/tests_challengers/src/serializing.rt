// Serializing challengers: what no row observes, arrays and slices of digests; and the draw limit, after whole groups of
// bytes.
use crate::support::{observe_many, observe_one};
use p3_challenger_core::{CanObserve, CanSample, ChallengerError};
use p3_field::{BabyBear, Goldilocks, PrimeCharacteristicRing};
use p3_hash_challenger::HashChallenger;
use p3_serializing::{SerializingChallenger32, SerializingChallenger64};
use p3_symmetric::{Hash, MerkleCap};
use p3_test_support::{SumHasher, Supply};
use std::process::Abort;
use std::test::Fail;

type Long = SerializingChallenger64<Goldilocks, HashChallenger<u8, SumHasher, 32>>;

type Bytes = MerkleCap<Goldilocks, [u8; 1]>;

// The values of the row of `ser64` over `sum`, which draws what is drawn here.
fn draws_after_lists<
    'a,
    C: CanObserve<Goldilocks>
        + CanObserve<[Goldilocks; 2]>
        + CanObserve<Hash<Goldilocks, u8, 1>>
        + CanObserve<Hash<Goldilocks, u64, 2>>
        + CanObserve<&'a Bytes>
        + CanSample<Goldilocks>,
>(challenger: &mut C, bytes: &'a Bytes) -> Result<bool, ChallengerError> {
    observe_one(challenger, Goldilocks::from_u64(258))?;
    observe_one(
        challenger,
        [Goldilocks::from_u64(1), Goldilocks::from_u64(2)],
    )?;
    observe_many(challenger, &[Hash::<Goldilocks, u8, 1>::from([9])])?;
    observe_many(challenger, &[Hash::<Goldilocks, u64, 2>::from([65535, 1])])?;
    observe_many(challenger, &[bytes])?;
    let drawn: Goldilocks = challenger.sample()?;
    Ok(drawn == Goldilocks::from_u64(3038570946151526449))
}

#[test]
fn arrays_and_slices_of_digests_are_observed_in_order(rt: HostRuntime) -> Result<(), Fail> {
    let initial_state = vec![in rt.alloc(); 1u8]?;
    let mut challenger: Long = Long::from_hasher(initial_state, SumHasher, 10);
    let bytes: Bytes = MerkleCap::new(vec![in rt.alloc(); [1u8], [2]]?);
    assert!(rt; draws_after_lists(&mut challenger, &bytes) == Ok(true));
    Ok(())
}

fn meets_the_limit<C: CanSample<BabyBear>>(challenger: &mut C) -> bool {
    challenger.sample() == Err(ChallengerError::DrawLimit)
}

// A draw that rejects every group of four bytes tries three of them.
#[test]
fn limit_is_met_after_so_many_bytes(rt: HostRuntime) {
    let bytes = [0xff; 13];
    let mut challenger: SerializingChallenger32<BabyBear, Supply<'_>> =
        SerializingChallenger32::new(Supply::new(&bytes), 3);
    assert!(rt; meets_the_limit(&mut challenger) && challenger.inner().left().len() == 1);
}
