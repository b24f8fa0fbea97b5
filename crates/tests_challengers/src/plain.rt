// Each search beside the plain one, which tries every candidate on a copy of the challenger. Copies of challengers that hash
// take memory, which is there: a copy that is always refused would end a test.
use crate::kinds::{Trial, duplex_passes, multi_field_passes, serializing_passes};
use crate::support::observe_one;
use p3_challenger_core::{CanSample, ChallengerError};
use p3_duplex::DuplexChallenger;
use p3_field::{BabyBear, F257, PrimeCharacteristicRing, PrimeField64};
use p3_grinding::{CanCopy, GrindingChallenger, least_witness};
use p3_hash_challenger::HashChallenger;
use p3_multi_field::MultiField32Challenger;
use p3_serializing::{SerializingChallenger32, SerializingChallenger64};
use p3_symmetric::{Sha256Hasher, Turn};
use std::process::Abort;

type Sponge<const K: usize> = DuplexChallenger<F257, Turn<K>, 3, 2>;

type TwoFields = MultiField32Challenger<F257, BabyBear, Turn<2>, 3, 2>;

type Bytes = HashChallenger<u8, Sha256Hasher, 32>;

// More groups of bytes than a draw has refused here.
const DRAW_LIMIT: u64 = 1000;

// Whether two challengers draw alike.
fn draw_alike<F: PrimeField64, C: CanSample<F>>(
    one: &mut C,
    other: &mut C,
) -> Result<bool, ChallengerError> {
    for _ in 0..5 {
        if one.sample()? != other.sample()? {
            return Ok(false);
        }
    }
    Ok(true)
}

// Whether the search for so many bits finds what the plain one finds, and leaves what it leaves.
fn finds_alike<C: CanCopy + GrindingChallenger + CanSample<C::Witness>>(
    challenger: &C,
    bits: usize,
) -> Result<bool, ChallengerError> {
    let bits = C::max_bits().min(bits);
    let mut quick = challenger.copy()?;
    let mut plain = challenger.copy()?;
    let found = quick.grind(bits);
    Ok(
        found == least_witness(&mut plain, bits)
            && draw_alike::<C::Witness, C>(&mut quick, &mut plain)?,
    )
}

/// Whether it does for each number of bits, with nothing pending and with one value.
pub fn searches_alike<C: CanCopy + GrindingChallenger + CanSample<C::Witness>>(
    mut challenger: C,
) -> Result<bool, ChallengerError> {
    let mut alike = true;
    for bits in 0..9 {
        alike = finds_alike(&challenger, bits)? && alike;
    }
    observe_one(&mut challenger, C::Witness::from_u64(5))?;
    for bits in 0..9 {
        alike = finds_alike(&challenger, bits)? && alike;
    }
    Ok(alike)
}

#[test]
fn searches_find_what_plain_ones_find(rt: HostRuntime) {
    let one: Sponge<1> = DuplexChallenger::new(Turn, 10);
    assert!(rt; duplex_passes(one, Trial::Plain) == Ok(true));
    let two: Sponge<2> = DuplexChallenger::new(Turn, 10);
    assert!(rt; duplex_passes(two, Trial::Plain) == Ok(true));
    let made: Result<TwoFields, _> = MultiField32Challenger::new(Turn);
    let fields = made.expect(&rt, "these fields make a challenger");
    assert!(rt; multi_field_passes(fields, Trial::Plain) == Ok(true));
}

#[test]
fn searches_over_hashes_find_what_plain_ones_find(rt: HostRuntime) {
    let inner: Bytes = HashChallenger::new(Vec::new(rt.alloc()), Sha256Hasher);
    let narrow: SerializingChallenger32<F257, Bytes> = SerializingChallenger32::new(
        inner, DRAW_LIMIT,
    );
    assert!(rt; serializing_passes(narrow, Trial::Plain) == Ok(true));
    let inner: Bytes = HashChallenger::new(Vec::new(rt.alloc()), Sha256Hasher);
    let wide: SerializingChallenger64<F257, Bytes> = SerializingChallenger64::new(
        inner, DRAW_LIMIT,
    );
    assert!(rt; serializing_passes(wide, Trial::Plain) == Ok(true));
}
