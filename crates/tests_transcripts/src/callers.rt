// The generic callers of the crate `uses`, at types that users have.
use p3_challenger::fs::{
    BytesToFieldCodec, DomainSeparator, FieldToFieldCodec, FieldUnit, Hierarchy, Interaction,
    InteractionPattern, Kind, Length, ProverState, TranscriptError, TypeTag,
};
use p3_challenger::laws::prefix_codes::hash_values_are_prefix_code;
use p3_challenger::{CanFinalizeDigest, CanObserve, DuplexChallenger, HashChallenger};
use p3_field::{BabyBear, F257, PrimeCharacteristicRing, PrimeField64};
use p3_symmetric::{Sha256Hasher, Turn};
use p3_test_support::{SmallSponge, element, small_sponge};
use std::alloc::Global;
use std::test::Fail;
use uses::own_algebra::Quartic;
use uses::{absorb_values, first_challenge, observe_and_draw, send_and_draw, symbols_bind_values};

type Bytes = HashChallenger<u8, Sha256Hasher, 32>;

type Scalars = BytesToFieldCodec<BabyBear>;

#[test]
fn values_and_a_message_are_absorbed_as_their_bytes(rt: HostRuntime) -> Result<(), Fail> {
    let first = BabyBear::from_u64(1952805748);
    let second = BabyBear::from_u64(7);
    let mut by_values: Bytes = HashChallenger::new(Vec::new(rt.alloc()), Sha256Hasher);
    absorb_values::<BabyBear, Scalars, u8, Bytes>(&mut by_values, &first, b"and", &second)?;
    let mut by_bytes: Bytes = HashChallenger::new(Vec::new(rt.alloc()), Sha256Hasher);
    by_bytes.observe_slice(b"testand\0\0\0\x07")?;
    assert_eq!(rt; by_values.finalize(), by_bytes.finalize());
    Ok(())
}

#[test]
fn a_value_and_arrays_are_observed_and_one_is_drawn(rt: HostRuntime) -> Result<(), Fail> {
    let mut sponge = small_sponge();
    let drawn: F257 = observe_and_draw::<F257, [F257; 1], F257, SmallSponge>(
        &mut sponge,
        element(5),
        &[[element(0)]],
    )?;
    assert_eq!(rt; drawn.as_canonical_u64(), 4);
    Ok(())
}

// The conditions of the law are met by scalars in a challenger of bytes.
#[test]
fn symbols_of_scalars_bind_them(_rt: HostRuntime) {
    hash_values_are_prefix_code::<u8, Sha256Hasher, 32>();
    symbols_bind_values::<BabyBear, Scalars, u8, Bytes>();
}

type Sponge = DuplexChallenger<F257, Turn<2>, 3, 2>;

type Prover = ProverState<Sponge, FieldUnit<F257>, Sha256Hasher>;

type Separator = DomainSeparator<FieldUnit<F257>, Sha256Hasher>;

type Elements = FieldToFieldCodec<F257>;

fn sponge() -> Sponge {
    DuplexChallenger::new(Turn, 10)
}

// The separator of the two steps of a round.
fn separator_of_a_round(alloc: Global) -> Result<Separator, TranscriptError> {
    let leaf = Hierarchy::Atomic;
    let sent = Interaction::algebra::<F257, F257, Sha256Hasher>(
        leaf,
        Kind::Message,
        "sent",
        Length::Scalar,
    );
    let drawn = sent.of_same_type(leaf, Kind::Challenge, "drawn", Length::Scalar);
    let pattern = InteractionPattern::new(vec![in alloc; sent, drawn]?)?;
    DomainSeparator::new(alloc, 1, b"round", pattern)
}

// The proof of a prover that sends 5, and what it draws.
fn sent_and_drawn(alloc: Global) -> Result<(Vec<u8>, F257), TranscriptError> {
    let separator = separator_of_a_round(alloc)?;
    let mut prover = Prover::new(alloc, sponge(), &separator)?;
    let drawn = send_and_draw::<F257, FieldUnit<F257>, Sponge, Sha256Hasher, Elements>(
        &mut prover,
        &element(5),
    );
    let proof = prover.finalize()?;
    Ok((proof, drawn?.into_inner()))
}

// After the seed the cells are 6, 2 and 131. With 5 and 0 written over the first two, and 1 added to the third, the
// turn makes 133, 7 and 3 of them, of which the second is drawn first.
#[test]
fn a_scalar_is_sent_and_one_is_drawn(rt: HostRuntime) -> Result<(), Fail> {
    let (proof, drawn) = sent_and_drawn(rt.alloc())?;
    assert_eq!(rt; proof.as_slice(), [0, 5].as_slice());
    assert_eq!(rt; drawn.as_canonical_u64(), 7);
    Ok(())
}

// The challenge after 256: with it and 0 in place of 5 and 0, the turn makes 133, 1 and 3.
fn drawn_first(alloc: Global) -> Result<F257, TranscriptError> {
    let separator = separator_of_a_round(alloc)?;
    let drawn = first_challenge::<F257, FieldUnit<F257>, Sponge, Sha256Hasher, Elements>(
        alloc,
        sponge(),
        &separator,
        &element(256),
    )?;
    Ok(drawn.into_inner())
}

#[test]
fn the_first_challenge_comes_after_the_scalar(rt: HostRuntime) -> Result<(), Fail> {
    assert_eq!(rt; drawn_first(rt.alloc())?.as_canonical_u64(), 1);
    Ok(())
}

// The digest of the pattern is that of its rendering under SHA-256, as Python's hashlib gives it.
#[test]
fn an_algebra_of_ones_own_is_hashed(rt: HostRuntime) -> Result<(), Fail> {
    let step = Interaction::algebra::<BabyBear, Quartic, Sha256Hasher>(
        Hierarchy::Atomic,
        Kind::Challenge,
        "x",
        Length::Scalar,
    );
    assert!(rt;
        matches!(
            step.type_tag(),
            TypeTag::Algebra {
                modulus: 2013265921,
                degree: 4,
                ..
            }
        )
    );
    let pattern = InteractionPattern::new(vec![in rt.alloc(); step]?)?;
    let digest = pattern.pattern_hash::<Sha256Hasher>()?;
    let wanted = "3824ead78f7a84e75df7b88b9a3daec6fa08f03d08d2b214103ed77c445d24b8";
    assert_eq!(rt; hex::encode(rt.alloc(), digest)?.as_str(), wanted);
    Ok(())
}
