use p3_codecs::{EXTRA_BYTES, FieldUnit, MIN_CHALLENGE_SECURITY_BITS, Unit};
use p3_field::BabyBear;
use p3_fs_core::TranscriptField;
use p3_test_support::RecordingChallenger;
use std::cmp::Ordering;
use std::test::Fail;

#[test]
fn a_seed_is_a_byte_string(rt: HostRuntime) -> Result<(), Fail> {
    let mut by_seed = RecordingChallenger::new(rt.alloc());
    BabyBear::observe_seed(&mut by_seed, b"seed")?;
    let mut by_unit = RecordingChallenger::new(rt.alloc());
    FieldUnit::<BabyBear>::observe_bytes(&mut &mut by_unit, b"seed")?;
    assert_eq!(rt; by_seed.symbols(), by_unit.symbols());
    assert_eq!(rt; by_seed.symbols().len(), 3);
    Ok(())
}

#[test]
fn alphabets_of_one_field_are_equal(rt: HostRuntime) {
    let alphabet: FieldUnit<u8> = FieldUnit::default();
    let copy = alphabet;
    assert_eq!(rt; alphabet, copy);
    assert_eq!(rt; alphabet.cmp(&copy), Ordering::Equal);
}

#[test]
fn a_draw_is_nearly_uniform(rt: HostRuntime) {
    assert_eq!(rt; (EXTRA_BYTES, MIN_CHALLENGE_SECURITY_BITS), (16, 128));
}
