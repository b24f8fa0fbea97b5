// Packing and digits, through the bound and at each bridge.
ghost use Rattle.std.specs.Prelude.{◌<◌};

use p3_field::{BabyBear, F257, FieldBridge, Goldilocks, KoalaBear, PrimeField64};

// The digit at a place of the element of a number.
fn digit_number<F: PrimeField64, PF: PrimeField64 + FieldBridge<F, PF>>(
    number: u64,
    place: usize,
) -> u64
    ensures { result < F.residues.order }
{
    PF::digit(PF::from_u64(number), place).as_canonical_u64()
}

// How many are packed and drawn, and the bits of each; the number that the first values pack to; and the first two digits
// of the element of a number.
fn bridge<F: PrimeField64, PF: PrimeField64 + FieldBridge<F, PF>>(
    values: [u64; 3],
    count: usize,
    number: u64,
) -> [u64; 6] {
    let [first, second, third] = values;
    let scalars = [F::from_u64(first), F::from_u64(second), F::from_u64(third)];
    let packed = PF::pack(&scalars[..count.min(3)]);
    [
        PF::absorb_num() as u64,
        PF::squeeze_num() as u64,
        u64::from(PF::RADIX_BITS),
        packed.as_canonical_u64(),
        digit_number::<F, PF>(number, 0),
        digit_number::<F, PF>(number, 1),
    ]
}

#[test]
fn each_bridge_packs_and_has_digits(rt: HostRuntime) {
    let last = 2130706432;
    let bridges = [
        bridge::<F257, BabyBear>([1, 2, 3], 3, 787459),
        bridge::<BabyBear, Goldilocks>([1, 2, 0], 2, 4294967297),
        bridge::<KoalaBear, Goldilocks>([last, 2, 0], 2, 4294967297),
        bridge::<BabyBear, BabyBear>([2, 0, 0], 1, 4),
        bridge::<KoalaBear, KoalaBear>([2, 0, 0], 0, last),
    ];
    let expected = [
        [3, 2, 9, 787457, 11, 237],
        [2, 1, 31, 4294967297, 268435455, 2],
        [2, 1, 31, 6425673728, 33554431, 2],
        [1, 1, 31, 2, 4, 0],
        [1, 1, 31, 0, last, 0],
    ];
    assert_eq!(rt; bridges, expected);
}
