// Sums, differences, products and negations against arithmetic of whole numbers in 128 bits, one at a time and in lanes;
// and what is put into lanes and taken out of them.
ghost use Rattle.std.specs.Prelude.{◌<◌};

use p3_field::{BabyBear, F257, Goldilocks, KoalaBear, PrimeField64};
use p3_lanes::{PackedField, PackedValue};

// Pairs of numbers below an order, each at a place.
#[derive(Clone, Copy)]
enum Pairs {
    // All there are, from 0 and 0 on.
    All,
    // Those of numbers near the ends, the middle and the powers of 2.
    OfEdges,
    // Those of numbers of all sizes, that are strewn by multiplications that wrap.
    Strewn,
}

// The elements in eight lanes, 0 where there are fewer: 0 to 7 in order, but for a 100 in the place of 1.
const IN_FOUR: [u64; 8] = [0, 100, 2, 3, 0, 0, 0, 0];

const IN_EIGHT: [u64; 8] = [0, 100, 2, 3, 4, 5, 6, 7];

#[test]
fn each_field_has_lanes(rt: HostRuntime) {
    let seen = [
        (disagreement::<F257>(257), replaced::<F257>()),
        (disagreement::<BabyBear>(2013265921), replaced::<BabyBear>()),
        (
            disagreement::<KoalaBear>(2130706433),
            replaced::<KoalaBear>(),
        ),
        (
            disagreement::<Goldilocks>(18446744069414584321),
            replaced::<Goldilocks>(),
        ),
    ];
    let expected = [
        (None, IN_FOUR),
        (None, IN_EIGHT),
        (None, IN_EIGHT),
        (None, IN_FOUR),
    ];
    assert_eq!(rt; seen, expected);
}

// The first of all pairs, where there are not too many, and else of edges and of strewn numbers, on which the lanes do not
// have what the plain operations and whole numbers give.
fn disagreement<F: PrimeField64 + PackedField>(order: u64) -> Option<(u64, u64)>
    requires { 4 < order }
{
    if order < 1000 {
        return disagreement_among::<F>(order, Pairs::All, order.saturating_mul(order));
    }
    match disagreement_among::<F>(order, Pairs::OfEdges, 169) {
        None => disagreement_among::<F>(order, Pairs::Strewn, 100_000),
        found => found,
    }
}

// The numbers in the lanes, and 0 where there are no lanes.
fn numbers_in<F: PrimeField64 + PackedField>(lanes: F::Packing) -> [u64; 8] {
    let mut numbers = [0; 8];
    for lane in 0..8 {
        if lane < F::Packing::WIDTH {
            numbers[lane] = lanes.lane(lane).as_canonical_u64();
        }
    }
    numbers
}

// Each lane has its own place, but for one that has 100.
fn replaced<F: PrimeField64 + PackedField>() -> [u64; 8] {
    let places = F::Packing::from_fn(|lane| F::from_u64(lane as u64));
    let lanes = if 1 < F::Packing::WIDTH {
        places.with_lane(1, F::from_u8(100))
    } else {
        places
    };
    numbers_in::<F>(lanes)
}

// The first of so many pairs on which they do not.
fn disagreement_among<F: PrimeField64 + PackedField>(
    order: u64,
    pairs: Pairs,
    count: u64,
) -> Option<(u64, u64)>
    requires { 4 < order }
{
    for first in (0..count).step_by(F::Packing::WIDTH) {
        let (mut x, mut y) = (
            F::Packing::broadcast(F::ZERO),
            F::Packing::broadcast(F::ZERO),
        );
        for lane in 0..F::Packing::WIDTH {
            let (left, right) = pair_at(pairs, order, first.wrapping_add(lane as u64));
            x = x.with_lane(lane, F::from_u64(left));
            y = y.with_lane(lane, F::from_u64(right));
        }
        let (sums, differences, products) = (x + y, x - y, x * y);
        for lane in 0..F::Packing::WIDTH {
            let (left, right) = pair_at(pairs, order, first.wrapping_add(lane as u64));
            let results = (sums.lane(lane), differences.lane(lane), products.lane(lane));
            if !agrees::<F>(left, right, order, results) {
                return Some((left, right));
            }
        }
    }
    None
}

// Whether these are the sum, the difference and the product of two numbers, as the plain operations and as whole numbers
// have them, and whether the second one is negated as whole numbers are.
fn agrees<F: PrimeField64>(left: u64, right: u64, order: u64, results: (F, F, F)) -> bool
    requires { 0 < order }
{
    let (x, y) = (F::from_u64(left), F::from_u64(right));
    let (a, b, n) = (u128::from(left), u128::from(right), u128::from(order));
    let negated = n - b % n;
    let (sum, difference, product) = results;
    sum == x + y
        && difference == x - y
        && product == x * y
        && u128::from(sum.as_canonical_u64()) == (a + b) % n
        && u128::from(difference.as_canonical_u64()) == (a + negated) % n
        && u128::from(product.as_canonical_u64()) == a * b % n
        && u128::from((F::ZERO - y).as_canonical_u64()) == negated % n
        && u128::from((y * F::NEG_ONE).as_canonical_u64()) == negated % n
}

// The pair at a place.
fn pair_at(pairs: Pairs, order: u64, place: u64) -> (u64, u64)
    requires { 4 < order }
{
    match pairs {
        Pairs::All => (place / order % order, place % order),
        Pairs::OfEdges => {
            let edges = edges_below(order);
            (
                edges[(place / 13 % 13) as usize],
                edges[(place % 13) as usize],
            )
        }
        Pairs::Strewn => {
            let twice = place.wrapping_mul(2);
            (strewn(twice) % order, strewn(twice.wrapping_add(1)) % order)
        }
    }
}

// Numbers near the ends, the middle and the powers of 2.
fn edges_below(order: u64) -> [u64; 13]
    requires { 4 < order }
{
    [
        0,
        1,
        2,
        order / 2,
        order / 2 + 1,
        order - 2,
        order - 1,
        0x7fff_ffff % order,
        0x8000_0000 % order,
        0xffff_ffff % order,
        0x1_0000_0000 % order,
        0x8000_0000_0000_0000 % order,
        0xffff_ffff_ffff_ffff % order,
    ]
}

fn strewn(number: u64) -> u64 {
    let mixed = number.wrapping_mul(0x9e37_79b9_7f4a_7c15);
    let mixed = (mixed ^ (mixed >> 30)).wrapping_mul(0xbf58_476d_1ce4_e5b9);
    mixed ^ (mixed >> 31)
}
