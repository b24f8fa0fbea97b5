//! Keccak-f[1600] (FIPS 202, 3): a permutation of a state of 25 lanes, each of 64 bits.
ghost use Rattle.std.specs.{Prelude.{◌≡◌, ◌<◌, bit_xor}, Int.{w64, bit_not, rotate_left}};
ghost use Rattle.p3_keccak.specs.{Keccak.{keccak_f, round}, Rows.{row_of, theta_effects, two_complemented}};

// RC of each round (3.2.5).
const ROUND_CONSTANTS: [u64; 24] = [
    0x0000_0000_0000_0001,
    0x0000_0000_0000_8082,
    0x8000_0000_0000_808a,
    0x8000_0000_8000_8000,
    0x0000_0000_0000_808b,
    0x0000_0000_8000_0001,
    0x8000_0000_8000_8081,
    0x8000_0000_0000_8009,
    0x0000_0000_0000_008a,
    0x0000_0000_0000_0088,
    0x0000_0000_8000_8009,
    0x0000_0000_8000_000a,
    0x0000_0000_8000_808b,
    0x8000_0000_0000_008b,
    0x8000_0000_0000_8089,
    0x8000_0000_0000_8003,
    0x8000_0000_0000_8002,
    0x8000_0000_0000_0080,
    0x0000_0000_0000_800a,
    0x8000_0000_8000_000a,
    0x8000_0000_8000_8081,
    0x8000_0000_0000_8080,
    0x0000_0000_8000_0001,
    0x8000_0000_8000_8008,
];

// What θ adds to the lanes at each x (3.2.1).
#[inline(always)]
fn theta_effects(a: [u64; 25]) -> [u64; 5]
    ensures { result ≡ theta_effects a }
{
    let c0 = a[0] ^ a[5] ^ a[10] ^ a[15] ^ a[20];
    let c1 = a[1] ^ a[6] ^ a[11] ^ a[16] ^ a[21];
    let c2 = a[2] ^ a[7] ^ a[12] ^ a[17] ^ a[22];
    let c3 = a[3] ^ a[8] ^ a[13] ^ a[18] ^ a[23];
    let c4 = a[4] ^ a[9] ^ a[14] ^ a[19] ^ a[24];
    [
        c4 ^ c1.rotate_left(1),
        c0 ^ c2.rotate_left(1),
        c1 ^ c3.rotate_left(1),
        c2 ^ c4.rotate_left(1),
        c3 ^ c0.rotate_left(1),
    ]
}

// A word whose complement is the one given.
#[inline(always)]
fn complement(word: u64) -> u64
    ensures { bit_not w64 result ≡ word }
{
    !word
}

// A lane to which θ adds its effect, and which ρ rotates.
#[inline(always)]
fn moved(lane: u64, effect: u64, by: u32) -> u64
    ensures { result ≡ rotate_left w64 (bit_xor lane effect) by }
{
    (lane ^ effect).rotate_left(by)
}

// The complement of such a lane, where the effect is known by its complement.
#[inline(always)]
fn moved_complement(lane: u64, effect: u64, by: u32) -> u64
    ensures { bit_not w64 result ≡ rotate_left w64 (bit_xor lane (bit_not w64 effect)) by }
{
    (lane ^ effect).rotate_left(by)
}

// One row of a round's result, from the lanes that π puts there and what θ adds to them: ρ rotates each by its offset,
// and χ mixes the row. The second and the fourth effect come complemented, so that these two lanes do too: then χ takes
// two complements more in place of five.
#[inline(always)]
fn row(lanes: [u64; 5], effects: [u64; 5], by: [u32; 5]) -> [u64; 5]
    ensures { result ≡ row_of lanes (two_complemented effects) by }
{
    let b0 = moved(lanes[0], effects[0], by[0]);
    let not_b1 = moved_complement(lanes[1], effects[1], by[1]);
    let b2 = moved(lanes[2], effects[2], by[2]);
    let not_b3 = moved_complement(lanes[3], effects[3], by[3]);
    let b4 = moved(lanes[4], effects[4], by[4]);
    [
        b0 ^ (not_b1 & b2),
        not_b1 ^ (b2 | not_b3),
        b2 ^ (not_b3 & b4),
        not_b3 ^ (b4 | !b0),
        !b4 ^ (b0 | not_b1),
    ]
}

// One round (3.3): θ, then ρ, π and χ row by row, and ι. The offsets of ρ are reduced modulo 64.
#[inline(always)]
fn round(a: [u64; 25], index: usize) -> [u64; 25]
    requires { index < 24 }
    ensures { result ≡ round a index }
{
    let [d0, d1, d2, d3, d4] = theta_effects(a);
    let n0 = complement(d0);
    let n1 = complement(d1);
    let n2 = complement(d2);
    let n3 = complement(d3);
    let n4 = complement(d4);
    let [e0, e1, e2, e3, e4] = row(
        [a[0], a[6], a[12], a[18], a[24]],
        [d0, n1, d2, n3, d4],
        [0, 44, 43, 21, 14],
    );
    let [f0, f1, f2, f3, f4] = row(
        [a[3], a[9], a[10], a[16], a[22]],
        [d3, n4, d0, n1, d2],
        [28, 20, 3, 45, 61],
    );
    let [g0, g1, g2, g3, g4] = row(
        [a[1], a[7], a[13], a[19], a[20]],
        [d1, n2, d3, n4, d0],
        [1, 6, 25, 8, 18],
    );
    let [h0, h1, h2, h3, h4] = row(
        [a[4], a[5], a[11], a[17], a[23]],
        [d4, n0, d1, n2, d3],
        [27, 36, 10, 15, 56],
    );
    let [i0, i1, i2, i3, i4] = row(
        [a[2], a[8], a[14], a[15], a[21]],
        [d2, n3, d4, n0, d1],
        [62, 55, 39, 41, 2],
    );
    let e0 = e0 ^ ROUND_CONSTANTS[index];
    [
        e0, e1, e2, e3, e4, f0, f1, f2, f3, f4, g0, g1, g2, g3, g4, h0, h1, h2, h3, h4, i0, i1, i2,
        i3, i4,
    ]
}

/// Returns the state after Keccak-f[1600], which has 24 rounds (FIPS 202, 3.4). The loop makes two rounds in a turn, so
/// that lanes are moved half as often.
pub(crate) fn keccak_f(state: [u64; 25]) -> [u64; 25]
    ensures { result ≡ keccak_f state }
{
    let mut a = state;
    'rounds: for pair in 0..12 {
        let between = round(a, 2 * pair);
        let next = round(between, 2 * pair + 1);
        a = next;
    }
    a
}
