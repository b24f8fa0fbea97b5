//! Poseidon2 over BabyBear with 16 cells.
ghost use Rattle.std.specs.Prelude.{◌≡◌};
ghost use Rattle.p3_poseidon2.specs.Poseidon2.{permuted};
ghost use Rattle.p3_small_primes.specs.BabyBearResidues.{residues};
ghost use Rattle.p3_poseidon2.specs.BabyBear16 as table;

use crate::Poseidon2;
use crate::alone::Alone;
use crate::cells::{broadcast_each, elements_of, lane_each};
use p3_lanes::{BabyBearLanes, LanePermutation};
use p3_small_primes::BabyBear;
use p3_symmetric::CryptographicPermutation;

/// Poseidon2 over [`BabyBear`] with 16 cells: S-boxes of degree 7, 8 external rounds and 13 internal ones.
///
/// Intended to equal Plonky3's `Poseidon2BabyBear<16>`.
pub type Poseidon2BabyBear16 = Poseidon2<BabyBear, 16, 7, 13>;

// What the diagonal of the internal matrix has more than 1: -2, 1, 2, 1/2, 3, 4, -1/2, -3, -4, 1/2^8, 1/4, 1/8,
// 1/2^27, -1/2^8, -1/16, -1/2^27.
const DIAGONAL: [u32; 16] = [
    0x77ffffff, 0x00000001, 0x00000002, 0x3c000001, 0x00000003, 0x00000004, 0x3c000000, 0x77fffffe,
    0x77fffffd, 0x77880001, 0x5a000001, 0x69000001, 0x77fffff2, 0x00780000, 0x07800000, 0x0000000f,
];

// The constants of external round 0.
const INITIAL_0: [u32; 16] = [
    0x69cbb6af, 0x46ad93f9, 0x60a00f4e, 0x6b1297cd, 0x23189afe, 0x732e7bef, 0x72c246de, 0x2c941900,
    0x0557eede, 0x1580496f, 0x3a3ea77b, 0x54f3f271, 0x0f49b029, 0x47872fe1, 0x221e2e36, 0x1ab7202e,
];

// The constants of external round 1.
const INITIAL_1: [u32; 16] = [
    0x487779a6, 0x3851c9d8, 0x38dc17c0, 0x209f8849, 0x268dcee8, 0x350c48da, 0x5b9ad32e, 0x0523272b,
    0x3f89055b, 0x01e894b2, 0x13ddedde, 0x1b2ef334, 0x7507d8b4, 0x6ceeb94e, 0x52eb6ba2, 0x50642905,
];

// The constants of external round 2.
const INITIAL_2: [u32; 16] = [
    0x05453f3f, 0x06349efc, 0x6922787c, 0x04bfff9c, 0x768c714a, 0x3e9ff21a, 0x15737c9c, 0x2229c807,
    0x0d47f88c, 0x097e0ecc, 0x27eadba0, 0x2d7d29e4, 0x3502aaa0, 0x0f475fd7, 0x29fbda49, 0x018afffd,
];

// The constants of external round 3.
const INITIAL_3: [u32; 16] = [
    0x0315b618, 0x6d4497d1, 0x1b171d9e, 0x52861abd, 0x2e5d0501, 0x3ec8646c, 0x6e5f250a, 0x148ae8e6,
    0x17f5fa4a, 0x3e66d284, 0x0051aa3b, 0x483f7913, 0x2cfe5f15, 0x023427ca, 0x2cc78315, 0x1e36ea47,
];

// The constants of the internal rounds.
const INTERNAL: [u32; 13] = [
    0x5a8053c0, 0x693be639, 0x3858867d, 0x19334f6b, 0x128f0fd8, 0x4e2b1ccb, 0x61210ce0, 0x3c318939,
    0x0b5b2f22, 0x2edb11d5, 0x213effdf, 0x0cac4606, 0x241af16d,
];

// The constants of external round 4.
const TERMINAL_0: [u32; 16] = [
    0x7290a80d, 0x6f7e5329, 0x598ec8a8, 0x76a859a0, 0x6559e868, 0x657b83af, 0x13271d3f, 0x1f876063,
    0x0aeeae37, 0x706e9ca6, 0x46400cee, 0x72a05c26, 0x2c589c9e, 0x20bd37a7, 0x6a2d3d10, 0x20523767,
];

// The constants of external round 5.
const TERMINAL_1: [u32; 16] = [
    0x5b8fe9c4, 0x2aa501d6, 0x1e01ac3e, 0x1448bc54, 0x5ce5ad1c, 0x4918a14d, 0x2c46a83f, 0x4fcf6876,
    0x61d8d5c8, 0x6ddf4ff9, 0x11fda4d3, 0x02933a8f, 0x170eaf81, 0x5a9c314f, 0x49a12590, 0x35ec52a1,
];

// The constants of external round 6.
const TERMINAL_2: [u32; 16] = [
    0x58eb1611, 0x5e481e65, 0x367125c9, 0x0eba33ba, 0x1fc28ded, 0x066399ad, 0x0cbec0ea, 0x75fd1af0,
    0x50f5bf4e, 0x643d5f41, 0x6f4fe718, 0x5b3cbbde, 0x1e3afb3e, 0x296fb027, 0x45e1547b, 0x4a8db2ab,
];

// The constants of external round 7.
const TERMINAL_3: [u32; 16] = [
    0x59986d19, 0x30bcdfa3, 0x1db63932, 0x1d7c2824, 0x53b33681, 0x0673b747, 0x038a98a3, 0x2c5bce60,
    0x351979cd, 0x5008fb73, 0x547bca78, 0x711af481, 0x3f93bf64, 0x644d987b, 0x3c8bcd87, 0x608758b8,
];

impl CryptographicPermutation<[BabyBear; 16]> for Poseidon2<BabyBear, 16, 7, 13> {
    ghost permutation = { λ p cells.
        permuted residues 16 7 p.diagonal p.initial p.internal p.terminal cells };

    fn permute_mut(&self, state: &mut [BabyBear; 16]) {
        let mut cells = broadcast_each::<BabyBear, Alone<BabyBear>, 16>(state);
        self.permute_cells::<Alone<BabyBear>>(&mut cells);
        *state = lane_each::<BabyBear, Alone<BabyBear>, 16>(&cells, 0);
    }
}

impl LanePermutation<BabyBear, 16> for Poseidon2<BabyBear, 16, 7, 13> {
    fn permute_lanes(&self, state: &mut [BabyBearLanes; 16]) {
        self.permute_cells::<BabyBearLanes>(state);
    }
}

/// Returns Poseidon2 over [`BabyBear`] with 16 cells and the round constants of the papers' generator.
///
/// Intended to equal Plonky3's `default_babybear_poseidon2_16`.
pub fn default_babybear_poseidon2_16() -> Poseidon2BabyBear16
    ensures { ⟦<Poseidon2BabyBear16 as CryptographicPermutation<[BabyBear; 16]>>⟧.permutation result
        ≡ table.permutation }
{
    let diagonal = elements_of(&DIAGONAL);
    let initial = [
        elements_of(&INITIAL_0),
        elements_of(&INITIAL_1),
        elements_of(&INITIAL_2),
        elements_of(&INITIAL_3),
    ];
    let internal = elements_of(&INTERNAL);
    let terminal = [
        elements_of(&TERMINAL_0),
        elements_of(&TERMINAL_1),
        elements_of(&TERMINAL_2),
        elements_of(&TERMINAL_3),
    ];
    Poseidon2::new(diagonal, initial, internal, terminal)
}
