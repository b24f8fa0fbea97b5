//! Poseidon2 over Goldilocks with 8 cells.
ghost use Rattle.std.specs.Prelude.{◌≡◌};
ghost use Rattle.p3_poseidon2.specs.Poseidon2.{permuted};
ghost use Rattle.p3_goldilocks.specs.GoldilocksResidues.{residues};
ghost use Rattle.p3_poseidon2.specs.Goldilocks8 as table;

use crate::Poseidon2;
use crate::cells::wide_elements_of;
use p3_goldilocks::Goldilocks;
use p3_lanes::{GoldilocksLanes, LanePermutation, permute_each_lane};
use p3_symmetric::CryptographicPermutation;

/// Poseidon2 over [`Goldilocks`] with 8 cells: S-boxes of degree 7, 8 external rounds and 22 internal ones.
///
/// Intended to equal Plonky3's `Poseidon2Goldilocks<8>`.
pub type Poseidon2Goldilocks8 = Poseidon2<Goldilocks, 8, 7, 22>;

// What the diagonal of the internal matrix has more than 1.
const DIAGONAL: [u64; 8] = [
    0xa98811a1fed4e3a5,
    0x1cc48b54f377e2a0,
    0xe40cd4f6c5609a26,
    0x11de79ebca97a4a3,
    0x9177c73d8b7e929c,
    0x2a6fe8085797e791,
    0x3de6e93329f8d5ad,
    0x3f7af9125da962fe,
];

// The constants of external round 0.
const INITIAL_0: [u64; 8] = [
    0xdd5743e7f2a5a5d9,
    0xcb3a864e58ada44b,
    0xffa2449ed32f8cdc,
    0x42025f65d6bd13ee,
    0x7889175e25506323,
    0x34b98bb03d24b737,
    0xbdcc535ecc4faa2a,
    0x5b20ad869fc0d033,
];

// The constants of external round 1.
const INITIAL_1: [u64; 8] = [
    0xf1dda5b9259dfcb4,
    0x27515210be112d59,
    0x4227d1718c766c3f,
    0x26d333161a5bd794,
    0x49b938957bf4b026,
    0x4a56b5938b213669,
    0x1120426b48c8353d,
    0x6b323c3f10a56cad,
];

// The constants of external round 2.
const INITIAL_2: [u64; 8] = [
    0xce57d6245ddca6b2,
    0xb1fc8d402bba1eb1,
    0xb5c5096ca959bd04,
    0x6db55cd306d31f7f,
    0xc49d293a81cb9641,
    0x1ce55a4fe979719f,
    0xa92e60a9d178a4d1,
    0x002cc64973bcfd8c,
];

// The constants of external round 3.
const INITIAL_3: [u64; 8] = [
    0xcea721cce82fb11b,
    0xe5b55eb8098ece81,
    0x4e30525c6f1ddd66,
    0x43c6702827070987,
    0xaca68430a7b5762a,
    0x3674238634df9c93,
    0x88cee1c825e33433,
    0xde99ae8d74b57176,
];

// The constants of the internal rounds.
const INTERNAL: [u64; 22] = [
    0x488897d85ff51f56,
    0x1140737ccb162218,
    0xa7eeb9215866ed35,
    0x9bd2976fee49fcc9,
    0xc0c8f0de580a3fcc,
    0x4fb2dae6ee8fc793,
    0x343a89f35f37395b,
    0x223b525a77ca72c8,
    0x56ccb62574aaa918,
    0xc4d507d8027af9ed,
    0xa080673cf0b7e95c,
    0xf0184884eb70dcf8,
    0x044f10b0cb3d5c69,
    0xe9e3f7993938f186,
    0x1b761c80e772f459,
    0x606cec607a1b5fac,
    0x14a0c2e1d45f03cd,
    0x4eace8855398574f,
    0xf905ca7103eff3e6,
    0xf8c8f8d20862c059,
    0xb524fe8bdd678e5a,
    0xfbb7865901a1ec41,
];

// The constants of external round 4.
const TERMINAL_0: [u64; 8] = [
    0x014ef1197d341346,
    0x9725e20825d07394,
    0xfdb25aef2c5bae3b,
    0xbe5402dc598c971e,
    0x93a5711f04cdca3d,
    0xc45a9a5b2f8fb97b,
    0xfe8946a924933545,
    0x2af997a27369091c,
];

// The constants of external round 5.
const TERMINAL_1: [u64; 8] = [
    0xaa62c88e0b294011,
    0x058eb9d810ce9f74,
    0xb3cb23eced349ae4,
    0xa3648177a77b4a84,
    0x43153d905992d95d,
    0xf4e2a97cda44aa4b,
    0x5baa2702b908682f,
    0x082923bdf4f750d1,
];

// The constants of external round 6.
const TERMINAL_2: [u64; 8] = [
    0x98ae09a325893803,
    0xf8a6475077968838,
    0xceb0735bf00b2c5f,
    0x0a1a5d953888e072,
    0x2fcb190489f94475,
    0xb5be06270dec69fc,
    0x739cb934b09acf8b,
    0x537750b75ec7f25b,
];

// The constants of external round 7.
const TERMINAL_3: [u64; 8] = [
    0xe9dd318bae1f3961,
    0xf7462137299efe1a,
    0xb1f6b8eee9adb940,
    0xbdebcc8a809dfe6b,
    0x40fc1f791b178113,
    0x3ac1c3362d014864,
    0x9a016184bdb8aeba,
    0x95f2394459fbc25e,
];

impl CryptographicPermutation<[Goldilocks; 8]> for Poseidon2<Goldilocks, 8, 7, 22> {
    ghost permutation = { λ p cells.
        permuted residues 8 7 p.diagonal p.initial p.internal p.terminal cells };

    fn permute_mut(&self, state: &mut [Goldilocks; 8]) {
        self.permute_unreduced(state);
    }
}

impl LanePermutation<Goldilocks, 8> for Poseidon2<Goldilocks, 8, 7, 22> {
    fn permute_lanes(&self, state: &mut [GoldilocksLanes; 8]) {
        permute_each_lane::<Goldilocks, Self, 8>(self, state);
    }
}

/// Returns Poseidon2 over [`Goldilocks`] with 8 cells and the round constants of the papers' generator.
///
/// Intended to equal Plonky3's `default_goldilocks_poseidon2_8`.
pub fn default_goldilocks_poseidon2_8() -> Poseidon2Goldilocks8
    ensures { ⟦<Poseidon2Goldilocks8 as CryptographicPermutation<[Goldilocks; 8]>>⟧.permutation result
        ≡ table.permutation }
{
    let diagonal = wide_elements_of(&DIAGONAL);
    let initial = [
        wide_elements_of(&INITIAL_0),
        wide_elements_of(&INITIAL_1),
        wide_elements_of(&INITIAL_2),
        wide_elements_of(&INITIAL_3),
    ];
    let internal = wide_elements_of(&INTERNAL);
    let terminal = [
        wide_elements_of(&TERMINAL_0),
        wide_elements_of(&TERMINAL_1),
        wide_elements_of(&TERMINAL_2),
        wide_elements_of(&TERMINAL_3),
    ];
    Poseidon2::new(diagonal, initial, internal, terminal)
}
