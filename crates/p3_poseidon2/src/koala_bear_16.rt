//! Poseidon2 over KoalaBear with 16 cells.
ghost use Rattle.std.specs.Prelude.{◌≡◌};
ghost use Rattle.p3_poseidon2.specs.Poseidon2.{permuted};
ghost use Rattle.p3_small_primes.specs.KoalaBearResidues.{residues};
ghost use Rattle.p3_poseidon2.specs.KoalaBear16 as table;

use crate::Poseidon2;
use crate::alone::Alone;
use crate::cells::{broadcast_each, elements_of, lane_each};
use p3_lanes::{KoalaBearLanes, LanePermutation};
use p3_small_primes::KoalaBear;
use p3_symmetric::CryptographicPermutation;

/// Poseidon2 over [`KoalaBear`] with 16 cells: S-boxes of degree 3, 8 external rounds and 20 internal ones.
///
/// Intended to equal Plonky3's `Poseidon2KoalaBear<16>`.
pub type Poseidon2KoalaBear16 = Poseidon2<KoalaBear, 16, 3, 20>;

// What the diagonal of the internal matrix has more than 1: -2, 1, 2, 1/2, 3, 4, -1/2, -3, -4, 1/2^8, 1/8, 1/2^24,
// -1/2^8, -1/8, -1/16, -1/2^24.
const DIAGONAL: [u32; 16] = [
    0x7effffff, 0x00000001, 0x00000002, 0x3f800001, 0x00000003, 0x00000004, 0x3f800000, 0x7efffffe,
    0x7efffffd, 0x7e810001, 0x6f200001, 0x7effff82, 0x007f0000, 0x0fe00000, 0x07f00000, 0x0000007f,
];

// The constants of external round 0.
const INITIAL_0: [u32; 16] = [
    0x7ee56a48, 0x11367045, 0x12e41941, 0x7ebbc12b, 0x1970b7d5, 0x662b60e8, 0x3e4990c6, 0x679f91f5,
    0x350813bb, 0x00874ad4, 0x28a0081a, 0x18fa5872, 0x5f25b071, 0x5e5d5998, 0x5e6fd3e7, 0x5b2e2660,
];

// The constants of external round 1.
const INITIAL_1: [u32; 16] = [
    0x6f1837bf, 0x3fe6182b, 0x1edd7ac5, 0x57470d00, 0x43d486d5, 0x1982c70f, 0x0ea53af9, 0x61d6165b,
    0x51639c00, 0x2dec352c, 0x2950e531, 0x2d2cb947, 0x08256cef, 0x1a0109f6, 0x1f51faf3, 0x5cef1c62,
];

// The constants of external round 2.
const INITIAL_2: [u32; 16] = [
    0x3d65e50e, 0x33d91626, 0x133d5a1e, 0x0ff49b0d, 0x38900cd1, 0x2c22cc3f, 0x28852bb2, 0x06c65a02,
    0x7b2cf7bc, 0x68016e1a, 0x15e16bc0, 0x5248149a, 0x6dd212a0, 0x18d6830a, 0x5001be82, 0x64dac34e,
];

// The constants of external round 3.
const INITIAL_3: [u32; 16] = [
    0x5902b287, 0x426583a0, 0x0c921632, 0x3fe028a5, 0x245f8e49, 0x43bb297e, 0x7873dbd9, 0x3cc987df,
    0x286bb4ce, 0x640a8dcd, 0x512a8e36, 0x03a4cf55, 0x481837a2, 0x03d6da84, 0x73726ac7, 0x760e7fdf,
];

// The constants of the internal rounds.
const INTERNAL: [u32; 20] = [
    0x54dfeb5d, 0x7d40afd6, 0x722cb316, 0x106a4573, 0x45a7ccdb, 0x44061375, 0x154077a5, 0x45744faa,
    0x4eb5e5ee, 0x3794e83f, 0x47c7093c, 0x5694903c, 0x69cb6299, 0x373df84c, 0x46a0df58, 0x46b8758a,
    0x3241ebcb, 0x0b09d233, 0x1af42357, 0x1e66cec2,
];

// The constants of external round 4.
const TERMINAL_0: [u32; 16] = [
    0x43e7dc24, 0x259a5d61, 0x27e85a3b, 0x1b9133fa, 0x343e5628, 0x485cd4c2, 0x16e269f5, 0x165b60c6,
    0x25f683d9, 0x124f81f9, 0x174331f9, 0x77344dc5, 0x5a821dba, 0x5fc4177f, 0x54153bf5, 0x5e3f1194,
];

// The constants of external round 5.
const TERMINAL_1: [u32; 16] = [
    0x3bdbf191, 0x088c84a3, 0x68256c9b, 0x3c90bbc6, 0x6846166a, 0x03f4238d, 0x463335fb, 0x5e3d3551,
    0x6e59ae6f, 0x32d06cc0, 0x596293f3, 0x6c87edb2, 0x08fc60b5, 0x34bcca80, 0x24f007f3, 0x62731c6f,
];

// The constants of external round 6.
const TERMINAL_2: [u32; 16] = [
    0x1e1db6c6, 0x0ca409bb, 0x585c1e78, 0x56e94edc, 0x16d22734, 0x18e11467, 0x7b2c3730, 0x770075e4,
    0x35d1b18c, 0x22be3db5, 0x4fb1fbb7, 0x477cb3ed, 0x7d5311c6, 0x5b62ae7d, 0x559c5fa8, 0x77f15048,
];

// The constants of external round 7.
const TERMINAL_3: [u32; 16] = [
    0x3211570b, 0x490fef6a, 0x77ec311f, 0x2247171b, 0x4e0ac711, 0x2edf69c9, 0x3b5a8850, 0x65809421,
    0x5619b4aa, 0x362019a7, 0x6bf9d4ed, 0x5b413dff, 0x617e181e, 0x5e7ab57b, 0x33ad7833, 0x3466c7ca,
];

impl CryptographicPermutation<[KoalaBear; 16]> for Poseidon2<KoalaBear, 16, 3, 20> {
    ghost permutation = { λ p cells.
        permuted residues 16 3 p.diagonal p.initial p.internal p.terminal cells };

    fn permute_mut(&self, state: &mut [KoalaBear; 16]) {
        let mut cells = broadcast_each::<KoalaBear, Alone<KoalaBear>, 16>(state);
        self.permute_cells::<Alone<KoalaBear>>(&mut cells);
        *state = lane_each::<KoalaBear, Alone<KoalaBear>, 16>(&cells, 0);
    }
}

impl LanePermutation<KoalaBear, 16> for Poseidon2<KoalaBear, 16, 3, 20> {
    fn permute_lanes(&self, state: &mut [KoalaBearLanes; 16]) {
        self.permute_cells::<KoalaBearLanes>(state);
    }
}

/// Returns Poseidon2 over [`KoalaBear`] with 16 cells and the round constants of the papers' generator.
///
/// Intended to equal Plonky3's `default_koalabear_poseidon2_16`.
pub fn default_koalabear_poseidon2_16() -> Poseidon2KoalaBear16
    ensures { ⟦<Poseidon2KoalaBear16 as CryptographicPermutation<[KoalaBear; 16]>>⟧.permutation result
        ≡ table.permutation }
{
    let diagonal = elements_of(&DIAGONAL);
    let initial = [
        elements_of(&INITIAL_0),
        elements_of(&INITIAL_1),
        elements_of(&INITIAL_2),
        elements_of(&INITIAL_3),
    ];
    let internal = elements_of(&INTERNAL);
    let terminal = [
        elements_of(&TERMINAL_0),
        elements_of(&TERMINAL_1),
        elements_of(&TERMINAL_2),
        elements_of(&TERMINAL_3),
    ];
    Poseidon2::new(diagonal, initial, internal, terminal)
}
