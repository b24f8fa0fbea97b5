//! Poseidon2, a permutation of field elements, for challengers over cells: 16 or 24 cells of BabyBear or KoalaBear, or
//! 8 or 12 of Goldilocks.
//!
//! Each permutation is proved equal to the definition in `specs/Poseidon2.antt` with the tables beside it, for one
//! state and for states in lanes. No contract says that the tables are those of other libraries: `docs/POSEIDON2.md`
//! states what is known of each.
#![tactic(auto)]

mod alone;
mod baby_bear_16;
mod baby_bear_24;
mod cells;
mod goldilocks_12;
mod goldilocks_8;
mod koala_bear_16;
mod koala_bear_24;
mod layers;
mod poseidon2;
mod rounds;
mod unreduced;
mod unreduced_layers;
mod unreduced_rounds;

pub use baby_bear_16::{Poseidon2BabyBear16, default_babybear_poseidon2_16};
pub use baby_bear_24::{Poseidon2BabyBear24, default_babybear_poseidon2_24};
pub use goldilocks_8::{Poseidon2Goldilocks8, default_goldilocks_poseidon2_8};
pub use goldilocks_12::{Poseidon2Goldilocks12, default_goldilocks_poseidon2_12};
pub use koala_bear_16::{Poseidon2KoalaBear16, default_koalabear_poseidon2_16};
pub use koala_bear_24::{Poseidon2KoalaBear24, default_koalabear_poseidon2_24};
pub use poseidon2::Poseidon2;
