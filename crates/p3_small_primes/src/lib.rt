//! Prime fields whose order is below 2^32: one type of elements for all of them, and three such
//! fields.
#![tactic(auto)]

mod baby_bear;
mod f257;
mod koala_bear;
mod small_prime;

pub use baby_bear::BabyBear;
pub use f257::F257;
pub use koala_bear::KoalaBear;
pub use small_prime::{SmallOrder, SmallPrime};
