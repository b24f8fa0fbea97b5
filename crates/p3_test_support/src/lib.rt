//! Support for tests: hash functions and challengers without any strength, whose results are easy to
//! compute by hand. The proofs of this crate compute the worked rows that need a field or a hash function.
#![tactic(auto)]

mod read_back;
mod recording_challenger;
mod sponges;
mod supply;
mod test_hashers;

pub use read_back::{length_hasher_collides, turn_collides};
pub use recording_challenger::RecordingChallenger;
pub use sponges::{SmallSponge, element, small_sponge};
pub use supply::Supply;
pub use test_hashers::{FixedHasher, LengthHasher, SumHasher, fixed_challenger, length_challenger};
