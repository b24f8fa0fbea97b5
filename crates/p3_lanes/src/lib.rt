//! Field elements side by side in lanes, with operations on all lanes at once, and permutations of
//! states side by side.
#![tactic(auto)]

mod goldilocks_lanes;
mod lane_numbers;
mod lane_permutation;
mod packed_field;
mod packed_value;
mod small_prime_lanes;
mod turn_in_lanes;

pub use goldilocks_lanes::GoldilocksLanes;
pub use lane_permutation::{LanePermutation, permute_each_lane};
pub use packed_field::PackedField;
pub use packed_value::PackedValue;
pub use small_prime_lanes::{BabyBearLanes, F257Lanes, KoalaBearLanes, SmallPrimeLanes};
