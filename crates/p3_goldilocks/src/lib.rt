//! The prime field of order 2^64 - 2^32 + 1.
#![tactic(auto)]

mod goldilocks;

pub use goldilocks::Goldilocks;
