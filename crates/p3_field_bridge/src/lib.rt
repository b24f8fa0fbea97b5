//! Bridges between prime fields: elements of one packed into an element of another, and the digits of an
//! element.
//!
//! A law is a function without effect whose contract a caller cites. The Rust crate has none.
#![tactic(auto)]

mod baby_bear_in_baby_bear;
mod baby_bear_in_goldilocks;
mod bridge;
mod f257_in_baby_bear;
mod koala_bear_in_goldilocks;
mod koala_bear_in_koala_bear;
mod laws;

pub use bridge::FieldBridge;
pub use laws::{digits_are_any, digits_tell_elements, packing_is_injective};
