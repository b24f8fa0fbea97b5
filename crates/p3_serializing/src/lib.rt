//! Challengers of field elements over a challenger of bytes: an element is observed as its bytes, and drawn from
//! groups of bytes.
//!
//! A law is a function without effect whose contract a caller cites. The Rust crate has none.
#![tactic(auto)]

mod challenger;
mod groups;
mod prefix_code;
mod serialized_in;
mod state;

pub use challenger::{SerializingChallenger, SerializingChallenger32, SerializingChallenger64};
pub use prefix_code::{serialized_digests_are_prefix_code, serialized_elements_are_prefix_code};
pub use serialized_in::SerializedIn;
pub use state::SerializingState;
