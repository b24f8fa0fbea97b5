//! Domain separators, which bind a transcript to a protocol, its pattern and the instance.
//!
//! A law is a function without effect whose contract a caller cites. The Rust crate has none.
#![tactic(auto)]

mod domain_separator;
mod separator_seeds;

pub use domain_separator::{
    DomainSeparator, PROTOCOL_ID_LEN, identifiers_are_injective, labels_are_injective,
    seeds_are_prefix_code,
};
pub use separator_seeds::separators_have_seeds;
