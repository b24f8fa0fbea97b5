//! Laws of a transcript's steps: the encoding of what a verifier reads, and the reasons why a step is refused.
//!
//! A law is a function without effect whose contract a caller cites. The Rust crate has none.
#![tactic(auto)]

mod agreements;
mod encoded;
mod extensions;
mod limits;
mod memory;
mod mirrors;
mod reasons;
mod verifier_reasons;

pub use agreements::{
    carried_lists_are_let_through, carried_work_agrees, drawn_bits_agree, drawn_uniform_bits_agree,
    drawn_values_agree, ended_verifiers_are_not_refused, markers_agree,
    observed_counted_values_agree, observed_values_agree, opaque_values_agree,
};
pub use encoded::{
    read_bytes_are_encoded, read_hints_are_encoded, read_values_are_encoded, read_work_is_encoded,
};
pub use extensions::extensions_are_refused_for_one_reason;
pub use limits::{
    bit_draws_tell_limits, bytes_tell_limits, draws_tell_limits, markers_and_hints_tell_limits,
    opaque_values_tell_limits, uniform_draws_tell_limits, values_tell_limits, work_tells_limits,
};
pub use memory::{
    only_memory_refuses_drawn_bits, only_memory_refuses_drawn_uniform_bits,
    only_memory_refuses_drawn_values, only_memory_refuses_hints, only_memory_refuses_markers,
    only_memory_refuses_observed_values, only_memory_refuses_opaque_values,
    only_memory_refuses_sent_bytes, only_memory_refuses_sent_values,
};
pub use mirrors::{
    counted_hint_is_received, hint_is_received, sent_bytes_are_received,
    sent_counted_bytes_are_received, sent_counted_values_are_received, sent_value_is_received,
    sent_values_are_received, sent_work_is_received,
};
pub use reasons::{
    bit_draws_are_refused_for_one_reason, bytes_are_refused_for_one_reason,
    draws_are_refused_for_one_reason, hints_are_refused_for_one_reason,
    markers_are_refused_for_one_reason, opaque_values_are_refused_for_one_reason,
    uniform_draws_are_refused_for_one_reason, values_are_refused_for_one_reason,
};
pub use verifier_reasons::{
    bytes_are_unread_for_one_reason, carried_lists_are_refused_for_one_reason,
    hints_are_unread_for_one_reason, values_are_unread_for_one_reason,
    work_is_refused_for_one_reason,
};
