//! Does a verifier accept each step that a prover has played?

pub use p3_step_laws::{
    carried_lists_are_let_through, carried_work_agrees, counted_hint_is_received, drawn_bits_agree,
    drawn_uniform_bits_agree, drawn_values_agree, hint_is_received, markers_agree,
    observed_counted_values_agree, observed_values_agree, opaque_values_agree,
    sent_bytes_are_received, sent_counted_bytes_are_received, sent_counted_values_are_received,
    sent_value_is_received, sent_values_are_received, sent_work_is_received,
};
