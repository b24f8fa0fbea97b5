//! What else can refuse a step that the other side has played?

pub use p3_step_laws::{
    only_memory_refuses_drawn_bits, only_memory_refuses_drawn_uniform_bits,
    only_memory_refuses_drawn_values, only_memory_refuses_hints, only_memory_refuses_markers,
    only_memory_refuses_observed_values, only_memory_refuses_opaque_values,
    only_memory_refuses_sent_bytes, only_memory_refuses_sent_values,
};
