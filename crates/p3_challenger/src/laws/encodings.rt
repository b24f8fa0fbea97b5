//! Does each value have exactly one encoding, and are the bytes read that encoding?

pub use p3_step_laws::{
    read_bytes_are_encoded, read_hints_are_encoded, read_values_are_encoded, read_work_is_encoded,
};
