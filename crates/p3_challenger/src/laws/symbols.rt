//! What does a step feed to the challenger?

pub use p3_codecs::symbols_begin;
pub use p3_driver_core::{
    bit_draws_feed_nothing, bytes_feed_their_symbols, counted_values_feed_their_symbols,
    draws_feed_nothing, markers_and_hints_feed_nothing, opaque_values_feed_their_symbols,
    uniform_draws_feed_nothing, values_feed_their_symbols, work_feeds_its_witness,
};
