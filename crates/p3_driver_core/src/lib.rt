//! The parts that both drivers of a transcript share. They are the meanings of steps, their comparison with the
//! pattern, and the observation and draw of their values.
//!
//! A law is a function without effect whose contract a caller cites. The Rust crate has none.
#![tactic(auto)]

mod algebras;
mod bound;
mod bytes;
mod candidates;
mod counts;
mod feeding;
mod lists;
mod order;
mod rejecting;
mod steps;
mod symmetric;
mod uniform;
mod work;

pub use bound::{TranscriptBound, bind};
pub use bytes::slices_are_bytes;
pub use counts::{counted, counts_are_told, counts_take_the_least_width, observe_count};
pub use feeding::{
    bit_draws_feed_nothing, bytes_feed_their_symbols, counted_values_feed_their_symbols,
    draws_feed_nothing, markers_and_hints_feed_nothing, opaque_values_feed_their_symbols,
    uniform_draws_feed_nothing, values_feed_their_symbols, work_feeds_its_witness,
};
pub use lists::{bind_all, draw_numbers, draw_values, observe_values};
pub use order::{finished_players_refuse, listed_steps_are_next, next_steps_are_not_wrong};
pub use rejecting::{draw_accepted, rejecting_draws_keep_the_first_accepted};
pub use steps::Steps;
pub use symmetric::{Driver, SymmetricSteps};
pub use uniform::{
    draw_accepted_numbers, draw_uniform_numbers, rejecting_uniform_draws_keep_the_first_accepted,
};
pub use work::check_work;
