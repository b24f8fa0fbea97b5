//! What does a sequence of calls do to a challenger?

pub use p3_challenger_core::{array_has_places, calls_have_one_cut};
