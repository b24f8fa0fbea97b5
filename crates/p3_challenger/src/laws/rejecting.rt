//! Which candidates does a rejecting draw keep?

pub use p3_driver_core::{
    rejecting_draws_keep_the_first_accepted, rejecting_uniform_draws_keep_the_first_accepted,
};
