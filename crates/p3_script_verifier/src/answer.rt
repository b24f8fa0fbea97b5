//! The results of a verifier's step.
use p3_script::{Drawn, Received};

/// What a verifier receives at a step, and what it draws.
pub type Answer<'a, S> = (Option<Received<'a, S>>, Option<Drawn<S>>);
