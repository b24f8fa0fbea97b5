//! What does a script's challenge bind, and is each proof a proof of a single run?

pub use p3_binding::binding;
pub use p3_script::{proofs_have_one_run, script_steps_are_lawful};
pub use p3_script_binding::{challenges_bind_what_came_before, equal_symbols_have_equal_values};
