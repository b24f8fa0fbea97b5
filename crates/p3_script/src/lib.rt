//! Scripts: the steps of a protocol as data that either driver plays. This crate defines scripts and the meaning of
//! steps.
#![tactic(auto)]

mod accept;
mod alike;
mod draws;
mod fault;
mod faults;
mod groups;
mod laws;
mod one_run;
mod reasons;
mod standing;
mod steps;
mod suite;

pub use accept::{AcceptAll, AcceptRule, Distinct};
pub use alike::play_alike;
pub use draws::unbound;
pub use fault::Fault;
pub use faults::faults_are_one;
pub use groups::{BitsPow, Both, Plain, StepGroup};
pub use laws::script_steps_are_lawful;
pub use one_run::proofs_have_one_run;
pub use reasons::script_steps_are_refused_for_one_reason;
pub use standing::{Standing, standing_of};
pub use steps::{Drawn, Received, Sent, Step};
pub use suite::{Meaning, Suite};
