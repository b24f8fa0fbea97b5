//! Definitions and lemmas, shared by the challengers, on values that a challenger's queries determine. This
//! crate has no code of its own.
#![tactic(auto)]
