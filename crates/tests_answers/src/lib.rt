//! Tests of a prover that asks for its values.
#![tactic(auto)]

#[cfg(test)]
mod commit_phase;
