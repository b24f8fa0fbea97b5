//! Tests of typed transcripts: alphabets, steps, patterns, separators, of the program, and of generic callers. What rows
//! can say of them is in `conformance`.
#![tactic(auto)]

#[cfg(test)]
mod alphabets;
#[cfg(test)]
mod callers;
#[cfg(test)]
mod domain_separator;
#[cfg(test)]
mod errors;
#[cfg(test)]
mod patterns;
#[cfg(test)]
mod program;
#[cfg(test)]
mod recorders;
#[cfg(test)]
mod steps;
