//! Tests of the fields.
#![tactic(auto)]

#[cfg(test)]
mod bridges;
#[cfg(test)]
mod extensions;
#[cfg(test)]
mod lanes;
#[cfg(test)]
mod tests;
