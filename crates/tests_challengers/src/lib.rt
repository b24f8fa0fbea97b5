//! Tests of hashers, permutations and challengers.
#![tactic(auto)]

#[cfg(test)]
mod counting;
#[cfg(test)]
mod kinds;
#[cfg(test)]
mod plain;
#[cfg(test)]
mod printed;
#[cfg(test)]
mod searches;
#[cfg(test)]
mod serializing;
#[cfg(test)]
mod sha256;
#[cfg(test)]
mod support;
#[cfg(test)]
mod symmetric;
#[cfg(test)]
mod uniform;
#[cfg(test)]
mod work;
