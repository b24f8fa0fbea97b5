//! Tests of sumchecks on both drivers.
#![tactic(auto)]

#[cfg(test)]
mod large_table;
#[cfg(test)]
mod sides;
#[cfg(test)]
mod small_tables;
