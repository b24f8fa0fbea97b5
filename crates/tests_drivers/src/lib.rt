//! Tests of both drivers of a transcript, of what no script says: steps over a challenger that is lent, a protocol within
//! another, values of a type of one's own, code over either driver, and a driver that is halted.
#![tactic(auto)]

#[cfg(test)]
mod lent;
#[cfg(test)]
mod nested;
#[cfg(test)]
mod opaque;
#[cfg(test)]
mod serializing;
#[cfg(test)]
mod small_world;
