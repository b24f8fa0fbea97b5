// The challengers that calls of a line are made on.
use crate::subject::Way;
use crate::{duplex, hash, multi_field, serializing};
use anyhow::{Result, bail};
use conformance_tokens::line::Step;
use conformance_tokens::tokens::split_name;
use std::alloc::Global;

/// The first call with another answer, on a new challenger: `duplex F K W R`, `hash H [HEX]`, `ser32 F H [HEX]`,
/// `ser64 F H [HEX]`, or `multi F G K W R`. After the word `by-reference` each call is made on a reference to it, if
/// there is one: a reference has no proof of work on uniform bits, and no search for a candidate.
pub fn difference(
    alloc: Global,
    spec: &str,
    steps: &[Step<'_>],
) -> Result<Option<(usize, String)>> {
    match split_name(spec) {
        ("by-reference", spec) => difference_by_way(alloc, Way::ByReference, spec, steps),
        _ => difference_by_way(alloc, Way::Direct, spec, steps),
    }
}

fn difference_by_way(
    alloc: Global,
    way: Way,
    spec: &str,
    steps: &[Step<'_>],
) -> Result<Option<(usize, String)>> {
    let (kind, spec) = split_name(spec);
    match kind {
        "duplex" => duplex::difference(alloc, way, spec, steps),
        "hash" => hash::difference(alloc, way, spec, steps),
        "ser32" | "ser64" => serializing::difference(alloc, way, kind, spec, steps),
        "multi" => multi_field::difference(alloc, way, spec, steps),
        _ => bail!("an unknown subject"),
    }
}
