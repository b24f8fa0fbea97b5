// The steps of a protocol, as its file has them.
use crate::elements::{extension, extensions, scalar, scalars};
use anyhow::{Context, Result};
use conformance_tokens::tokens::look_up;
use p3_challenger::fs::script::Step;
use p3_challenger::fs::{Kind, Label};
use script_lines::world::World;
use std::alloc::Global;
use tealmuze_text::entry::Entry;
use tealmuze_text::labels::label;
use tealmuze_text::numbers::check_tokens;
use tealmuze_text::steps::keys_of;
use toml::Value;

// What a container is of.
const KINDS: [(&str, Kind); 7] = [
    ("protocol", Kind::Protocol),
    ("public", Kind::Public),
    ("message", Kind::Message),
    ("hint", Kind::Hint),
    ("challenge", Kind::Challenge),
    ("pow", Kind::Pow),
    ("salt", Kind::Salt),
];

/// Reads a step. The error says what is wrong with which of its keys, or that memory ran out.
pub fn parse_step<S: World>(alloc: Global, entry: Entry<'_>) -> Result<Step<S>> {
    let label = label(alloc, entry.text("label")?).context("label")?;
    let name = entry.text("type")?;
    entry.only(keys_of(name)?)?;
    parse_named(alloc, entry, name, label)
}

// Reads a step of this type.
fn parse_named<S: World>(
    alloc: Global,
    entry: Entry<'_>,
    name: &str,
    label: Label,
) -> Result<Step<S>> {
    match name {
        "begin" | "end" => parse_marker(entry, name, label),
        "public_scalar" | "observe_extension" | "opaque" => parse_known(alloc, entry, name, label),
        "public_scalars" | "public_scalars_bounded" => parse_public(alloc, entry, name, label),
        "observe_extensions" | "observe_extensions_bounded" => {
            parse_observed(alloc, entry, name, label)
        }
        "scalar" | "extension" | "challenge_scalar" | "challenge_extension" => {
            Ok(single(name, label))
        }
        "challenge_bits" | "challenge_uniform_bits" => parse_bits(entry, name, label),
        _ => parse_counted(entry, name, label),
    }
}

fn parse_marker<S: World>(entry: Entry<'_>, name: &str, label: Label) -> Result<Step<S>> {
    let kind = parse_kind(entry.text("kind")?)?;
    Ok(match name {
        "begin" => Step::Begin { label, kind },
        _ => Step::End { label, kind },
    })
}

fn parse_kind(name: &str) -> Result<Kind> {
    look_up(&KINDS, name).context(format_args!("kind `{name}`"))
}

// A value that both sides know.
fn parse_known<S: World>(
    alloc: Global,
    entry: Entry<'_>,
    name: &str,
    label: Label,
) -> Result<Step<S>> {
    step_of_value(alloc, entry.value("value")?, name, label).context("value")
}

fn step_of_value<S: World>(
    alloc: Global,
    value: &Value,
    name: &str,
    label: Label,
) -> Result<Step<S>> {
    match name {
        "public_scalar" => {
            let value = scalar::<S>(value)?;
            Ok(Step::PublicScalar { label, value })
        }
        "observe_extension" => {
            let value = extension::<S>(alloc, value)?;
            Ok(Step::ObserveExtension { label, value })
        }
        _ => {
            let text = value.as_str().context("expected a text")?;
            check_tokens(text)?;
            let value = S::opaque(alloc, text)?;
            Ok(Step::Opaque { label, value })
        }
    }
}

// Scalars that both sides know.
fn parse_public<S: World>(
    alloc: Global,
    entry: Entry<'_>,
    name: &str,
    label: Label,
) -> Result<Step<S>> {
    let values = scalars::<S>(alloc, entry.list("values")?).context("values")?;
    if name == "public_scalars" {
        return Ok(Step::PublicScalars { label, values });
    }
    let max = entry.count("max")?;
    Ok(Step::PublicScalarsBounded { label, values, max })
}

// Elements of the extension that the proof does not carry.
fn parse_observed<S: World>(
    alloc: Global,
    entry: Entry<'_>,
    name: &str,
    label: Label,
) -> Result<Step<S>> {
    let values = extensions::<S>(alloc, entry.list("values")?).context("values")?;
    if name == "observe_extensions" {
        return Ok(Step::ObserveExtensions { label, values });
    }
    let max = entry.count("max")?;
    Ok(Step::ObserveExtensionsBounded { label, values, max })
}

// One value that is sent or drawn.
fn single<S: World>(name: &str, label: Label) -> Step<S> {
    match name {
        "scalar" => Step::Scalar { label },
        "extension" => Step::Extension { label },
        "challenge_scalar" => Step::ChallengeScalar { label },
        _ => Step::ChallengeExtension { label },
    }
}

// Draws of numbers of bits.
fn parse_bits<S: World>(entry: Entry<'_>, name: &str, label: Label) -> Result<Step<S>> {
    let width = entry.count("width")?;
    let n = entry.draws()?;
    Ok(match name {
        "challenge_bits" => Step::ChallengeBits { label, width, n },
        _ => Step::ChallengeUniformBits { label, width, n },
    })
}

// A step that has one count: of bytes, of values, or of the bits of a proof of work.
fn parse_counted<S: World>(entry: Entry<'_>, name: &str, label: Label) -> Result<Step<S>> {
    let count = match name {
        "salt" | "bytes" | "hint" => entry.count("len")?,
        "bytes_bounded" | "hint_bounded" | "scalars_bounded" => entry.count("max")?,
        "pow" | "observe_pow" => entry.count("bits")?,
        "scalars" => entry.count("n")?,
        _ => entry.draws()?,
    };
    Ok(counted(name, label, count))
}

fn counted<S: World>(name: &str, label: Label, count: usize) -> Step<S> {
    match name {
        "salt" => Step::Salt { label, len: count },
        "bytes" => Step::Bytes { label, len: count },
        "hint" => Step::Hint { label, len: count },
        "bytes_bounded" => Step::BytesBounded { label, max: count },
        "hint_bounded" => Step::HintBounded { label, max: count },
        "scalars_bounded" => Step::ScalarsBounded { label, max: count },
        "scalars" => Step::Scalars { label, n: count },
        "challenge_scalars" => Step::ChallengeScalars { label, n: count },
        "challenge_extensions" => Step::ChallengeExtensions { label, n: count },
        "pow" => Step::Pow { label, bits: count },
        _ => Step::ObservePow { label, bits: count },
    }
}
