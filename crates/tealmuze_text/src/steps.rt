// The steps that a file can have, and their keys.
use anyhow::{Result, bail};

// The keys of each step, by its type.
const KEYS: [(&[&str], &[&str]); 10] = [
    (&["begin", "end"], &["type", "label", "kind"]),
    (&["salt", "bytes", "hint"], &["type", "label", "len"]),
    (
        &["bytes_bounded", "hint_bounded", "scalars_bounded"],
        &["type", "label", "max"],
    ),
    (
        &[
            "scalar",
            "extension",
            "challenge_scalar",
            "challenge_extension",
        ],
        &["type", "label"],
    ),
    (
        &["public_scalar", "observe_extension", "opaque"],
        &["type", "label", "value"],
    ),
    (
        &["public_scalars", "observe_extensions"],
        &["type", "label", "values"],
    ),
    (
        &["public_scalars_bounded", "observe_extensions_bounded"],
        &["type", "label", "values", "max"],
    ),
    (
        &["scalars", "challenge_scalars", "challenge_extensions"],
        &["type", "label", "n"],
    ),
    (
        &["challenge_bits", "challenge_uniform_bits"],
        &["type", "label", "width", "n"],
    ),
    (&["pow", "observe_pow"], &["type", "label", "bits"]),
];

/// The keys that a step of this type has.
pub fn keys_of(name: &str) -> Result<&'static [&'static str]> {
    for (names, keys) in &KEYS {
        if names.contains(&name) {
            return Ok(*keys);
        }
    }
    bail!("type: unknown step `{name}`")
}
