// Numbers, lists and bytes that a file has.
use anyhow::{Context, Error, Result, bail};
use hex::FromHexError;
use std::alloc::Global;
use toml::Value;

/// The number of a value: an integer that is not negative, or a text of decimal digits, in which a number stands that
/// TOML has no integer for.
pub fn number(value: &Value) -> Result<u64> {
    if let Some(text) = value.as_str() {
        check_decimal(text)?;
        return text.parse().context("expected a number");
    }
    match value.as_integer().map(u64::try_from) {
        Some(Ok(number)) => Ok(number),
        Some(Err(_)) => bail!("expected a number that is not below 0"),
        None => bail!("expected a number"),
    }
}

// Refuses a text that is no number in decimal digits: one with a sign too, and one with a zero before its first digit.
fn check_decimal(text: &str) -> Result<()> {
    let digits = text.as_bytes();
    if digits.is_empty() || !digits.iter().all(|digit| digit.is_ascii_digit()) {
        bail!("expected decimal digits");
    }
    if digits.len() > 1 && digits.first() == Some(&b'0') {
        bail!("expected decimal digits with no zero before them");
    }
    Ok(())
}

/// Refuses several tokens of which one is no number in decimal digits. A text of one token may be a number or not.
pub fn check_tokens(text: &str) -> Result<()> {
    if text.split_whitespace().count() > 1 {
        for token in text.split_whitespace() {
            check_decimal(token)?;
        }
    }
    Ok(())
}

/// The bytes that a text in hexadecimal says.
pub fn bytes(alloc: Global, value: &Value) -> Result<Vec<u8>> {
    decoded(alloc, value.as_str().context(NOT_HEXADECIMAL)?)
}

/// What is said of a text that has no hexadecimal digits, or an odd number of them.
pub const NOT_HEXADECIMAL: &str = "expected hexadecimal digits";

/// The bytes that hexadecimal digits say.
pub fn decoded(alloc: Global, digits: &str) -> Result<Vec<u8>> {
    match hex::decode(alloc, digits) {
        Ok(bytes) => Ok(bytes),
        Err(FromHexError::OutOfMemory) => bail!("out of memory"),
        Err(error) => Err(Error::from(error).context(NOT_HEXADECIMAL)),
    }
}

/// What a list has.
pub fn items(value: &Value) -> Result<&[Value]> {
    match value.as_array() {
        Some(items) => Ok(items.as_slice()),
        None => bail!("expected a list"),
    }
}
