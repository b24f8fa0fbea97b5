// Counts of lists, and how many bits a number takes.

use anyhow::{Result, bail};
use conformance_calls::replay::Replayed;
use conformance_tokens::tokens::{split_first, split_name};
use p3_challenger::fs::{bound_byte_width, decode_len_be, encode_len_be};
use p3_field::log2_ceil_u64;
use std::alloc::Global;

/// A call on no value at all.
#[derive(Drop)]
pub enum CountCall {
    /// `log2 n`: the least power of two that is at least n.
    Log2(u64),
    /// `width n`: how many bytes hold every number up to n.
    Width(usize),
    /// `encode n w`: the count n in w bytes, with zeros after.
    Encode(usize, usize),
    /// `decode w HEX`: the count that the bytes begin with, in w bytes.
    Decode(usize, Vec<u8>),
}

/// No value at all.
#[derive(Clone, Copy)]
pub struct Counts;

impl CountCall {
    fn parse(alloc: Global, text: &str) -> Result<CountCall> {
        let (name, words) = split_name(text);
        match name {
            "log2" => Ok(CountCall::Log2(words.parse()?)),
            "width" => Ok(CountCall::Width(words.parse()?)),
            "encode" => {
                let (count, width) = split_first(words)?;
                Ok(CountCall::Encode(count.parse()?, width.parse()?))
            }
            "decode" => {
                let (width, bytes) = split_first(words)?;
                Ok(CountCall::Decode(width.parse()?, hex::decode(alloc, bytes)?))
            }
            _ => bail!("an unknown call"),
        }
    }
}

impl Replayed for Counts {
    fn answer(&mut self, alloc: Global, call: &str) -> Result<String> {
        match CountCall::parse(alloc, call)? {
            CountCall::Log2(n) if n > 0 => Ok(log2_ceil_u64(n).to_string(alloc)?),
            CountCall::Width(most) => Ok(bound_byte_width(most).to_string(alloc)?),
            CountCall::Encode(count, width) => encoded(alloc, count, width),
            CountCall::Decode(width, bytes) if width <= 8 && width <= bytes.len() => {
                Ok(decode_len_be(bytes.as_slice(), width).to_string(alloc)?)
            }
            _ => bail!("a condition that is not met"),
        }
    }
}

fn encoded(alloc: Global, count: usize, width: usize) -> Result<String> {
    if width < bound_byte_width(count) || 8 < width {
        bail!("a count that does not fit");
    }
    Ok(hex::encode(alloc, encode_len_be(count, width))?)
}
