//! The count of a bounded step: its width and its bytes.
ghost use Rattle.std.specs.Prelude.{◌≡◌, ℕ, ◌-◌, ◌^◌, ◌<◌, ◌≤◌, ◌++◌, length, take, replicate};
ghost use Rattle.p3_fs_core.specs.BigEndian.{big_endian, in_bytes, count_width};
ghost use Rattle.p3_challenger_core.specs.Reading.{IsPrefixCodeOn};

use crate::big_endian::{leading_bytes, number_of_bytes};

/// Returns the least number of bytes that hold every number up to `max`: 0 bytes for 0. Private in the Rust crate.
pub fn bound_byte_width(max: usize) -> usize
    ensures width { result ≡ count_width max }
    ensures enough { max < 256 ^ result }
    ensures least { (width : ℕ) → max < 256 ^ width → result ≤ width }
    ensures most { result ≤ 8 }
{
    let bits = usize::BITS - max.leading_zeros();
    bits.div_ceil(8) as usize
}

/// Returns a count in the first `width` bytes, highest first, with zeros after them.
///
/// Conditions: `width` is at most 8, and the count fits in `width` bytes. In the Rust crate the function is private,
/// and panics otherwise.
#[tactic(auto, using(crate::proofs::Counting::counted_read_back))]
pub fn encode_len_be(len: usize, width: usize) -> [u8; 8]
    requires width { width ≤ 8 }
    requires fits { len < 256 ^ width }
    ensures encoded { result ≡ in_bytes width len ++ replicate (8 - width) 0 }
    ensures read_back { big_endian (take width result) ≡ len }
{
    leading_bytes(len as u64, width)
}

/// Returns the count whose encoding in `width` bytes stands at the head of `buf`.
///
/// Conditions: `width` is at most 8, and `buf` has at least `width` bytes. In the Rust crate the function is private,
/// and panics otherwise.
#[tactic(auto, using(crate::proofs::Counting::counted_fits, crate::proofs::Counting::counted_encoded_back))]
pub fn decode_len_be(buf: &[u8], width: usize) -> usize
    requires width { width ≤ 8 }
    requires long { width ≤ length buf.now }
    ensures fits { result < 256 ^ width }
    ensures number { result ≡ big_endian (take width buf.now) }
    ensures encoded_back { in_bytes width result ≡ take width buf.now }
{
    number_of_bytes(&buf[..width]) as usize
}

/// Counts of one width are a prefix code: no encoding of a count begins another's.
///
/// A law: the body is empty, and a caller cites the clause.
#[tactic(auto, using(crate::proofs::Counting::counts_prefix_code))]
pub fn counts_are_prefix_code()
    ensures { (width : ℕ) → IsPrefixCodeOn (λ count. count < 256 ^ width) (in_bytes width) }
{}
