//! The count of a bounded step.
ghost use Rattle.std.specs.Prelude.{◌≡◌, ℕ, ◌≤◌, ◌<◌, ◌^◌, length, take, IfErr};
ghost use Rattle.p3_challenger_core.specs.Reading.{AreBytes};
ghost use Rattle.p3_fs_core.specs.BigEndian.{count_width, count_bytes};
ghost use Rattle.p3_driver_core.specs.Effects.{observing_bytes, Does};

use p3_challenger_core::{CanObserve, ChallengerError};
use p3_codecs::{AlphabetOf, Unit};
use p3_fs_core::{bound_byte_width, counts_are_prefix_code, encode_len_be};

/// Returns the count of a step that carries at most `max` values, and the width of the count in bytes.
///
/// Condition: the count is at most `max`. Not in the Rust crate.
pub fn counted(count: usize, max: usize) -> ([u8; 8], usize)
    requires { count ≤ max }
    ensures bytes { take result.1 result.0 ≡ count_bytes max count }
    ensures most { result.1 ≤ 8 }
{
    let width = bound_byte_width(max);
    (encode_len_be(count, width), width)
}

/// Observes the count of a step that carries at most `max` values.
///
/// The one error is [`ChallengerError::OutOfMemory`]: a count has at most 8 bytes, and no alphabet refuses so few.
///
/// Conditions: `U` is an alphabet, and the count is at most `max`. Not in the Rust crate.
pub fn observe_count<U: Unit, C: CanObserve<U::Item>>(
    challenger: &mut C,
    count: usize,
    max: usize,
) -> Result<(), ChallengerError>
    requires alphabet { U.is_alphabet }
    requires within { count ≤ max }
    ensures does { Does (observing_bytes ⟦<U as AlphabetOf<C>>⟧.alphabet (count_bytes max count))
        (C.state challenger.old) result (C.state challenger.new) }
    ensures memory { IfErr result (λ e. e ≡ ChallengerError.OutOfMemory) }
{
    let (bytes, width) = counted(count, max);
    U::observe_bytes(challenger, &bytes[..width])
}

/// The count of a step takes the least number of bytes that holds every count it may carry, and at most 8.
///
/// A law: the body is empty, and a caller cites the clauses. Not in the Rust crate.
pub fn counts_take_the_least_width()
    ensures enough { (max : ℕ) → max < 2 ^ 64 → max < 256 ^ count_width max }
    ensures least { (max width : ℕ) → max < 256 ^ width → count_width max ≤ width }
    ensures most { (max : ℕ) → count_width max ≤ 8 }
{}

/// The bytes of a step's count determine it. Two counts that one step may carry have the same bytes exactly where they
/// are equal. They have equally many bytes, at most 8.
///
/// A law: a caller cites the clauses. Not in the Rust crate.
pub fn counts_are_told()
    ensures told { (max count other : ℕ) → max < 2 ^ 64 → count ≤ max → other ≤ max →
        count_bytes max count ≡ count_bytes max other → count ≡ other }
    ensures as_long { (max count other : ℕ) →
        length (count_bytes max count) ≡ length (count_bytes max other) }
    ensures short { (max count : ℕ) → length (count_bytes max count) ≤ 8 }
    ensures bytes { (max count : ℕ) → AreBytes (count_bytes max count) }
{
    counts_are_prefix_code();
}
