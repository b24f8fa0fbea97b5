//! The obligations of a codec: the encoding of a value in the proof, its observation by a challenger, and its draw.
ghost use Rattle.std.specs.Prelude.{◌≡◌, ℕ, ◌<◌, ◌≤◌, List, ◌++◌, take, drop, length, Some, Ok, Err, OnOk, OnErr, IfOk};
ghost use Rattle.std.specs.Prelude.{IfErr};
ghost use Rattle.p3_challenger_core.specs.{Observation.{Observation, RefusesObserve}, Sampling.{Sampling, RefusesDraw}};
ghost use Rattle.p3_challenger_core.specs.Reading.{IsPrefixFree};
ghost use Rattle.p3_fs_core.specs.{Encoding.Encoding, Scalar.outside_range, Errors.Decodes};
ghost use Rattle.p3_codecs.specs.Codecs.{IsCodec};

use p3_challenger_core::{ChallengerError, Sponge};
use p3_fs_core::TranscriptError;

/// The bits of security that a codec must have for a draw of challenges: 128, as in section 6 of the IETF draft on
/// Fiat-Shamir. It is the Rust crate's constant of this name.
pub const MIN_CHALLENGE_SECURITY_BITS: u32 = 128;

// The condition of a draw names this number, so that it is the same whatever the constant says.
const _: () = prove!(MIN_CHALLENGE_SECURITY_BITS == 128);

/// Encodes the values of a type in the proof, observes them as symbols of a challenger, and draws them from it. Each
/// value has one encoding, and all encodings have one width.
///
/// Corresponds to the Rust crate's `Codec`. Here the challenger is a [`Sponge`], and a codec has laws to satisfy.
pub trait Codec<C: Sponge, T> {
    /// The security of a draw in bits: its distance from uniform is at most 2 to the minus this number, apart from
    /// the challenger's own. The author of the codec vouches for it.
    const SECURITY_BITS: u32;

    ghost SECURITY_BITS: { ℕ };

    // The one encoding of each value, and what is read.
    ghost encoding: { Encoding T };

    // What a value feeds the challenger, the state after it, and what is left where it is refused.
    ghost observation: { Observation C.State C.Symbol T };

    // What the codec needs of the challenger for the symbols of values to be a prefix code: that it feeds what the
    // codec hands it as one.
    ghost feeds_prefix_code: { Type 0 };

    // What a draw gives, the state after it, and when it is refused and what it leaves then.
    ghost sampling: { Sampling C.State T };

    /// Returns the number of bytes of a value in the proof, the same for each value.
    fn wire_len() -> usize
        ensures { result ≡ encoding.width };

    /// Observes a value.
    ///
    /// The one error is [`ChallengerError::OutOfMemory`], after which a prefix of the value may be observed. Of a
    /// scalar, that is what one refused observation of the challenger leaves. Of an element of a vector space, it is
    /// the coefficients before the refused one.
    fn observe(challenger: &mut C, value: &T) -> Result<(), ChallengerError>
        ensures ok { OnOk result
            (C.state challenger.new ≡ observation.observed (C.state challenger.old) value.now) }
        ensures err { IfErr result (λ e. RefusesObserve (observation.may_leave
            (C.state challenger.old) value.now) e (C.state challenger.new)) };

    /// Draws a value. The codec has at least [`MIN_CHALLENGE_SECURITY_BITS`] bits of security, for which the caller
    /// vouches in the Rust crate.
    ///
    /// The errors are those of the challenger's draws: [`ChallengerError::DrawLimit`], after which the draws are
    /// consumed, and [`ChallengerError::OutOfMemory`]. The draws before the refused one are done.
    fn sample(challenger: &mut C) -> Result<T, ChallengerError>
        requires { 128 ≤ SECURITY_BITS }
        ensures drawn { IfOk result (λ x. sampling.sampled (C.state challenger.old) ≡ Some x) }
        ensures after { OnOk result
            (C.state challenger.new ≡ sampling.after (C.state challenger.old)) }
        ensures err { IfErr result
            (λ e. RefusesDraw sampling e (C.state challenger.old) (C.state challenger.new)) };

    /// Appends the encoding of a value to `out`.
    ///
    /// The one error is [`TranscriptError::OutOfMemory`], which leaves a prefix of the encoding appended. In the
    /// Rust crate this function returns no error.
    fn encode(value: &T, out: &mut Vec<u8>) -> Result<(), TranscriptError>
        ensures ok { OnOk result (out.new.items ≡ out.old.items ++ encoding.wire value.now) }
        ensures err { IfErr result (λ e. e ≡ TranscriptError.OutOfMemory) }
        ensures left { OnErr result
            ((n : ℕ) × (out.new.items ≡ out.old.items ++ take n (encoding.wire value.now))) };

    /// Returns the value whose encoding stands at the head of `bytes`, in the first [`wire_len`](Codec::wire_len)
    /// bytes.
    ///
    /// The one error is [`TranscriptError::BadProofShape`], where no encoding stands there. The reason is the
    /// codec's own.
    fn decode(bytes: &[u8]) -> Result<T, TranscriptError>
        ensures exact { Decodes (encoding.read bytes.now) result }
        ensures found { IfOk result
            (λ x. bytes.now ≡ encoding.wire x ++ drop encoding.width bytes.now) }
        ensures only { (x : T) (rest : List ℕ) →
            bytes.now ≡ encoding.wire x ++ rest → result ≡ Ok x };

    // Values are encoded, observed and drawn as every codec owes it.
    ghost is_codec: { IsCodec C.fed C.next encoding observation sampling };

    ghost symbols_are_prefix_code: { feeds_prefix_code → IsPrefixFree observation.symbols };
}

/// A codec of the elements of a field. An encoding has 1 to 65535 bytes. So the width of an element of a vector
/// space with at most 65535 coefficients is a `usize`. Where there are enough bytes, the only reason for a refusal
/// is `field encoding outside canonical range`.
///
/// Not in the Rust crate.
pub trait ScalarCodec<C: Sponge, F>: Codec<C, F> {
    ghost some: { 0 < Self.encoding.width };

    ghost short: { Self.encoding.width ≤ 65535 };

    ghost one_reason: { (bytes reason : List ℕ) → Self.encoding.width ≤ length bytes →
        Self.encoding.read bytes ≡ Err reason → reason ≡ outside_range };
}
