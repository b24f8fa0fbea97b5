//! The codec of a scalar through a challenger of bytes.
//!
//! ```text
//! in the proof:  the number of the scalar, as few bytes as hold every element, the highest first
//! observed:      these bytes
//! drawn:         16 bytes more than these, as a number modulo the order
//! ```
ghost use Rattle.std.specs.Prelude.{◌≡◌, ◌+◌, ◌*◌};
ghost use Rattle.p3_codecs.specs.BytesToField.{challenge_of, observed_bytes, drawn_bytes, draw_bytes};
ghost use Rattle.p3_codecs.specs.BytesToFieldLaws.{bytes-tell_apart};
ghost use Rattle.p3_challenger_core.specs.{Observation.in_slice, Sampling.in_row, Reading.{IsPrefixCodeOn, IsByte}};
ghost use Rattle.p3_challenger_core.specs.ObservationLaws.{in_slice-is_observation, observed_as-is_observation};
ghost use Rattle.p3_challenger_core.specs.SamplingLaws.{in_row-is_sampling, made_of-is_sampling};
ghost use Rattle.p3_fs_core.specs.ScalarLaws.{is_encoding, width-positive, width-short, one_reason};
ghost use Rattle.p3_fs_core.specs.{BigEndian.bytes_for, Scalar.{wire, encoding}};

use crate::{Codec, ScalarCodec};
use p3_challenger_core::{CanObserve, CanSample, ChallengerError};
use p3_field_core::PrimeField64;
use p3_fs_core::{TranscriptError, TranscriptField};
use std::marker::PhantomData;

/// Encodes, observes and draws a scalar through a challenger of bytes.
///
/// The encoding is that of [`TranscriptField`], and its bytes are observed as one slice. A draw takes
/// [`EXTRA_BYTES`] bytes more than an encoding has. Their big-endian number modulo the order is the scalar.
///
/// Corresponds to the Rust crate's `BytesToFieldCodec`. The 16 extra bytes are the rule of the IETF draft on
/// Fiat-Shamir.
pub struct BytesToFieldCodec<F>(PhantomData<F>);

/// The number of bytes that a draw takes beyond the width of a value: 128 bits, so that the value is nearly uniform.
/// The number is that of the IETF draft on Fiat-Shamir. It is private in the Rust crate.
pub const EXTRA_BYTES: usize = 16;

// The most bytes that a draw takes: an encoding has at most 8.
const MOST_BYTES: usize = 24;

impl<F: PrimeField64, C: CanObserve<u8> + CanSample<u8>> Codec<C, F> for BytesToFieldCodec<F> {
    const SECURITY_BITS: u32 = 128;

    ghost SECURITY_BITS = { 128 };

    ghost encoding = { encoding F.residues F.bit_length };

    ghost observation = { observed_bytes F.residues F.bit_length C.observation C.slice_may_leave };

    ghost sampling = { drawn_bytes F.residues F.bit_length C.sampling };

    ghost feeds_prefix_code = { IsPrefixCodeOn IsByte C.observation.symbols };

    ghost is_codec = { record {
      encodes = is_encoding F.residues F.are_residues F.bit_length F.bits_below;
      observes = observed_as-is_observation C.fed C.fed_nothing C.fed_more
          (in_slice C.observation C.slice_may_leave) (in_slice-is_observation C.fed C.fed_nothing
          C.fed_more C.observation C.observes C.slice_may_leave C.slice_leaves)
          (wire F.residues (bytes_for F.bit_length));
      samples = made_of-is_sampling C.next (challenge_of F.residues)
          (in_row C.sampling (draw_bytes (bytes_for F.bit_length)))
          (in_row-is_sampling C.next C.sampling C.samples (draw_bytes (bytes_for F.bit_length)));
    } };

    ghost symbols_are_prefix_code = { bytes-tell_apart F.residues F.are_residues F.bit_length
        F.bits_below C.observation.symbols };

    fn wire_len() -> usize {
        F::wire_len()
    }

    fn observe(challenger: &mut C, value: &F) -> Result<(), ChallengerError> {
        let number = value.as_canonical_u64().to_be_bytes();
        challenger.observe_slice(&number[8 - F::wire_len()..])
    }

    fn sample(challenger: &mut C) -> Result<F, ChallengerError> {
        let mut bytes = [0; MOST_BYTES];
        let drawn = &mut bytes[..F::wire_len() + EXTRA_BYTES];
        challenger.sample_into_slice(drawn)?;
        Ok(field_of_bytes(drawn))
    }

    fn encode(value: &F, out: &mut Vec<u8>) -> Result<(), TranscriptError> {
        F::encode(value, out)
    }

    fn decode(bytes: &[u8]) -> Result<F, TranscriptError> {
        F::decode(bytes)
    }
}

impl<F: PrimeField64, C: CanObserve<u8> + CanSample<u8>> ScalarCodec<C, F>
    for BytesToFieldCodec<F> {
    ghost some = { width-positive F.residues F.are_residues F.bit_length F.bits_below };

    ghost short = { width-short F.bit_length F.residues.order F.bits_least F.fits_u64 };

    ghost one_reason = { one_reason F.residues (bytes_for F.bit_length) };
}

// The element that the big-endian number of bytes is modulo the order.
fn field_of_bytes<F: PrimeField64>(bytes: &[u8]) -> F
    ensures { result ≡ challenge_of F.residues bytes.now }
{
    let mut number = F::ZERO;
    for byte in bytes {
        number = following(number, *byte);
    }
    number
}

// The element of a number with a byte more.
fn following<F: PrimeField64>(number: F, byte: u8) -> F
    ensures { result ≡ F.residues.of (256 * F.residues.number number + byte) }
{
    number * F::from_u16(256) + F::from_u8(byte)
}
