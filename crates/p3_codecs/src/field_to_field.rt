//! The codec of a scalar through a challenger of its own field.
use crate::{Codec, ScalarCodec};
use p3_challenger_core::{CanObserve, CanSample, ChallengerError};
use p3_field_core::PrimeField64;
use p3_fs_core::{TranscriptError, TranscriptField};
use std::marker::PhantomData;

/// Observes and draws a scalar as an element of the challenger's own field.
///
/// Its encoding in the proof is that of [`TranscriptField`].
///
/// Corresponds to the Rust crate's `FieldToFieldCodec`.
pub struct FieldToFieldCodec<F>(PhantomData<F>);

impl<F: PrimeField64, C: CanObserve<F> + CanSample<F>> Codec<C, F> for FieldToFieldCodec<F> {
    ghost use Rattle.p3_challenger_core.specs.{Reading.IsPrefixCode, SymbolLaws.element-feeds};
    ghost use Rattle.p3_fs_core.specs.{Scalar.encoding, ScalarLaws.is_encoding};

    const SECURITY_BITS: u32 = 128;

    ghost SECURITY_BITS = { 128 };

    ghost encoding = { encoding F.residues F.bit_length };

    ghost observation = { C.observation };

    ghost sampling = { C.sampling };

    ghost feeds_prefix_code = { IsPrefixCode C.observation.symbols };

    ghost is_codec = { record {
      encodes = is_encoding F.residues F.are_residues F.bit_length F.bits_below;
      observes = C.observes;
      samples = C.samples;
    } };

    ghost symbols_are_prefix_code = { λ prefix_code. record {
      prefix_code = prefix_code;
      some = element-feeds F.residues F.are_residues C.observation.symbols prefix_code;
    } };

    fn wire_len() -> usize {
        F::wire_len()
    }

    fn observe(challenger: &mut C, value: &F) -> Result<(), ChallengerError> {
        challenger.observe(*value)
    }

    fn sample(challenger: &mut C) -> Result<F, ChallengerError> {
        challenger.sample()
    }

    fn encode(value: &F, out: &mut Vec<u8>) -> Result<(), TranscriptError> {
        F::encode(value, out)
    }

    fn decode(bytes: &[u8]) -> Result<F, TranscriptError> {
        F::decode(bytes)
    }
}

impl<F: PrimeField64, C: CanObserve<F> + CanSample<F>> ScalarCodec<C, F> for FieldToFieldCodec<F> {
    ghost use Rattle.p3_fs_core.specs.{ScalarLaws.{width-positive, width-short, one_reason}, BigEndian.bytes_for};

    ghost some = { width-positive F.residues F.are_residues F.bit_length F.bits_below };

    ghost short = { width-short F.bit_length F.residues.order F.bits_least F.fits_u64 };

    ghost one_reason = { one_reason F.residues (bytes_for F.bit_length) };
}
