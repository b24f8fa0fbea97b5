//! The codec of an element of a vector space: its coefficients, coefficient 0 first, through a codec of the field.
ghost use Rattle.std.specs.Prelude.{◌*◌, ◌≤◌, length};
ghost use Rattle.p3_fs_core.specs.Errors.{Decodes};
ghost use Rattle.p3_challenger_core.specs.ObservationLaws.{in_row-is_observation, observed_as-is_observation};
ghost use Rattle.p3_challenger_core.specs.SamplingLaws.{in_row-is_sampling, made_of-is_sampling};
ghost use Rattle.p3_codecs.specs.ExtensionLaws.{is_encoding, coefficients-tell_apart};
ghost use Rattle.p3_codecs.specs.Extension as extension;
ghost use Rattle.p3_challenger_core.specs.Observation as observation;
ghost use Rattle.p3_challenger_core.specs.Sampling as sampling;

use crate::{Codec, ScalarCodec};
use p3_challenger_core::{ChallengerError, Sponge};
use p3_field_core::{BasedVectorSpace, Field};
use p3_fs_core::TranscriptError;
use std::marker::PhantomData;

/// Encodes, observes and draws an element of a vector space by its coefficients, in the order of the basis.
///
/// The encoding is that of the coefficients, one after another. A draw begins with coefficient 0. `decode` returns
/// `not enough bytes for an extension-field encoding` where there are too few bytes for all coefficients, before
/// any is read. Else its reason is the base codec's for the first invalid coefficient.
///
/// Corresponds to the Rust crate's `ExtensionFieldCodec`, here over a [`ScalarCodec`] and for every vector space.
pub struct ExtensionFieldCodec<F, EF, BaseCodec>(PhantomData<(F, EF, BaseCodec)>);

impl<C: Sponge, F: Field, EF: BasedVectorSpace<F>, BaseCodec: ScalarCodec<C, F>> Codec<C, EF>
    for ExtensionFieldCodec<F, EF, BaseCodec> {
    const SECURITY_BITS: u32 = BaseCodec::SECURITY_BITS;

    ghost SECURITY_BITS = { BaseCodec.SECURITY_BITS };

    ghost encoding = { extension.encoding BaseCodec.encoding EF.DIMENSION EF.coefficients
        EF.element };

    ghost observation = { extension.observed_coefficients BaseCodec.observation EF.coefficients };

    ghost sampling = { extension.drawn_coefficients BaseCodec.sampling EF.DIMENSION EF.element };

    ghost feeds_prefix_code = { BaseCodec.feeds_prefix_code };

    ghost is_codec = { record {
      encodes = is_encoding BaseCodec.encoding BaseCodec.is_codec.encodes EF.DIMENSION
          EF.coefficients EF.element EF.length_coefficients EF.same_coefficients
          EF.coefficients_element;
      observes = observed_as-is_observation C.fed C.fed_nothing C.fed_more
          (observation.in_row BaseCodec.observation) (in_row-is_observation C.fed C.fed_nothing
          C.fed_more BaseCodec.observation BaseCodec.is_codec.observes) EF.coefficients;
      samples = made_of-is_sampling C.next EF.element
          (sampling.in_row BaseCodec.sampling EF.DIMENSION)
          (in_row-is_sampling C.next BaseCodec.sampling BaseCodec.is_codec.samples EF.DIMENSION);
    } };

    ghost symbols_are_prefix_code = { λ given. coefficients-tell_apart BaseCodec.observation.symbols
        (BaseCodec.symbols_are_prefix_code given) EF.DIMENSION EF.at_least_one EF.coefficients
        EF.length_coefficients EF.same_coefficients };

    fn wire_len() -> usize {
        EF::DIMENSION * BaseCodec::wire_len()
    }

    fn observe(challenger: &mut C, value: &EF) -> Result<(), ChallengerError> {
        let coefficients = value.as_basis_coefficients_slice();
        for coefficient in coefficients {
            BaseCodec::observe(challenger, coefficient)?;
        }
        Ok(())
    }

    fn sample(challenger: &mut C) -> Result<EF, ChallengerError> {
        let mut element = EF::zero();
        for i in 0..EF::DIMENSION {
            element = element.with_coefficient(i, BaseCodec::sample(challenger)?);
        }
        Ok(element)
    }

    fn encode(value: &EF, out: &mut Vec<u8>) -> Result<(), TranscriptError> {
        let coefficients = value.as_basis_coefficients_slice();
        for coefficient in coefficients {
            BaseCodec::encode(coefficient, out)?;
        }
        Ok(())
    }

    fn decode(bytes: &[u8]) -> Result<EF, TranscriptError> {
        decode_element::<C, F, EF, BaseCodec>(bytes)
    }
}

// The element whose encoding the bytes begin with. Their number is tested before any coefficient is read.
fn decode_element<C: Sponge, F: Field, EF: BasedVectorSpace<F>, BaseCodec: ScalarCodec<C, F>>(
    bytes: &[u8],
) -> Result<EF, TranscriptError>
    ensures { Decodes (extension.read BaseCodec.encoding.read BaseCodec.encoding.width EF.DIMENSION
        EF.element bytes.now) result }
{
    if bytes.len() < EF::DIMENSION * BaseCodec::wire_len() {
        return Err(TranscriptError::BadProofShape {
            reason: "not enough bytes for an extension-field encoding",
        });
    }
    decode_coefficients::<C, F, EF, BaseCodec>(bytes)
}

// The element of the coefficients that the bytes begin with.
fn decode_coefficients<C: Sponge, F: Field, EF: BasedVectorSpace<F>, BaseCodec: ScalarCodec<C, F>>(
    bytes: &[u8],
) -> Result<EF, TranscriptError>
    requires { EF.DIMENSION * BaseCodec.encoding.width ≤ length bytes.now }
    ensures { Decodes (extension.read_coefficients BaseCodec.encoding.read EF.DIMENSION EF.element
        bytes.now) result }
{
    let width = BaseCodec::wire_len();
    let mut element = EF::zero();
    for i in 0..EF::DIMENSION {
        element = element.with_coefficient(i, BaseCodec::decode(&bytes[i * width..])?);
    }
    Ok(element)
}
