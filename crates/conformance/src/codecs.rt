// Codecs and alphabets, through their bounds.
ghost use Rattle.std.specs.Prelude.{◌<◌, ◌≤◌};

use crate::names::{ALGEBRAS, AlgebraName, FIELDS, FieldName, Four, FourOfKoalaBear};
use anyhow::{Context, Result, bail};
use conformance_calls::replay::Replayed;
use conformance_tokens::answer;
use conformance_tokens::symbol::{Symbol, coefficients_of, element_of, numbers_of};
use conformance_tokens::tokens::{look_up, split_name};
use p3_challenger::fs::{
    BytesToFieldCodec, Codec, ExtensionFieldCodec, FieldToFieldCodec, FieldUnit, Unit,
};
use p3_challenger::{CanObserve, DuplexChallenger, Sponge};
use p3_field::{Algebra, BabyBear, BasedVectorSpace, F257, Goldilocks, KoalaBear, PrimeField64};
use p3_symmetric::Turn;
use p3_test_support::{RecordingChallenger, Supply};
use std::alloc::Global;

/// A call on the codec of an algebra, or on an alphabet.
#[derive(Drop)]
pub enum CodecCall {
    /// A call on the codec of an algebra.
    OfAlgebra(AlgebraName, ElementCall),
    /// `unit F HEX`: the elements that a byte string is, or why it is none.
    UnitOf(FieldName, Vec<u8>),
    /// `unit u8 HEX`: the bytes that a byte string is.
    UnitOfBytes(Vec<u8>),
}

/// What is asked of a codec.
#[derive(Drop)]
pub enum ElementCall {
    /// `wire-len A`: how many bytes an encoding has.
    WireLen,
    /// `security-bits A`.
    SecurityBits,
    /// `enc A HEX`: how the element is encoded whose coefficients are numbers of 8 bytes.
    Encode(Vec<u8>),
    /// `dec A HEX`: the coefficients of the element that bytes begin with, or why they begin with none.
    Decode(Vec<u8>),
    /// `draw A HEX`: the coefficients of the element that a codec of bytes draws from these, and how many are
    /// left.
    Draw(Vec<u8>),
}

/// The codecs and the alphabets: no challenger is kept from call to call.
#[derive(Clone, Copy)]
pub enum Codecs {
    /// Those through a challenger of bytes.
    OfBytes,
    /// Those through a challenger of elements.
    OfElements,
}

type Cells<F> = DuplexChallenger<F, Turn<1>, 3, 2>;

type ByBytes<F, A> = ExtensionFieldCodec<F, A, BytesToFieldCodec<F>>;

type ByElements<F, A> = ExtensionFieldCodec<F, A, FieldToFieldCodec<F>>;

impl CodecCall {
    fn parse(alloc: Global, text: &str) -> Result<CodecCall> {
        let (name, words) = split_name(text);
        let (values, bytes) = split_name(words);
        match (name, values) {
            ("unit", "u8") => Ok(CodecCall::UnitOfBytes(hex::decode(alloc, bytes)?)),
            ("unit", _) => {
                let field = look_up(&FIELDS, values)?;
                Ok(CodecCall::UnitOf(field, hex::decode(alloc, bytes)?))
            }
            _ => {
                let algebra = look_up(&ALGEBRAS, values)?;
                Ok(CodecCall::OfAlgebra(algebra, ElementCall::parse(alloc, name, bytes)?))
            }
        }
    }
}

impl ElementCall {
    fn parse(alloc: Global, name: &str, bytes: &str) -> Result<ElementCall> {
        match name {
            "draw" => Ok(ElementCall::Draw(hex::decode(alloc, bytes)?)),
            "enc" => Ok(ElementCall::Encode(hex::decode(alloc, bytes)?)),
            "dec" => Ok(ElementCall::Decode(hex::decode(alloc, bytes)?)),
            "wire-len" => Ok(ElementCall::WireLen),
            "security-bits" => Ok(ElementCall::SecurityBits),
            _ => bail!("an unknown call"),
        }
    }
}

impl Replayed for Codecs {
    fn answer(&mut self, alloc: Global, call: &str) -> Result<String> {
        match CodecCall::parse(alloc, call)? {
            CodecCall::OfAlgebra(algebra, call) => through_algebra(alloc, *self, algebra, &call),
            CodecCall::UnitOfBytes(bytes) => encoded::<u8, u8>(alloc, bytes.as_slice()),
            CodecCall::UnitOf(field, bytes) => symbols_of(alloc, field, bytes.as_slice()),
        }
    }
}

// What the codec of an algebra answers.
fn through_algebra(
    alloc: Global,
    codecs: Codecs,
    algebra: AlgebraName,
    call: &ElementCall,
) -> Result<String> {
    match codecs {
        Codecs::OfBytes => through_bytes(alloc, algebra, call),
        Codecs::OfElements => through_elements(alloc, algebra, call),
    }
}

fn through_bytes(alloc: Global, algebra: AlgebraName, call: &ElementCall) -> Result<String> {
    match algebra {
        AlgebraName::Scalars(FieldName::BabyBear) => {
            drawn_or_through::<BabyBear, BabyBear, BytesToFieldCodec<BabyBear>>(alloc, call)
        }
        AlgebraName::Scalars(FieldName::KoalaBear) => {
            drawn_or_through::<KoalaBear, KoalaBear, BytesToFieldCodec<KoalaBear>>(alloc, call)
        }
        AlgebraName::Scalars(FieldName::Goldilocks) => {
            drawn_or_through::<Goldilocks, Goldilocks, BytesToFieldCodec<Goldilocks>>(alloc, call)
        }
        AlgebraName::Scalars(FieldName::F257) => {
            drawn_or_through::<F257, F257, BytesToFieldCodec<F257>>(alloc, call)
        }
        AlgebraName::Four => {
            drawn_or_through::<BabyBear, Four, ByBytes<BabyBear, Four>>(alloc, call)
        }
        AlgebraName::FourOfKoalaBear => {
            drawn_or_through::<KoalaBear, FourOfKoalaBear, ByBytes<KoalaBear, FourOfKoalaBear>>(
                alloc, call,
            )
        }
    }
}

fn through_elements(alloc: Global, algebra: AlgebraName, call: &ElementCall) -> Result<String> {
    match algebra {
        AlgebraName::Scalars(FieldName::BabyBear) => {
            through::<BabyBear, BabyBear, FieldToFieldCodec<BabyBear>, Cells<BabyBear>>(alloc, call)
        }
        AlgebraName::Scalars(FieldName::KoalaBear) => {
            through::<KoalaBear, KoalaBear, FieldToFieldCodec<KoalaBear>, Cells<KoalaBear>>(
                alloc, call,
            )
        }
        AlgebraName::Scalars(FieldName::Goldilocks) => through::<
            Goldilocks,
            Goldilocks,
            FieldToFieldCodec<Goldilocks>,
            Cells<Goldilocks>,
        >(alloc, call),
        AlgebraName::Scalars(FieldName::F257) => {
            through::<F257, F257, FieldToFieldCodec<F257>, Cells<F257>>(alloc, call)
        }
        AlgebraName::Four => {
            through::<BabyBear, Four, ByElements<BabyBear, Four>, Cells<BabyBear>>(alloc, call)
        }
        AlgebraName::FourOfKoalaBear => through::<
            KoalaBear,
            FourOfKoalaBear,
            ByElements<KoalaBear, FourOfKoalaBear>,
            Cells<KoalaBear>,
        >(alloc, call),
    }
}

// What a codec of bytes answers. It draws from bytes that are given.
fn drawn_or_through<'a, F: PrimeField64 + Symbol, A: BasedVectorSpace<F>, K: Codec<Supply<'a>, A>>(
    alloc: Global,
    call: &'a ElementCall,
) -> Result<String>
    requires { 128 ≤ K.SECURITY_BITS }
{
    let ElementCall::Draw(bytes) = call else {
        return through::<F, A, K, Supply<'a>>(alloc, call);
    };
    let mut supply = Supply::new(bytes.as_slice());
    let element = K::sample(&mut supply)?;
    let numbers = answer::numbers(alloc, coefficients_of(alloc, &element)?.as_slice())?;
    Ok(format!(in alloc; "{numbers} left {}", supply.left().len())?)
}

// What a codec answers.
fn through<F: PrimeField64 + Symbol, A: BasedVectorSpace<F>, K: Codec<C, A>, C: Sponge>(
    alloc: Global,
    call: &ElementCall,
) -> Result<String> {
    match call {
        ElementCall::WireLen => Ok(K::wire_len().to_string(alloc)?),
        ElementCall::SecurityBits => Ok(K::SECURITY_BITS.to_string(alloc)?),
        ElementCall::Encode(numbers) => encoding::<F, A, K, C>(alloc, numbers.as_slice()),
        ElementCall::Decode(bytes) => match K::decode(bytes.as_slice()) {
            Ok(element) => answer::numbers(alloc, coefficients_of(alloc, &element)?.as_slice()),
            Err(error) => Ok(error.to_string(alloc)?),
        },
        ElementCall::Draw(_) => bail!("no bytes to draw from"),
    }
}

// How the element of these numbers is encoded.
fn encoding<F: PrimeField64, A: BasedVectorSpace<F>, K: Codec<C, A>, C: Sponge>(
    alloc: Global,
    numbers: &[u8],
) -> Result<String> {
    let element: A = element_of(coefficients::<F>(alloc, numbers)?.as_slice())?;
    let mut wire = Vec::new(alloc);
    K::encode(&element, &mut wire)?;
    Ok(hex::encode(alloc, wire.as_slice())?)
}

// The elements of canonical numbers of 8 bytes each.
fn coefficients<F: PrimeField64>(alloc: Global, numbers: &[u8]) -> Result<Vec<F>> {
    let mut found = Vec::new(alloc);
    for number in numbers.chunks(8) {
        let Ok(number) = <[u8; 8]>::try_from(number) else {
            bail!("a number of another length");
        };
        let element = F::from_canonical_checked(u64::from_be_bytes(number));
        found.push(element.context("a value that is no canonical number")?)?;
    }
    Ok(found)
}

// The elements that a byte string is, or why it is none.
fn symbols_of(alloc: Global, field: FieldName, bytes: &[u8]) -> Result<String> {
    match field {
        FieldName::BabyBear => encoded::<FieldUnit<BabyBear>, BabyBear>(alloc, bytes),
        FieldName::KoalaBear => encoded::<FieldUnit<KoalaBear>, KoalaBear>(alloc, bytes),
        FieldName::Goldilocks => encoded::<FieldUnit<Goldilocks>, Goldilocks>(alloc, bytes),
        FieldName::F257 => encoded::<FieldUnit<F257>, F257>(alloc, bytes),
    }
}

// The symbols that a byte string is, or why it is none.
fn encoded<U: Unit<Item = T>, T: Symbol>(alloc: Global, bytes: &[u8]) -> Result<String>
    requires { U.is_alphabet }
{
    let mut recorder = RecordingChallenger::new(alloc);
    match U::observe_bytes(&mut recorder, bytes) {
        Ok(()) => answer::numbers(alloc, numbers_of(alloc, recorder.symbols())?.as_slice()),
        Err(error) => Ok(error.to_string(alloc)?),
    }
}
