// Fields, their algebras and names, through their bounds.
use crate::names::{AlgebraName, FieldName, Four, FourOfKoalaBear};
use anyhow::{Result, bail};
use conformance_calls::replay::Replayed;
use conformance_tokens::answer;
use conformance_tokens::symbol::{Symbol, coefficients_of};
use conformance_tokens::tokens::{look_up, parse_pair, split_name};
use p3_field::{
    Algebra, AlgebraIdentity, BabyBear, BasedVectorSpace, Coeffs, F257, Field, Goldilocks,
    KoalaBear, Named, PrimeField, PrimeField32, PrimeField64, UniformSamplingField,
};
use std::alloc::Global;

/// A call on a field. An element is answered by its canonical number.
#[derive(Clone, Copy)]
pub enum FieldCall {
    /// A call without words.
    Constant(Constant),
    /// A call with a number.
    Unary(Unary, u64),
    /// A call with two.
    Binary(Binary, u64, u64),
}

/// What a field has of its own.
#[derive(Clone, Copy)]
pub enum Constant {
    /// `zero`, `one`, `negative-one`, `default`.
    Zero,
    One,
    NegativeOne,
    Default,
    /// `bits`, `order`, `order-constant`; `field32` has the last one alone of these.
    Bits,
    Order,
    OrderConstant,
    /// `uniform-bits`: the most uniform bits that are drawn from one element. `field32` has none.
    UniformBits,
}

/// What a number gives.
#[derive(Clone, Copy)]
pub enum Unary {
    /// `u8 n`, `u16 n`, `u32 n` and `u64 n`: the element that it is.
    FromU8,
    FromU16,
    FromU32,
    FromU64,
    /// `checked n`: the element of which it is the canonical number, or `none`.
    Checked,
    /// `canonical n`: the element of which it is the canonical number; at `field32` the canonical number of the
    /// element that it is.
    Canonical,
    /// `unique n`: the number of its own of the element that it is.
    Unique,
    /// `uniform-bound n`: below which numbers n uniform bits are drawn. `field32` has none.
    UniformBound,
}

/// What the elements of two numbers give.
#[derive(Clone, Copy)]
pub enum Binary {
    /// `sum x y`, `difference x y`, `product x y`.
    Sum,
    Difference,
    Product,
    /// `power x n`: the element of x to the power n.
    Power,
}

const CONSTANTS: [(&str, Constant); 8] = [
    ("zero", Constant::Zero),
    ("one", Constant::One),
    ("negative-one", Constant::NegativeOne),
    ("default", Constant::Default),
    ("bits", Constant::Bits),
    ("order", Constant::Order),
    ("order-constant", Constant::OrderConstant),
    ("uniform-bits", Constant::UniformBits),
];

const UNARY: [(&str, Unary); 8] = [
    ("u8", Unary::FromU8),
    ("u16", Unary::FromU16),
    ("u32", Unary::FromU32),
    ("u64", Unary::FromU64),
    ("checked", Unary::Checked),
    ("canonical", Unary::Canonical),
    ("unique", Unary::Unique),
    ("uniform-bound", Unary::UniformBound),
];

const BINARY: [(&str, Binary); 4] = [
    ("sum", Binary::Sum),
    ("difference", Binary::Difference),
    ("product", Binary::Product),
    ("power", Binary::Power),
];

/// A call on an algebra over a field. An element is answered by its coefficients.
#[derive(Clone, Copy)]
pub enum AlgebraCall {
    /// `dimension`.
    Dimension,
    /// `identity`: the text that says which algebra it is.
    Identity,
    /// `zero`.
    Zero,
    /// `from v`: the element that a value of the field is.
    From(u64),
    /// `with i v`: zero with this coefficient replaced.
    With(u64, u64),
}

impl FieldCall {
    fn parse(text: &str) -> Result<FieldCall> {
        let Some((name, words)) = text.split_once(' ') else {
            return Ok(FieldCall::Constant(look_up(&CONSTANTS, text)?));
        };
        if words.contains(' ') {
            let (x, y) = parse_pair(words)?;
            return Ok(FieldCall::Binary(look_up(&BINARY, name)?, x, y));
        }
        Ok(FieldCall::Unary(look_up(&UNARY, name)?, words.parse()?))
    }
}

impl AlgebraCall {
    fn parse(text: &str) -> Result<AlgebraCall> {
        let (name, words) = split_name(text);
        Ok(match name {
            "dimension" => AlgebraCall::Dimension,
            "identity" => AlgebraCall::Identity,
            "zero" => AlgebraCall::Zero,
            "from" => AlgebraCall::From(words.parse()?),
            "with" => {
                let (index, value) = parse_pair(words)?;
                AlgebraCall::With(index, value)
            }
            _ => bail!("an unknown call"),
        })
    }
}

/// A field, of which calls ask.
#[derive(Clone, Copy)]
pub struct OfField(pub FieldName);

/// A field of order below 2^32, by its calls of 32 bits.
#[derive(Clone, Copy)]
pub struct OfField32(pub FieldName);

/// An algebra over a field.
#[derive(Clone, Copy)]
pub struct OfAlgebra(pub AlgebraName);

/// A type with a name. The calls are `name`, and `constant` for the same as the constant has it.
#[derive(Clone, Copy)]
pub struct OfType<'a>(pub &'a str);

impl Replayed for OfField {
    fn answer(&mut self, alloc: Global, call: &str) -> Result<String> {
        let call = FieldCall::parse(call)?;
        match self.0 {
            FieldName::BabyBear => of_field::<BabyBear>(alloc, call),
            FieldName::KoalaBear => of_field::<KoalaBear>(alloc, call),
            FieldName::Goldilocks => of_field::<Goldilocks>(alloc, call),
            FieldName::F257 => of_field::<F257>(alloc, call),
        }
    }
}

fn of_field<F: UniformSamplingField>(alloc: Global, call: FieldCall) -> Result<String> {
    let number = match call {
        FieldCall::Constant(constant) => constant_of::<F>(constant)?,
        FieldCall::Unary(Unary::Checked, n) => match F::from_canonical_checked(n) {
            Some(element) => element.as_canonical_u64(),
            None => return Ok(String::from_str(alloc, "none")?),
        },
        FieldCall::Unary(Unary::Unique, n) => F::from_u64(n).to_unique_u64(),
        FieldCall::Unary(Unary::UniformBound, n) => F::sampling_bits_m(usize::try_from(n)?),
        FieldCall::Unary(unary, n) => element_of::<F>(unary, n)?.as_canonical_u64(),
        FieldCall::Binary(binary, x, y) => computed::<F>(binary, x, y).as_canonical_u64(),
    };
    Ok(number.to_string(alloc)?)
}

fn constant_of<F: UniformSamplingField>(constant: Constant) -> Result<u64> {
    Ok(match constant {
        Constant::Zero => F::ZERO.as_canonical_u64(),
        Constant::One => F::ONE.as_canonical_u64(),
        Constant::NegativeOne => F::NEG_ONE.as_canonical_u64(),
        Constant::Default => F::default().as_canonical_u64(),
        Constant::Bits => F::bits() as u64,
        Constant::Order => u64::try_from(F::order())?,
        Constant::OrderConstant => F::ORDER_U64,
        Constant::UniformBits => F::MAX_SINGLE_SAMPLE_BITS as u64,
    })
}

fn element_of<F: PrimeField64>(unary: Unary, n: u64) -> Result<F> {
    match unary {
        Unary::FromU8 => Ok(F::from_u8(u8::try_from(n)?)),
        Unary::FromU16 => Ok(F::from_u16(u16::try_from(n)?)),
        Unary::FromU32 => Ok(F::from_u32(u32::try_from(n)?)),
        Unary::FromU64 => Ok(F::from_u64(n)),
        Unary::Canonical if n < F::ORDER_U64 => Ok(F::from_canonical(n)),
        _ => bail!("no canonical number"),
    }
}

fn computed<F: PrimeField64>(binary: Binary, x: u64, y: u64) -> F {
    let first = F::from_u64(x);
    match binary {
        Binary::Sum => first + F::from_u64(y),
        Binary::Difference => first - F::from_u64(y),
        Binary::Product => first * F::from_u64(y),
        Binary::Power => first.exp_u64(y),
    }
}

impl Replayed for OfField32 {
    fn answer(&mut self, alloc: Global, call: &str) -> Result<String> {
        let call = FieldCall::parse(call)?;
        match self.0 {
            FieldName::BabyBear => of_field32::<BabyBear>(alloc, call),
            FieldName::KoalaBear => of_field32::<KoalaBear>(alloc, call),
            FieldName::F257 => of_field32::<F257>(alloc, call),
            FieldName::Goldilocks => bail!("an order above 2^32"),
        }
    }
}

fn of_field32<F: PrimeField32>(alloc: Global, call: FieldCall) -> Result<String> {
    let number = match call {
        FieldCall::Unary(Unary::Canonical, n) => F::from_u64(n).as_canonical_u32(),
        FieldCall::Unary(Unary::Unique, n) => F::from_u64(n).to_unique_u32(),
        FieldCall::Constant(Constant::OrderConstant) => F::ORDER_U32,
        _ => bail!("a call on a field"),
    };
    Ok(number.to_string(alloc)?)
}

impl Replayed for OfAlgebra {
    fn answer(&mut self, alloc: Global, call: &str) -> Result<String> {
        let call = AlgebraCall::parse(call)?;
        match self.0 {
            AlgebraName::Scalars(FieldName::BabyBear) => {
                of_algebra::<BabyBear, BabyBear>(alloc, call)
            }
            AlgebraName::Scalars(FieldName::KoalaBear) => {
                of_algebra::<KoalaBear, KoalaBear>(alloc, call)
            }
            AlgebraName::Scalars(FieldName::Goldilocks) => {
                of_algebra::<Goldilocks, Goldilocks>(alloc, call)
            }
            AlgebraName::Scalars(FieldName::F257) => of_algebra::<F257, F257>(alloc, call),
            AlgebraName::Four => of_algebra::<BabyBear, Four>(alloc, call),
            AlgebraName::FourOfKoalaBear => of_algebra::<KoalaBear, FourOfKoalaBear>(alloc, call),
        }
    }
}

fn of_algebra<F: PrimeField64 + Symbol, A: AlgebraIdentity<F>>(
    alloc: Global,
    call: AlgebraCall,
) -> Result<String> {
    match call {
        AlgebraCall::Dimension => Ok((A::DIMENSION as u64).to_string(alloc)?),
        AlgebraCall::Identity => Ok(String::from_str(alloc, str::from_utf8(A::algebra_id())?)?),
        AlgebraCall::Zero => shown(alloc, A::zero()),
        AlgebraCall::From(value) => shown(alloc, A::from(F::from_u64(value))),
        AlgebraCall::With(index, value) => {
            let index = usize::try_from(index)?;
            if index >= A::DIMENSION {
                bail!("no coefficient");
            }
            shown(alloc, A::zero().with_coefficient(index, F::from_u64(value)))
        }
    }
}

fn shown<F: PrimeField64 + Symbol, A: BasedVectorSpace<F>>(
    alloc: Global,
    element: A,
) -> Result<String> {
    answer::numbers(alloc, coefficients_of(alloc, &element)?.as_slice())
}

impl Replayed for OfType<'_> {
    fn answer(&mut self, alloc: Global, call: &str) -> Result<String> {
        match self.0 {
            "u8" => of_type::<u8>(alloc, call),
            "usize" => of_type::<usize>(alloc, call),
            "()" => of_type::<()>(alloc, call),
            "bb" => of_type::<BabyBear>(alloc, call),
            "kb" => of_type::<KoalaBear>(alloc, call),
            "gl" => of_type::<Goldilocks>(alloc, call),
            "f257" => of_type::<F257>(alloc, call),
            "bb4" => of_type::<Four>(alloc, call),
            "kb4" => of_type::<FourOfKoalaBear>(alloc, call),
            "f257_3" => of_type::<Coeffs<F257, 3>>(alloc, call),
            _ => bail!("an unknown type"),
        }
    }
}

fn of_type<T: Named>(alloc: Global, call: &str) -> Result<String> {
    match call {
        "name" => Ok(String::from_str(alloc, T::type_name())?),
        "constant" => Ok(String::from_str(alloc, T::NAME)?),
        _ => bail!("an unknown call"),
    }
}
