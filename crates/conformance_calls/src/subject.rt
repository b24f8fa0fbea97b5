// A challenger that calls are made on, and the calls through its bounds: they are made on the challenger itself,
// or on a reference to it, which is a challenger too.
ghost use Rattle.std.specs.Prelude.{◌≡◌, ◌≤◌};

use crate::challenger_call::{Draw, Form, ValuesKind};
use anyhow::{Result, bail};
use conformance_tokens::symbol::{Symbol, coefficients_of, element_of, numbers_of};
use p3_challenger_core::{
    CanFinalizeDigest, CanObserve, CanSample, CanSampleBits, Sponge, sample_array,
};
use p3_codecs::{Codec, Unit};
use p3_field::{BasedVectorSpace, PrimeField64};
use std::alloc::Global;

/// The draw limit of the challengers that have one. No call of the files meets it.
pub const DRAW_LIMIT: u64 = 1 << 20;

/// How the calls of a line are made.
#[derive(Clone, Copy)]
pub enum Way {
    /// On the challenger itself.
    Direct,
    /// On a reference to it.
    ByReference,
}

/// A challenger, and how calls are made on it.
#[derive(Drop)]
pub struct Subject<C> {
    pub challenger: C,
    pub way: Way,
}

/// Observes a value in this form, through the challenger or a reference to it.
pub fn observe<V: Drop, C: CanObserve<V>>(
    alloc: Global,
    subject: &mut Subject<C>,
    form: Form,
    value: V,
) -> Result<()> {
    with_challenger!(subject, challenger => observe_in_form(alloc, challenger, form, value))
}

fn observe_in_form<V: Drop, C: CanObserve<V>>(
    alloc: Global,
    challenger: &mut C,
    form: Form,
    value: V,
) -> Result<()> {
    match form {
        Form::Alone => Ok(challenger.observe(value)?),
        Form::SliceOfOne => {
            let mut values = Vec::new(alloc);
            values.push(value)?;
            Ok(challenger.observe_slice(values.as_slice())?)
        }
    }
}

/// Observes a byte string in an alphabet.
pub fn observe_bytes<U: Unit, C: CanObserve<U::Item>>(
    challenger: &mut C,
    bytes: &[u8],
) -> Result<()>
    requires { U.is_alphabet }
{
    Ok(U::observe_bytes(challenger, bytes)?)
}

/// Observes the element of these coefficients through its codec.
pub fn observe_element<F: PrimeField64, A: BasedVectorSpace<F>, K: Codec<C, A>, C: Sponge>(
    challenger: &mut C,
    coefficients: &[F],
) -> Result<()> {
    let element: A = element_of(coefficients)?;
    Ok(K::observe(challenger, &element)?)
}

/// Draws an element through its codec: the numbers of its coefficients.
pub fn draw_element<F: Symbol + PrimeField64, A: BasedVectorSpace<F>, K: Codec<C, A>, C: Sponge>(
    alloc: Global,
    challenger: &mut C,
) -> Result<Vec<u64>>
    requires { 128 ≤ K.SECURITY_BITS }
{
    coefficients_of(alloc, &K::sample(challenger)?)
}

/// Draws a value or values: their numbers. `zero` stands in the places before.
pub fn draw_symbols<T: Symbol, C: CanSample<T>>(
    alloc: Global,
    challenger: &mut C,
    draw: Draw,
    zero: T,
) -> Result<Vec<u64>> {
    match draw {
        Draw::Value => {
            let value = challenger.sample()?;
            Ok(vec![in alloc; value.number()]?)
        }
        Draw::Values(kind, n) => {
            let values = draw_values(alloc, challenger, kind, vec![in alloc; zero; n]?)?;
            numbers_of(alloc, values.as_slice())
        }
        _ => bail!("no draw of this challenger"),
    }
}

// Draws a value for each place, by the call of this kind.
fn draw_values<T: Symbol, C: CanSample<T>>(
    alloc: Global,
    challenger: &mut C,
    kind: ValuesKind,
    mut places: Vec<T>,
) -> Result<Vec<T>> {
    match kind {
        ValuesKind::Slice => {
            challenger.sample_into_slice(places.as_mut_slice())?;
            Ok(places)
        }
        ValuesKind::Vector => Ok(challenger.sample_vec(alloc, places.len())?),
        ValuesKind::Array => draw_as_array(alloc, challenger, places.as_slice()),
    }
}

fn draw_as_array<T: Copy, C: CanSample<T>>(
    alloc: Global,
    challenger: &mut C,
    places: &[T],
) -> Result<Vec<T>> {
    with_array!(places, places => draw_array(alloc, challenger, places))
}

// Draws a value for each place of the array.
fn draw_array<T: Copy, C: CanSample<T>, const N: usize>(
    alloc: Global,
    challenger: &mut C,
    mut places: [T; N],
) -> Result<Vec<T>> {
    places = sample_array(challenger)?;
    Ok(Vec::from_array(alloc, places)?)
}

/// Draws an element as a value: the numbers of its coefficients.
pub fn draw_extension<F: Symbol + PrimeField64, A: BasedVectorSpace<F>, C: CanSample<A>>(
    alloc: Global,
    challenger: &mut C,
) -> Result<Vec<u64>> {
    coefficients_of(alloc, &challenger.sample()?)
}

/// Draws a number of so many bits.
pub fn draw_bits<C: CanSampleBits<usize>>(challenger: &mut C, bits: usize) -> Result<u64> {
    if bits > most_bits(challenger) {
        bail!("more bits than one draw has");
    }
    Ok(challenger.sample_bits(bits)? as u64)
}

/// How many bits one draw may ask for.
pub fn most_bits<C: CanSampleBits<usize>>(_challenger: &C) -> usize
    ensures { result ≡ C.most_bits }
{
    C::max_bits()
}

/// The digest that the challenger ends in.
pub fn finalized<C: CanFinalizeDigest>(challenger: C) -> C::Digest {
    challenger.finalize()
}
