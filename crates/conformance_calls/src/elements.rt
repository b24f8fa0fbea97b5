// Calls on a challenger of the elements of a field, through its bounds.
use crate::challenger_call::{ChallengerCall, Draw, Form, Observation, RowKind};
use crate::replay::answer_made;
use crate::subject::{
    Subject, Way, draw_bits, draw_element, draw_extension, draw_symbols, most_bits, observe_bytes,
    observe_element,
};
use crate::work::{WorkCall, plain_work};
use anyhow::{Result, bail};
use conformance_tokens::answer;
use conformance_tokens::symbol::{Extended, coefficients_of, element_of, symbols};
use p3_challenger_core::{CanSample, FieldChallenger};
use p3_codecs::{ExtensionFieldCodec, FieldToFieldCodec, FieldUnit};
use p3_field::BasedVectorSpace;
use p3_grinding::GrindingChallenger;
use std::alloc::Global;

/// What a call is answered that all challengers of elements have.
pub fn answer_elements<
    F: Extended,
    C: FieldChallenger<F> + CanSample<F::Extension> + GrindingChallenger,
>(alloc: Global, subject: &mut Subject<C>, call: ChallengerCall<F>) -> Result<String> {
    match call {
        ChallengerCall::Observe(Form::Alone, observation) => {
            answer_made(alloc, observe_elements(alloc, subject, observation))
        }
        ChallengerCall::Draw(draw) => {
            let numbers = draw_elements(alloc, subject, draw, F::ZERO)?;
            answer::numbers(alloc, numbers.as_slice())
        }
        ChallengerCall::Work(WorkCall::Plain(work)) => plain_work(alloc, subject, work),
        _ => bail!("no call on this challenger"),
    }
}

// Observes what is no array.
fn observe_elements<F: Extended, C: FieldChallenger<F>>(
    alloc: Global,
    subject: &mut Subject<C>,
    observation: Observation<F>,
) -> Result<()> {
    with_challenger!(subject, challenger => observe_on(alloc, challenger, observation))
}

fn observe_on<F: Extended, C: FieldChallenger<F>>(
    alloc: Global,
    challenger: &mut C,
    observation: Observation<F>,
) -> Result<()> {
    match observation {
        Observation::Value(value) => Ok(challenger.observe(value)?),
        Observation::BaseAsAlgebraElement(value) => {
            Ok(challenger.observe_base_as_algebra_element::<F::Extension>(value)?)
        }
        Observation::Row(kind, row) => observe_row(alloc, challenger, kind, row.as_slice()),
        Observation::Bytes(bytes) => observe_bytes::<FieldUnit<F>, C>(challenger, bytes.as_slice()),
        Observation::Element(coefficients) => {
            let coefficients = symbols::<F>(alloc, coefficients.as_slice())?;
            observe_through_codec(challenger, coefficients.as_slice())
        }
        Observation::Arrays(_, _, _) | Observation::Lists(_) => bail!("rows are arrays"),
    }
}

fn observe_row<F: Extended, C: FieldChallenger<F>>(
    alloc: Global,
    challenger: &mut C,
    kind: RowKind,
    row: &[F],
) -> Result<()> {
    match kind {
        RowKind::Slice => Ok(challenger.observe_slice(row)?),
        RowKind::AlgebraElement => {
            let element: F::Extension = element_of(row)?;
            Ok(challenger.observe_algebra_element(element)?)
        }
        RowKind::AlgebraSlice => {
            let slice = extension_elements::<F>(alloc, row)?;
            Ok(challenger.observe_algebra_slice(slice.as_slice())?)
        }
    }
}

fn extension_elements<F: Extended>(alloc: Global, coefficients: &[F]) -> Result<Vec<F::Extension>> {
    let mut found = Vec::new(alloc);
    for coefficients in coefficients.chunks(4) {
        let element: F::Extension = element_of(coefficients)?;
        found.push(element)?;
    }
    Ok(found)
}

fn observe_through_codec<F: Extended, C: FieldChallenger<F>>(
    challenger: &mut C,
    coefficients: &[F],
) -> Result<()> {
    match coefficients.len() {
        1 => observe_element::<F, F, FieldToFieldCodec<F>, C>(challenger, coefficients),
        _ => observe_element::<
            F,
            F::Extension,
            ExtensionFieldCodec<F, F::Extension, FieldToFieldCodec<F>>,
            C,
        >(challenger, coefficients),
    }
}

// What is drawn, as numbers. `zero` stands in the places before.
fn draw_elements<F: Extended, C: FieldChallenger<F> + CanSample<F::Extension>>(
    alloc: Global,
    subject: &mut Subject<C>,
    draw: Draw,
    zero: F,
) -> Result<Vec<u64>> {
    with_challenger!(subject, challenger => draw_on(alloc, challenger, draw, zero))
}

fn draw_on<F: Extended, C: FieldChallenger<F> + CanSample<F::Extension>>(
    alloc: Global,
    challenger: &mut C,
    draw: Draw,
    zero: F,
) -> Result<Vec<u64>> {
    match draw {
        Draw::Value | Draw::Values(_, _) => draw_symbols(alloc, challenger, draw, zero),
        Draw::Extension => draw_extension::<F, F::Extension, C>(alloc, challenger),
        Draw::AlgebraElement => {
            let element: F::Extension = challenger.sample_algebra_element()?;
            coefficients_of(alloc, &element)
        }
        Draw::MostBits => Ok(vec![in alloc; most_bits(challenger) as u64]?),
        Draw::Bits(bits) => Ok(vec![in alloc; draw_bits(challenger, bits)?]?),
        Draw::Element(1) => draw_element::<F, F, FieldToFieldCodec<F>, C>(alloc, challenger),
        Draw::Element(_) => draw_element::<
            F,
            F::Extension,
            ExtensionFieldCodec<F, F::Extension, FieldToFieldCodec<F>>,
            C,
        >(alloc, challenger),
    }
}
