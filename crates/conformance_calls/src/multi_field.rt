// Multi-field challengers.
use crate::challenger_call::{ArraysKind, ChallengerCall, Form, Observation, Parts};
use crate::digests::{ObservesArrays, cap, observe_digests, observe_rows};
use crate::elements::answer_elements;
use crate::replay::{Replayed, answer_made, first_difference};
use crate::subject::{Subject, Way, finalized, observe};
use anyhow::{Result, bail};
use conformance_tokens::answer;
use conformance_tokens::line::Step;
use conformance_tokens::symbol::{Extended, Symbol, numbers_of};
use conformance_tokens::tokens::split_name;
use p3_field::{
    BabyBear, F257, FieldBridge, Goldilocks, PrimeCharacteristicRing, PrimeField32, PrimeField64,
};
use p3_multi_field::MultiField32Challenger;
use p3_symmetric::{CryptographicPermutation, Turn};
use std::alloc::Global;

type MultiField<F, PF, P, const W: usize, const R: usize> = Subject<
    MultiField32Challenger<F, PF, P, W, R>,
>;

// A multi-field challenger and how calls are made on it, and a row of as many places as its digest has: generic code
// sees by such a row that a digest fits in memory.
#[derive(Drop)]
struct TwoFields<
    F: PrimeField32,
    PF: PrimeField64 + FieldBridge<F, PF>,
    P,
    const W: usize,
    const R: usize,
> {
    subject: MultiField<F, PF, P, W, R>,
    row: [PF; R],
}

/// The first call with another answer, on a new multi-field challenger. The spec is the field of its scalars and that
/// of its cells, the places that `Turn` turns by, the width and the rate.
pub fn difference(
    alloc: Global,
    way: Way,
    spec: &str,
    steps: &[Step<'_>],
) -> Result<Option<(usize, String)>> {
    let (scalars, spec) = split_name(spec);
    let (cells, shape) = split_name(spec);
    match (scalars, cells) {
        ("bb", "gl") => over_goldilocks(alloc, way, shape, steps),
        ("f257", "bb") => over_baby_bear(alloc, way, shape, steps),
        _ => bail!("an unknown pair of fields"),
    }
}

macro_rules! new_multi_field {
    (($scalars:ty, $cells:ident, $way:expr), $turn:literal, $width:literal, $rate:literal) => {
        TwoFields {
            subject: Subject {
                challenger: MultiField32Challenger::<
                    $scalars,
                    $cells,
                    Turn<$turn>,
                    $width,
                    $rate,
                >::new(Turn)?,
                way: $way,
            },
            row: [$cells::ZERO; $rate],
        }
    };
}

fn over_goldilocks(
    alloc: Global,
    way: Way,
    shape: &str,
    steps: &[Step<'_>],
) -> Result<Option<(usize, String)>> {
    difference_over!(
        new_multi_field,
        (BabyBear, Goldilocks, way),
        alloc,
        shape,
        steps
    )
}

fn over_baby_bear(
    alloc: Global,
    way: Way,
    shape: &str,
    steps: &[Step<'_>],
) -> Result<Option<(usize, String)>> {
    difference_over!(new_multi_field, (F257, BabyBear, way), alloc, shape, steps)
}

impl<
    F: Extended + PrimeField32,
    PF: PrimeField64 + FieldBridge<F, PF> + Symbol,
    P: CryptographicPermutation<[PF; W]>,
    const W: usize,
    const R: usize,
> Replayed for TwoFields<F, PF, P, W, R> {
    fn answer(&mut self, alloc: Global, call: &str) -> Result<String> {
        match call {
            "p" => Ok(
                self.subject
                    .challenger
                    .pending_f_squeeze_len()
                    .to_string(alloc)?,
            ),
            "n" => counts(alloc, &self.subject.challenger),
            "f" => digest(alloc, &self.subject.challenger, self.row),
            _ => answer_any(alloc, self, ChallengerCall::<F>::parse(alloc, call)?),
        }
    }
}

// In how many bits a scalar is packed, how many into a cell, and how many digits of one are drawn.
fn counts<
    F: PrimeField32,
    PF: PrimeField64 + FieldBridge<F, PF>,
    P: CryptographicPermutation<[PF; W]>,
    const W: usize,
    const R: usize,
>(alloc: Global, challenger: &MultiField32Challenger<F, PF, P, W, R>) -> Result<String> {
    let bits = challenger.absorb_radix_bits();
    let (absorbed, drawn) = (
        challenger.absorb_num_f_elms(),
        challenger.squeeze_num_f_elms(),
    );
    Ok(format!(in alloc; "{bits} {absorbed} {drawn}")?)
}

fn answer_any<
    F: Extended + PrimeField32,
    PF: PrimeField64 + FieldBridge<F, PF> + Symbol,
    P: CryptographicPermutation<[PF; W]>,
    const W: usize,
    const R: usize,
>(
    alloc: Global,
    fields: &mut TwoFields<F, PF, P, W, R>,
    call: ChallengerCall<F>,
) -> Result<String> {
    match call {
        ChallengerCall::Observe(form, Observation::Arrays(kind, Parts::OfChallenger, rows)) => {
            let made = observe_parts(alloc, fields, form, kind, rows.as_slice());
            answer_made(alloc, made)
        }
        ChallengerCall::Observe(form, Observation::Lists(lists)) => {
            answer_made(alloc, observe(alloc, &mut fields.subject, form, lists))
        }
        _ => answer_elements(alloc, &mut fields.subject, call),
    }
}

// Observes an array of scalars, or digests of cells.
fn observe_parts<
    F: Symbol + PrimeField32,
    PF: PrimeField64 + FieldBridge<F, PF> + Symbol,
    P: CryptographicPermutation<[PF; W]>,
    const W: usize,
    const R: usize,
>(
    alloc: Global,
    fields: &mut TwoFields<F, PF, P, W, R>,
    form: Form,
    kind: ArraysKind,
    rows: &[Vec<u64>],
) -> Result<()> {
    match kind {
        ArraysKind::Array => observe_rows::<F, _>(alloc, fields, form, kind, rows),
        _ => observe_rows::<PF, _>(alloc, &mut fields.subject, form, kind, rows),
    }
}

// An array of scalars. (One of cells is a digest.)
impl<
    F: PrimeField32,
    PF: PrimeField64 + FieldBridge<F, PF>,
    P: CryptographicPermutation<[PF; W]>,
    const W: usize,
    const R: usize,
    const N: usize,
> ObservesArrays<F, N> for TwoFields<F, PF, P, W, R> {
    fn observe_arrays(
        &mut self,
        alloc: Global,
        form: Form,
        _kind: ArraysKind,
        first: [F; N],
        rest: &[Vec<F>],
    ) -> Result<()> {
        if !rest.is_empty() {
            bail!("several arrays");
        }
        observe(alloc, &mut self.subject, form, first)
    }
}

// Digests of cells.
impl<
    F: PrimeField32,
    PF: PrimeField64 + FieldBridge<F, PF>,
    P: CryptographicPermutation<[PF; W]>,
    const W: usize,
    const R: usize,
    const N: usize,
> ObservesArrays<PF, N> for MultiField<F, PF, P, W, R> {
    fn observe_arrays(
        &mut self,
        alloc: Global,
        form: Form,
        kind: ArraysKind,
        first: [PF; N],
        rest: &[Vec<PF>],
    ) -> Result<()> {
        observe_cells(alloc, self, form, kind, first, rest)
    }
}

// Observes a digest, or several of one length as a cap.
#[tactic(auto, using(crate::proofs::Layouts::digest_fits))]
fn observe_cells<
    F: PrimeField32,
    PF: PrimeField64 + FieldBridge<F, PF>,
    P: CryptographicPermutation<[PF; W]>,
    const W: usize,
    const R: usize,
    const N: usize,
>(
    alloc: Global,
    subject: &mut MultiField<F, PF, P, W, R>,
    form: Form,
    kind: ArraysKind,
    first: [PF; N],
    rest: &[Vec<PF>],
) -> Result<()> {
    match kind {
        ArraysKind::CapByReference => {
            let lent = cap::<F, PF, N>(alloc, first, rest)?;
            observe(alloc, subject, form, &lent)
        }
        _ => observe_digests::<F, PF, _, N>(alloc, subject, form, kind, first, rest),
    }
}

// The digest of a clone, in the place of the row.
fn digest<
    F: PrimeField32,
    PF: PrimeField64 + FieldBridge<F, PF> + Symbol,
    P: CryptographicPermutation<[PF; W]>,
    const W: usize,
    const R: usize,
>(
    alloc: Global,
    challenger: &MultiField32Challenger<F, PF, P, W, R>,
    mut row: [PF; R],
) -> Result<String> {
    row = finalized(challenger.clone());
    answer::numbers(alloc, numbers_of(alloc, &row[..])?.as_slice())
}
