use crate::challenger_call::{ArraysKind, ChallengerCall, Draw, Form, Observation, Parts};
use crate::digests::{ObservesArrays, cap, observe_digests, observe_rows};
use crate::elements::answer_elements;
use crate::replay::{Replayed, answer_made, first_difference};
use crate::subject::{DRAW_LIMIT, Subject, Way, finalized, observe};
use crate::symmetric::permuted;
use crate::work::{WorkCall, uniform_bits, uniform_work};
use anyhow::{Context, Result, bail};
use conformance_tokens::answer;
use conformance_tokens::line::Step;
use conformance_tokens::symbol::{Extended, numbers_of};
use p3_duplex::DuplexChallenger;
use p3_field::{BabyBear, F257, Goldilocks, PackedField};
use p3_lanes::LanePermutation;
use p3_symmetric::{CryptographicPermutation, Turn};
use std::alloc::Global;

type Duplex<F, P, const W: usize, const R: usize> = Subject<DuplexChallenger<F, P, W, R>>;

/// The first call with another answer, on a new duplex challenger. The spec is its field, the places
/// that `Turn` turns by, the width and the rate.
pub fn difference(
    alloc: Global,
    way: Way,
    spec: &str,
    steps: &[Step<'_>],
) -> Result<Option<(usize, String)>> {
    let (field, shape) = spec.split_once(' ').context("no shape")?;
    match field {
        "bb" => over_baby_bear(alloc, way, shape, steps),
        "gl" => over_goldilocks(alloc, way, shape, steps),
        "f257" => over_f257(alloc, way, shape, steps),
        _ => bail!("an unknown field"),
    }
}

macro_rules! new_duplex {
    (($field:ty, $way:expr), $turn:literal, $width:literal, $rate:literal) => {
        Subject {
            challenger: DuplexChallenger::<$field, Turn<$turn>, $width, $rate>::new(
                Turn,
                DRAW_LIMIT,
            ),
            way: $way,
        }
    };
}

// The first difference on a duplex challenger of the shape that the line has.
macro_rules! duplex_difference {
    ($field:ty, $way:expr, $alloc:expr, $shape:expr, $steps:expr) => {
        match $shape {
            "1 3 2" => first_difference($alloc, new_duplex!(($field, $way), 1, 3, 2), $steps),
            _ => difference_over!(new_duplex, ($field, $way), $alloc, $shape, $steps),
        }
    };
}

fn over_baby_bear(
    alloc: Global,
    way: Way,
    shape: &str,
    steps: &[Step<'_>],
) -> Result<Option<(usize, String)>> {
    duplex_difference!(BabyBear, way, alloc, shape, steps)
}

fn over_goldilocks(
    alloc: Global,
    way: Way,
    shape: &str,
    steps: &[Step<'_>],
) -> Result<Option<(usize, String)>> {
    duplex_difference!(Goldilocks, way, alloc, shape, steps)
}

fn over_f257(
    alloc: Global,
    way: Way,
    shape: &str,
    steps: &[Step<'_>],
) -> Result<Option<(usize, String)>> {
    duplex_difference!(F257, way, alloc, shape, steps)
}

impl<F: Extended + PackedField, P: LanePermutation<F, W>, const W: usize, const R: usize> Replayed
    for Duplex<F, P, W, R> {
    fn answer(&mut self, alloc: Global, call: &str) -> Result<String> {
        let call = ChallengerCall::<F>::parse(alloc, call)?;
        match call {
            ChallengerCall::Observe(form, Observation::Arrays(kind, Parts::OfChallenger, rows)) => {
                let made = observe_rows::<F, _>(alloc, self, form, kind, rows.as_slice());
                answer_made(alloc, made)
            }
            ChallengerCall::Observe(form, Observation::Lists(lists)) => {
                answer_made(alloc, observe(alloc, self, form, lists))
            }
            ChallengerCall::CloneDraw => clone_draw(alloc, &self.challenger),
            ChallengerCall::Finalize => digest(alloc, &self.challenger),
            ChallengerCall::Permute => permute(alloc, &self.challenger),
            ChallengerCall::State => state(alloc, &self.challenger),
            ChallengerCall::Work(WorkCall::UniformBits { bits, resample }) => {
                uniform_bits::<F, _>(alloc, self, bits, resample)
            }
            ChallengerCall::Work(WorkCall::Uniform { work, resample }) => {
                uniform_work(alloc, &mut self.challenger, work, resample)
            }
            _ => answer_elements(alloc, self, call),
        }
    }
}

impl<
    F: Extended,
    P: CryptographicPermutation<[F; W]>,
    const W: usize,
    const R: usize,
    const N: usize,
> ObservesArrays<F, N> for Duplex<F, P, W, R> {
    fn observe_arrays(
        &mut self,
        alloc: Global,
        form: Form,
        kind: ArraysKind,
        first: [F; N],
        rest: &[Vec<F>],
    ) -> Result<()> {
        observe_arrays(alloc, self, form, kind, first, rest)
    }
}

// Observes an array, or several of one length as a cap.
#[tactic(auto, using(crate::proofs::Layouts::digest_fits))]
fn observe_arrays<
    F: Extended,
    P: CryptographicPermutation<[F; W]>,
    const W: usize,
    const R: usize,
    const N: usize,
>(
    alloc: Global,
    subject: &mut Duplex<F, P, W, R>,
    form: Form,
    kind: ArraysKind,
    first: [F; N],
    rest: &[Vec<F>],
) -> Result<()> {
    match kind {
        ArraysKind::Array if rest.is_empty() => observe(alloc, subject, form, first),
        ArraysKind::CapByReference => {
            let lent = cap::<F, F, N>(alloc, first, rest)?;
            observe(alloc, subject, form, &lent)
        }
        _ => observe_digests::<F, F, _, N>(alloc, subject, form, kind, first, rest),
    }
}

// What a clone draws.
fn clone_draw<F: Extended + PackedField, P: LanePermutation<F, W>, const W: usize, const R: usize>(
    alloc: Global,
    challenger: &DuplexChallenger<F, P, W, R>,
) -> Result<String> {
    let mut clone = Subject {
        challenger: challenger.clone(),
        way: Way::Direct,
    };
    answer_elements(alloc, &mut clone, ChallengerCall::<F>::Draw(Draw::Value))
}

// The digest of a clone.
fn digest<F: Extended, P: CryptographicPermutation<[F; W]>, const W: usize, const R: usize>(
    alloc: Global,
    challenger: &DuplexChallenger<F, P, W, R>,
) -> Result<String> {
    let digest = numbers_of(alloc, &finalized(challenger.clone())[..])?;
    answer::numbers(alloc, digest.as_slice())
}

// What the permutation makes of the cells.
fn permute<F: Extended, P: CryptographicPermutation<[F; W]>, const W: usize, const R: usize>(
    alloc: Global,
    challenger: &DuplexChallenger<F, P, W, R>,
) -> Result<String> {
    let cells = permuted(*challenger.permutation(), *challenger.sponge_state());
    answer::numbers(alloc, numbers_of(alloc, &cells[..])?.as_slice())
}

// The cells, what is pending and the outputs left, with bars between.
fn state<F: Extended, P: CryptographicPermutation<[F; W]>, const W: usize, const R: usize>(
    alloc: Global,
    challenger: &DuplexChallenger<F, P, W, R>,
) -> Result<String> {
    let cells = numbers_of(alloc, &challenger.sponge_state()[..])?;
    let pending = numbers_of(alloc, challenger.input())?;
    let outputs = numbers_of(alloc, challenger.output())?;
    answer::bars(
        alloc,
        &[cells.as_slice(), pending.as_slice(), outputs.as_slice()],
    )
}
