use crate::candidates::least_candidate;
use crate::challenger_call::{ArraysKind, ChallengerCall, Draw, Form, Observation, Parts, RowKind};
use crate::digests::{ObservesArrays, cap, observe_digests, observe_rows};
use crate::replay::{Replayed, answer_made, first_difference};
use crate::subject::{
    Subject, Way, draw_element, draw_symbols, finalized, observe, observe_bytes, observe_element,
};
use crate::symmetric::digest_of;
use anyhow::{Result, bail};
use conformance_tokens::answer;
use conformance_tokens::line::Step;
use conformance_tokens::symbol::{Extended, numbers_of, symbols};
use conformance_tokens::tokens::split_name;
use p3_challenger_core::{CanObserve, CanSample};
use p3_codecs::{BytesToFieldCodec, ExtensionFieldCodec};
use p3_field::BabyBear;
use p3_hash_challenger::HashChallenger;
use p3_symmetric::{CryptographicHasher, Sha256Hasher};
use p3_test_support::{LengthHasher, SumHasher};
use std::alloc::Global;

type Hashing<H> = Subject<HashChallenger<u8, H, 32>>;

/// The first call with another answer, on a new challenger of a hash function. The spec is the hash
/// function, and in hexadecimal the initial state where there is one.
pub fn difference(
    alloc: Global,
    way: Way,
    spec: &str,
    steps: &[Step<'_>],
) -> Result<Option<(usize, String)>> {
    let (hasher, initial) = split_name(spec);
    let initial = hex::decode(alloc, initial)?;
    match hasher {
        "len" => first_difference(alloc, new_subject(initial, LengthHasher, way), steps),
        "sum" => first_difference(alloc, new_subject(initial, SumHasher, way), steps),
        "sha256" => first_difference(alloc, new_subject(initial, Sha256Hasher, way), steps),
        _ => bail!("an unknown hasher"),
    }
}

fn new_subject<H: CryptographicHasher<u8, [u8; 32]>>(
    initial: Vec<u8>,
    hasher: H,
    way: Way,
) -> Hashing<H> {
    Subject {
        challenger: HashChallenger::new(initial, hasher),
        way,
    }
}

impl<H: CryptographicHasher<u8, [u8; 32]>> Replayed for Hashing<H> {
    fn answer(&mut self, alloc: Global, call: &str) -> Result<String> {
        let call = ChallengerCall::<u8>::parse(alloc, call)?;
        match call {
            ChallengerCall::Observe(form, Observation::Arrays(kind, Parts::OfChallenger, rows)) => {
                let made = observe_rows::<u8, _>(alloc, self, form, kind, rows.as_slice());
                answer_made(alloc, made)
            }
            ChallengerCall::Observe(form, Observation::Lists(lists)) => {
                answer_made(alloc, observe(alloc, self, form, lists))
            }
            ChallengerCall::CloneDraw => clone_draw(alloc, &self.challenger),
            ChallengerCall::Finalize => digest(alloc, &self.challenger),
            ChallengerCall::Digest(bytes) => {
                let digest = digest_of(*self.challenger.hasher(), bytes.as_slice());
                Ok(hex::encode(alloc, &digest[..])?)
            }
            ChallengerCall::State => state(alloc, &self.challenger),
            ChallengerCall::FindWitness(search) => {
                least_candidate(alloc, &self.challenger, search)
            }
            _ => answer_bytes::<BabyBear, _>(alloc, self, call),
        }
    }
}

impl<H: CryptographicHasher<u8, [u8; 32]>, const N: usize> ObservesArrays<u8, N> for Hashing<H> {
    fn observe_arrays(
        &mut self,
        alloc: Global,
        form: Form,
        kind: ArraysKind,
        first: [u8; N],
        rest: &[Vec<u8>],
    ) -> Result<()> {
        observe_arrays(alloc, self, form, kind, first, rest)
    }
}

// Observes an array, or several of one length as a cap.
fn observe_arrays<H: CryptographicHasher<u8, [u8; 32]>, const N: usize>(
    alloc: Global,
    subject: &mut Hashing<H>,
    form: Form,
    kind: ArraysKind,
    first: [u8; N],
    rest: &[Vec<u8>],
) -> Result<()> {
    match kind {
        ArraysKind::Array if rest.is_empty() => observe(alloc, subject, form, first),
        ArraysKind::CapByReference => {
            let lent = cap::<u8, u8, N>(alloc, first, rest)?;
            observe(alloc, subject, form, &lent)
        }
        _ => observe_digests::<u8, u8, _, N>(alloc, subject, form, kind, first, rest),
    }
}

// The digest of a clone.
fn digest<H: CryptographicHasher<u8, [u8; 32]>>(
    alloc: Global,
    challenger: &HashChallenger<u8, H, 32>,
) -> Result<String> {
    let digest = finalized(challenger.clone()?);
    Ok(hex::encode(alloc, &digest[..])?)
}

// What a clone draws.
fn clone_draw<H: CryptographicHasher<u8, [u8; 32]>>(
    alloc: Global,
    challenger: &HashChallenger<u8, H, 32>,
) -> Result<String> {
    let mut clone = Subject {
        challenger: challenger.clone()?,
        way: Way::Direct,
    };
    answer_bytes::<BabyBear, _>(alloc, &mut clone, ChallengerCall::Draw(Draw::Value))
}

// What a call is answered that all challengers of bytes have. Elements are those of the field.
fn answer_bytes<F: Extended, C: CanObserve<u8> + CanSample<u8>>(
    alloc: Global,
    subject: &mut Subject<C>,
    call: ChallengerCall<u8>,
) -> Result<String> {
    match call {
        ChallengerCall::Observe(Form::Alone, observation) => {
            let made =
                with_challenger!(subject, challenger => observe_on::<F, _>(alloc, challenger, observation));
            answer_made(alloc, made)
        }
        ChallengerCall::Draw(draw) => {
            let numbers =
                with_challenger!(subject, challenger => draw_on::<F, _>(alloc, challenger, draw))?;
            answer::numbers(alloc, numbers.as_slice())
        }
        _ => bail!("bytes are no field"),
    }
}

// Observes what is no array.
fn observe_on<F: Extended, C: CanObserve<u8> + CanSample<u8>>(
    alloc: Global,
    challenger: &mut C,
    observation: Observation<u8>,
) -> Result<()> {
    match observation {
        Observation::Value(value) => Ok(challenger.observe(value)?),
        Observation::Row(RowKind::Slice, row) => Ok(challenger.observe_slice(row.as_slice())?),
        Observation::Bytes(bytes) => observe_bytes::<u8, C>(challenger, bytes.as_slice()),
        Observation::Element(coefficients) => {
            let coefficients = symbols::<F>(alloc, coefficients.as_slice())?;
            observe_through_codec(challenger, coefficients.as_slice())
        }
        _ => bail!("bytes are no field"),
    }
}

fn observe_through_codec<F: Extended, C: CanObserve<u8> + CanSample<u8>>(
    challenger: &mut C,
    coefficients: &[F],
) -> Result<()> {
    match coefficients.len() {
        1 => observe_element::<F, F, BytesToFieldCodec<F>, C>(challenger, coefficients),
        _ => observe_element::<
            F,
            F::Extension,
            ExtensionFieldCodec<F, F::Extension, BytesToFieldCodec<F>>,
            C,
        >(challenger, coefficients),
    }
}

// What is drawn, as numbers.
fn draw_on<F: Extended, C: CanObserve<u8> + CanSample<u8>>(
    alloc: Global,
    challenger: &mut C,
    draw: Draw,
) -> Result<Vec<u64>> {
    match draw {
        Draw::Element(1) => draw_element::<F, F, BytesToFieldCodec<F>, C>(alloc, challenger),
        Draw::Element(_) => draw_element::<
            F,
            F::Extension,
            ExtensionFieldCodec<F, F::Extension, BytesToFieldCodec<F>>,
            C,
        >(alloc, challenger),
        _ => draw_symbols(alloc, challenger, draw, 0u8),
    }
}

// What is pending and the outputs left, with a bar between.
fn state<H: CryptographicHasher<u8, [u8; 32]>>(
    alloc: Global,
    challenger: &HashChallenger<u8, H, 32>,
) -> Result<String> {
    let pending = numbers_of(alloc, challenger.input())?;
    let outputs = numbers_of(alloc, challenger.output())?;
    answer::bars(alloc, &[pending.as_slice(), outputs.as_slice()])
}
