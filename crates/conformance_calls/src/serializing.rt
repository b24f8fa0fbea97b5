// Challengers of the elements of a field over a hash challenger.
use crate::challenger_call::{ArraysKind, ChallengerCall, Form, Observation, Parts};
use crate::digests::{ObservesArrays, cap, observe_digests, observe_lists, observe_rows};
use crate::elements::answer_elements;
use crate::replay::{Replayed, answer_made, first_difference};
use crate::subject::{DRAW_LIMIT, Subject, Way, finalized, observe};
use crate::work::{WorkCall, uniform_bits};
use anyhow::{Result, bail};
use conformance_tokens::answer;
use conformance_tokens::line::Step;
use conformance_tokens::symbol::Extended;
use conformance_tokens::tokens::split_name;
use p3_challenger_core::CanFinalizeDigest;
use p3_field::{BabyBear, F257, Goldilocks};
use p3_grinding::ByteGrindingChallenger;
use p3_hash_challenger::HashChallenger;
use p3_serializing::{SerializedIn, SerializingChallenger};
use p3_symmetric::{CryptographicHasher, Sha256Hasher};
use p3_test_support::{LengthHasher, SumHasher};
use std::alloc::Global;

type Serializing<F, Inner, const BYTES: usize> = Subject<SerializingChallenger<F, Inner, BYTES>>;

/// The first call with another answer, on a new challenger that takes 4 bytes for an element (`ser32`) or 8 (`ser64`).
/// The spec is its field, the hash function, and in hexadecimal the initial state where there is one.
pub fn difference(
    alloc: Global,
    way: Way,
    kind: &str,
    spec: &str,
    steps: &[Step<'_>],
) -> Result<Option<(usize, String)>> {
    let (field, spec) = split_name(spec);
    match (kind, field) {
        ("ser32", "bb") => difference_over::<BabyBear, 4>(alloc, way, spec, steps),
        ("ser32", "f257") => difference_over::<F257, 4>(alloc, way, spec, steps),
        ("ser64", "bb") => difference_over::<BabyBear, 8>(alloc, way, spec, steps),
        ("ser64", "f257") => difference_over::<F257, 8>(alloc, way, spec, steps),
        ("ser64", "gl") => difference_over::<Goldilocks, 8>(alloc, way, spec, steps),
        _ => bail!("an unknown field"),
    }
}

fn difference_over<F: Extended + SerializedIn<BYTES>, const BYTES: usize>(
    alloc: Global,
    way: Way,
    spec: &str,
    steps: &[Step<'_>],
) -> Result<Option<(usize, String)>> {
    let (hasher, initial) = split_name(spec);
    let initial = hex::decode(alloc, initial)?;
    match hasher {
        "len" => first_difference(
            alloc,
            new_subject::<F, _, BYTES>(initial, LengthHasher, way),
            steps,
        ),
        "sum" => first_difference(
            alloc,
            new_subject::<F, _, BYTES>(initial, SumHasher, way),
            steps,
        ),
        "sha256" => first_difference(
            alloc,
            new_subject::<F, _, BYTES>(initial, Sha256Hasher, way),
            steps,
        ),
        _ => bail!("an unknown hasher"),
    }
}

fn new_subject<F, H: CryptographicHasher<u8, [u8; 32]>, const BYTES: usize>(
    initial: Vec<u8>,
    hasher: H,
    way: Way,
) -> Serializing<F, HashChallenger<u8, H, 32>, BYTES> {
    Subject {
        challenger: SerializingChallenger::from_hasher(initial, hasher, DRAW_LIMIT),
        way,
    }
}

impl<
    F: Extended + SerializedIn<BYTES>,
    Inner: ByteGrindingChallenger<BYTES, BYTES> + CanFinalizeDigest<Digest = [u8; 32]>,
    const BYTES: usize,
> Replayed for Serializing<F, Inner, BYTES> {
    fn answer(&mut self, alloc: Global, call: &str) -> Result<String> {
        let call = ChallengerCall::<F>::parse(alloc, call)?;
        match call {
            ChallengerCall::Observe(form, Observation::Arrays(kind, parts, rows)) => {
                let made = observe_parts(alloc, self, form, kind, parts, rows.as_slice());
                answer_made(alloc, made)
            }
            _ => answer_any(alloc, self, call),
        }
    }
}

fn answer_any<
    F: Extended + SerializedIn<BYTES>,
    Inner: ByteGrindingChallenger<BYTES, BYTES> + CanFinalizeDigest<Digest = [u8; 32]>,
    const BYTES: usize,
>(
    alloc: Global,
    subject: &mut Serializing<F, Inner, BYTES>,
    call: ChallengerCall<F>,
) -> Result<String> {
    match call {
        ChallengerCall::Finalize => {
            let digest = finalized(subject.challenger.clone()?);
            Ok(hex::encode(alloc, &digest[..])?)
        }
        ChallengerCall::Work(WorkCall::UniformBits { bits, resample }) => {
            uniform_bits::<F, _>(alloc, subject, bits, resample)
        }
        _ => answer_elements(alloc, subject, call),
    }
}

// Observes digests of bytes or of words.
fn observe_parts<
    F: SerializedIn<BYTES>,
    Inner: ByteGrindingChallenger<BYTES, BYTES>,
    const BYTES: usize,
>(
    alloc: Global,
    subject: &mut Serializing<F, Inner, BYTES>,
    form: Form,
    kind: ArraysKind,
    parts: Parts,
    rows: &[Vec<u64>],
) -> Result<()> {
    match parts {
        Parts::Bytes => observe_rows::<u8, _>(alloc, subject, form, kind, rows),
        Parts::Words => observe_lists::<u64, _>(alloc, subject, form, kind, rows),
        Parts::OfChallenger => bail!("no parts of a digest"),
    }
}

impl<
    F: SerializedIn<BYTES>,
    Inner: ByteGrindingChallenger<BYTES, BYTES>,
    const BYTES: usize,
    const N: usize,
> ObservesArrays<u8, N> for Serializing<F, Inner, BYTES> {
    fn observe_arrays(
        &mut self,
        alloc: Global,
        form: Form,
        kind: ArraysKind,
        first: [u8; N],
        rest: &[Vec<u8>],
    ) -> Result<()> {
        observe_byte_arrays(alloc, self, form, kind, first, rest)
    }
}

fn observe_byte_arrays<
    F: SerializedIn<BYTES>,
    Inner: ByteGrindingChallenger<BYTES, BYTES>,
    const BYTES: usize,
    const N: usize,
>(
    alloc: Global,
    subject: &mut Serializing<F, Inner, BYTES>,
    form: Form,
    kind: ArraysKind,
    first: [u8; N],
    rest: &[Vec<u8>],
) -> Result<()> {
    match kind {
        ArraysKind::CapByReference => {
            let lent = cap::<F, u8, N>(alloc, first, rest)?;
            observe(alloc, subject, form, &lent)
        }
        _ => observe_digests::<F, u8, _, N>(alloc, subject, form, kind, first, rest),
    }
}

impl<
    F: SerializedIn<BYTES>,
    Inner: ByteGrindingChallenger<BYTES, BYTES>,
    const BYTES: usize,
    const N: usize,
> ObservesArrays<u64, N> for Serializing<F, Inner, BYTES> {
    fn observe_arrays(
        &mut self,
        alloc: Global,
        form: Form,
        kind: ArraysKind,
        first: [u64; N],
        rest: &[Vec<u64>],
    ) -> Result<()> {
        observe_word_arrays(alloc, self, form, kind, first, rest)
    }
}

fn observe_word_arrays<
    F: SerializedIn<BYTES>,
    Inner: ByteGrindingChallenger<BYTES, BYTES>,
    const BYTES: usize,
    const N: usize,
>(
    alloc: Global,
    subject: &mut Serializing<F, Inner, BYTES>,
    form: Form,
    kind: ArraysKind,
    first: [u64; N],
    rest: &[Vec<u64>],
) -> Result<()> {
    match kind {
        ArraysKind::CapByReference => {
            let lent = cap::<F, u64, N>(alloc, first, rest)?;
            observe(alloc, subject, form, &lent)
        }
        _ => observe_digests::<F, u64, _, N>(alloc, subject, form, kind, first, rest),
    }
}
