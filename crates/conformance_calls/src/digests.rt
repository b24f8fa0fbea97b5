// Arrays, digests and caps: those of any challenger, observed through its bounds.
use crate::challenger_call::{ArraysKind, Form};
use crate::subject::{Subject, observe};
use anyhow::{Context, Result, bail};
use conformance_tokens::symbol::{Symbol, rows_of_symbols};
use p3_challenger_core::CanObserve;
use p3_symmetric::{Hash, MerkleCap};
use std::alloc::Global;

/// What observes arrays of N values.
pub trait ObservesArrays<T, const N: usize> {
    /// Observes an array as itself or as a digest, or it and the others as a cap.
    fn observe_arrays(
        &mut self,
        alloc: Global,
        form: Form,
        kind: ArraysKind,
        first: [T; N],
        rest: &[Vec<T>],
    ) -> Result<()>;
}

/// Observes arrays of symbols, by the rows of their numbers.
pub fn observe_rows<
    T: Symbol,
    S: ObservesArrays<T, 0>
        + ObservesArrays<T, 1>
        + ObservesArrays<T, 2>
        + ObservesArrays<T, 3>
        + ObservesArrays<T, 4>,
>(alloc: Global, subject: &mut S, form: Form, kind: ArraysKind, rows: &[Vec<u64>]) -> Result<()> {
    let rows = rows_of_symbols::<T>(alloc, rows)?;
    observe_lists(alloc, subject, form, kind, rows.as_slice())
}

/// Observes arrays, by the lists of their values.
pub fn observe_lists<
    T: Copy,
    S: ObservesArrays<T, 0>
        + ObservesArrays<T, 1>
        + ObservesArrays<T, 2>
        + ObservesArrays<T, 3>
        + ObservesArrays<T, 4>,
>(alloc: Global, subject: &mut S, form: Form, kind: ArraysKind, lists: &[Vec<T>]) -> Result<()> {
    let (first, rest) = lists.split_first().context("no array")?;
    match first.as_slice() {
        [] => <S as ObservesArrays<T, 0>>::observe_arrays(subject, alloc, form, kind, [], rest),
        [a] => <S as ObservesArrays<T, 1>>::observe_arrays(subject, alloc, form, kind, [*a], rest),
        [a, b] => {
            <S as ObservesArrays<T, 2>>::observe_arrays(subject, alloc, form, kind, [*a, *b], rest)
        }
        [a, b, c] => {
            let first = [*a, *b, *c];
            <S as ObservesArrays<T, 3>>::observe_arrays(subject, alloc, form, kind, first, rest)
        }
        [a, b, c, d] => {
            let first = [*a, *b, *c, *d];
            <S as ObservesArrays<T, 4>>::observe_arrays(subject, alloc, form, kind, first, rest)
        }
        _ => bail!("more than 4 places"),
    }
}

/// The cap of these roots, each of the length of the first one.
pub fn cap<M, T: Copy, const N: usize>(
    alloc: Global,
    first: [T; N],
    rest: &[Vec<T>],
) -> Result<MerkleCap<M, [T; N]>> {
    let mut roots = Vec::new(alloc);
    roots.push(first)?;
    for root in rest {
        match <[T; N]>::try_from(root.as_slice()) {
            Ok(root) => roots.push(root)?,
            Err(_) => bail!("roots of two lengths"),
        }
    }
    Ok(MerkleCap::new(roots))
}

/// Observes an array as a digest, or it and the others as a cap. (A cap by reference is for the caller, who knows the
/// challenger.)
#[tactic(auto, using(crate::proofs::Layouts::digest_fits))]
pub fn observe_digests<
    M,
    T: Copy,
    C: CanObserve<Hash<M, T, N>> + CanObserve<MerkleCap<M, [T; N]>>,
    const N: usize,
>(
    alloc: Global,
    subject: &mut Subject<C>,
    form: Form,
    kind: ArraysKind,
    first: [T; N],
    rest: &[Vec<T>],
) -> Result<()> {
    match kind {
        ArraysKind::Digest if rest.is_empty() => {
            observe(alloc, subject, form, Hash::<M, T, N>::from(first))
        }
        ArraysKind::Cap => {
            let cap = cap::<M, T, N>(alloc, first, rest)?;
            observe(alloc, subject, form, cap)
        }
        _ => bail!("no digest"),
    }
}
