use crate::candidates::Search;
use crate::work::WorkCall;
use anyhow::{Result, bail};
use conformance_tokens::symbol::{Symbol, rows_of_symbols, symbols};
use conformance_tokens::tokens::{look_up, parse_row, parse_rows, split_name};
use std::alloc::Global;

/// A call on a challenger of `T`.
#[derive(Drop)]
pub enum ChallengerCall<T> {
    /// An observation; after the word `slice` an observation of an array, a digest, a cap or lists as a slice
    /// of one.
    Observe(Form, Observation<T>),
    Draw(Draw),
    /// `clone-draw`: what a clone draws.
    CloneDraw,
    /// `f`: the digest of a clone.
    Finalize,
    /// `st`: the cells of a duplex challenger, what is pending and the outputs left, with bars between.
    State,
    /// `permute`: what the permutation of a duplex challenger makes of its cells.
    Permute,
    /// `digest HEX`: what the hasher of a hash challenger makes of the bytes.
    Digest(Vec<u8>),
    /// Uniform bits, or a proof of work.
    Work(WorkCall),
    /// `fw W S n mask value`: the least of n candidates that passes on a hash challenger, or `none`. A candidate is
    /// encoded as the low W bytes of its number, and passes where the first of S drawn bytes, masked, is the value.
    FindWitness(Search),
}

/// How a value is observed.
#[derive(Clone, Copy)]
pub enum Form {
    /// By itself.
    Alone,
    /// As a slice of one value.
    SliceOfOne,
}

/// What is observed. A file has the canonical numbers, or the bytes.
#[derive(Drop)]
pub enum Observation<T> {
    /// `o v`: a value.
    Value(T),
    /// `ob v`: a value of the field, as an element of an algebra.
    BaseAsAlgebraElement(T),
    /// Values in a row.
    Row(RowKind, Vec<T>),
    /// An array or several, by the rows of their numbers.
    Arrays(ArraysKind, Parts, Vec<Vec<u64>>),
    /// `ov v.. / v..`: a list of lists.
    Lists(Vec<Vec<T>>),
    /// `observe-bytes HEX`: a byte string, in the challenger's alphabet.
    Bytes(Vec<u8>),
    /// `observe-element c..`: through its codec, the element with these coefficients, one or four. They are of
    /// the challenger's field, and of BabyBear where it is a challenger of bytes.
    Element(Vec<u64>),
}

/// What a row of values is.
#[derive(Clone, Copy)]
pub enum RowKind {
    /// `os v..`: a slice.
    Slice,
    /// `oe v v v v`: an element of an algebra, by its coefficients.
    AlgebraElement,
    /// `oes v v v v ..`: a slice of such elements.
    AlgebraSlice,
}

/// What arrays are observed as.
#[derive(Clone, Copy)]
pub enum ArraysKind {
    /// `oa v..`: an array.
    Array,
    /// `oh v..`: a digest.
    Digest,
    /// `oc v.. / v..`: a Merkle cap, whose digests have one length.
    Cap,
    /// `ocr v.. / v..`: such a cap by reference.
    CapByReference,
}

/// What the numbers of arrays are.
#[derive(Clone, Copy)]
pub enum Parts {
    /// What the challenger's digests consist of: its symbols, or of one of two fields its cells. An array of `oa` has
    /// symbols.
    OfChallenger,
    /// `oh8`, `oc8`, `oc8r`: bytes, on a challenger that serializes.
    Bytes,
    /// `oh64`, `oc64`, `oc64r`: words of 64 bits, on such a challenger.
    Words,
}

/// What is drawn.
#[derive(Clone, Copy)]
pub enum Draw {
    /// `s`: a value.
    Value,
    /// So many values.
    Values(ValuesKind, usize),
    /// `sx`: an element of an extension, as a value.
    Extension,
    /// `sxa`: an element of an algebra.
    AlgebraElement,
    /// `b n`: a number of so many bits.
    Bits(usize),
    /// `most-bits`: nothing; how many bits a draw may ask for.
    MostBits,
    /// `draw-element n`: through its codec, an element of so many coefficients, one or four, of the field that
    /// `observe-element` has.
    Element(usize),
}

/// What many values are drawn as.
#[derive(Clone, Copy)]
pub enum ValuesKind {
    /// `si n`: into a slice.
    Slice,
    /// `sv n`: a vector.
    Vector,
    /// `sa n`: an array.
    Array,
}

// The calls that observe a row, or arrays.
const ROWS: [(&str, RowKind); 3] = [
    ("os", RowKind::Slice),
    ("oe", RowKind::AlgebraElement),
    ("oes", RowKind::AlgebraSlice),
];

const ARRAYS: [(&str, (ArraysKind, Parts)); 10] = [
    ("oa", (ArraysKind::Array, Parts::OfChallenger)),
    ("oh", (ArraysKind::Digest, Parts::OfChallenger)),
    ("oc", (ArraysKind::Cap, Parts::OfChallenger)),
    ("ocr", (ArraysKind::CapByReference, Parts::OfChallenger)),
    ("oh8", (ArraysKind::Digest, Parts::Bytes)),
    ("oc8", (ArraysKind::Cap, Parts::Bytes)),
    ("oc8r", (ArraysKind::CapByReference, Parts::Bytes)),
    ("oh64", (ArraysKind::Digest, Parts::Words)),
    ("oc64", (ArraysKind::Cap, Parts::Words)),
    ("oc64r", (ArraysKind::CapByReference, Parts::Words)),
];

impl<T: Symbol> ChallengerCall<T> {
    /// Reads a call.
    pub fn parse(alloc: Global, text: &str) -> Result<ChallengerCall<T>> {
        let (name, words) = split_name(text);
        match name {
            "f" => Ok(ChallengerCall::Finalize),
            "st" => Ok(ChallengerCall::State),
            "clone-draw" => Ok(ChallengerCall::CloneDraw),
            "permute" => Ok(ChallengerCall::Permute),
            "digest" => Ok(ChallengerCall::Digest(hex::decode(alloc, words)?)),
            "slice" => ChallengerCall::observe(alloc, Form::SliceOfOne, words),
            "fw" => Ok(ChallengerCall::FindWitness(Search::parse(alloc, words)?)),
            "u" | "ue" | "g" | "gu" | "gue" | "c" | "cu" | "cue" => {
                Ok(ChallengerCall::Work(WorkCall::parse(name, words)?))
            }
            _ if name.starts_with('o') => ChallengerCall::observe(alloc, Form::Alone, text),
            _ => Ok(ChallengerCall::Draw(Draw::parse(name, words)?)),
        }
    }

    fn observe(alloc: Global, form: Form, text: &str) -> Result<ChallengerCall<T>> {
        Ok(ChallengerCall::Observe(form, Observation::parse(alloc, text)?))
    }
}

impl<T: Symbol> Observation<T> {
    fn parse(alloc: Global, text: &str) -> Result<Observation<T>> {
        let (name, words) = split_name(text);
        match name {
            "o" => Ok(Observation::Value(parse_symbol(words)?)),
            "ob" => Ok(Observation::BaseAsAlgebraElement(parse_symbol(words)?)),
            "observe-bytes" => Ok(Observation::Bytes(hex::decode(alloc, words)?)),
            "observe-element" => Ok(Observation::Element(parse_row(alloc, words)?)),
            "os" | "oe" | "oes" => {
                let kind = look_up(&ROWS, name)?;
                Ok(Observation::Row(kind, parse_symbols(alloc, words)?))
            }
            "ov" => Ok(Observation::Lists(parse_lists(alloc, words)?)),
            _ => {
                let (kind, parts) = look_up(&ARRAYS, name)?;
                Ok(Observation::Arrays(kind, parts, parse_rows(alloc, words)?))
            }
        }
    }
}

fn parse_symbol<T: Symbol>(word: &str) -> Result<T> {
    T::of_number(word.parse()?)
}

fn parse_symbols<T: Symbol>(alloc: Global, words: &str) -> Result<Vec<T>> {
    symbols(alloc, parse_row(alloc, words)?.as_slice())
}

fn parse_lists<T: Symbol>(alloc: Global, words: &str) -> Result<Vec<Vec<T>>> {
    rows_of_symbols(alloc, parse_rows(alloc, words)?.as_slice())
}

impl Draw {
    fn parse(name: &str, words: &str) -> Result<Draw> {
        match name {
            "s" => Ok(Draw::Value),
            "sx" => Ok(Draw::Extension),
            "sxa" => Ok(Draw::AlgebraElement),
            "si" => Ok(Draw::Values(ValuesKind::Slice, words.parse()?)),
            "sv" => Ok(Draw::Values(ValuesKind::Vector, words.parse()?)),
            "sa" => Ok(Draw::Values(ValuesKind::Array, words.parse()?)),
            "b" => Ok(Draw::Bits(words.parse()?)),
            "most-bits" => Ok(Draw::MostBits),
            "draw-element" => Ok(Draw::Element(words.parse()?)),
            _ => bail!("an unknown call"),
        }
    }
}
