// The words of a step, read without knowing the world: what names it, its label, and its numbers.
use anyhow::{Result, bail};
use conformance_tokens::tokens::{look_up, split_first, split_name};
use p3_challenger::fs::{Kind, Label};

/// What names a step.
#[derive(Clone, Copy)]
pub enum Word {
    Sending(Sending),
    Known(Known),
    Rejecting(Rejecting),
    Asked(Asked),
}

/// A step at which something is sent: `salt HEX`, `bytes HEX`, `hint HEX`, `scs v..`, or of so many of which none is handed,
/// `salt # n`; `bytesb max HEX`, `hintb max HEX`, `scb max v..`, of at most so many; `sc v`, `ext v..`. Where nothing is handed,
/// `#` stands for it.
#[derive(Clone, Copy)]
pub enum Sending {
    Salt,
    Bytes,
    Hint,
    BytesBounded,
    HintBounded,
    Scalar,
    Scalars,
    ScalarsBounded,
    Extension,
}

/// A step whose value both sides know.
#[derive(Clone, Copy)]
pub enum Known {
    /// `pubs v..`, `pubb max v..`.
    Scalars(Count),
    /// `oexts v..`, `oextb max v..`.
    Extensions(Count),
    /// A step with one value.
    One(One),
}

/// Whether there are so many, or at most so many.
#[derive(Clone, Copy)]
pub enum Count {
    Fixed,
    AtMost,
}

/// A value that both sides know: `pub v`, `oext v..`, `opq ..`.
#[derive(Clone, Copy)]
pub enum One {
    Scalar,
    Extension,
    Opaque,
}

/// A draw that takes what a rule takes: `chr n [RULE LIMIT]`, of elements of the extension, `cur width n [RULE LIMIT]`, of
/// numbers of uniform bits.
#[derive(Clone, Copy)]
pub enum Rejecting {
    Extensions,
    UniformBits,
}

/// A step with no value and no rule: `begin KIND`, `end KIND`, a container; `chs`, `chv n`, draws of scalars; `che`, `chev n`,
/// of elements of the extension; `cb width n`, `cu width n`, of numbers of so many bits, and of uniform ones; `pow n`,
/// `opow n`, proof of work of so many bits, with the witness in the proof, or carried beside it.
#[derive(Clone, Copy)]
pub enum Asked {
    Begin(Kind),
    End(Kind),
    Scalar,
    Scalars,
    Extension,
    Extensions,
    Bits,
    UniformBits,
    Pow,
    ObservePow,
}

// Each word, with how many numbers stand after the label.
const WORDS: [(&str, (Word, usize)); 26] = [
    ("salt", (Word::Sending(Sending::Salt), 0)),
    ("bytes", (Word::Sending(Sending::Bytes), 0)),
    ("hint", (Word::Sending(Sending::Hint), 0)),
    ("bytesb", (Word::Sending(Sending::BytesBounded), 1)),
    ("hintb", (Word::Sending(Sending::HintBounded), 1)),
    ("sc", (Word::Sending(Sending::Scalar), 0)),
    ("scs", (Word::Sending(Sending::Scalars), 0)),
    ("scb", (Word::Sending(Sending::ScalarsBounded), 1)),
    ("ext", (Word::Sending(Sending::Extension), 0)),
    ("pub", (Word::Known(Known::One(One::Scalar)), 0)),
    ("pubs", (Word::Known(Known::Scalars(Count::Fixed)), 0)),
    ("pubb", (Word::Known(Known::Scalars(Count::AtMost)), 1)),
    ("oext", (Word::Known(Known::One(One::Extension)), 0)),
    ("oexts", (Word::Known(Known::Extensions(Count::Fixed)), 0)),
    ("oextb", (Word::Known(Known::Extensions(Count::AtMost)), 1)),
    ("opq", (Word::Known(Known::One(One::Opaque)), 0)),
    ("chr", (Word::Rejecting(Rejecting::Extensions), 1)),
    ("cur", (Word::Rejecting(Rejecting::UniformBits), 2)),
    ("chs", (Word::Asked(Asked::Scalar), 0)),
    ("chv", (Word::Asked(Asked::Scalars), 1)),
    ("che", (Word::Asked(Asked::Extension), 0)),
    ("chev", (Word::Asked(Asked::Extensions), 1)),
    ("cb", (Word::Asked(Asked::Bits), 2)),
    ("cu", (Word::Asked(Asked::UniformBits), 2)),
    ("pow", (Word::Asked(Asked::Pow), 1)),
    ("opow", (Word::Asked(Asked::ObservePow), 1)),
];

// What a container is of.
const KINDS: [(&str, Kind); 7] = [
    ("protocol", Kind::Protocol),
    ("public", Kind::Public),
    ("message", Kind::Message),
    ("hint", Kind::Hint),
    ("challenge", Kind::Challenge),
    ("pow", Kind::Pow),
    ("salt", Kind::Salt),
];

// The labels of a file, which are texts of the program itself.
const LABELS: [Label; 24] = [
    "p", "l0", "l1", "l2", "l3", "l4", "l5", "l6", "l7", "l8", "another", "c", "t", "v", "w", "x",
    "demo", "input", "salt", "values", "work", "alpha", "note", "indices",
];

// More refusals in a row than a script has that names no limit.
const REFUSALS: u64 = 1 << 16;

/// A step as a file writes it.
#[derive(Clone, Copy)]
pub struct Entry<'a> {
    /// What names it.
    pub word: Word,
    /// Its label.
    pub label: Label,
    /// How many bits a number of it has, for draws of bits.
    pub width: usize,
    /// How many it has, or at most has; 0 where no number stands there.
    pub n: usize,
    /// Whether `#` stands in place of what the prover is handed.
    pub is_unhanded: bool,
    /// What stands after the numbers.
    pub rest: &'a str,
}

impl<'a> Entry<'a> {
    /// Reads the words of a step. The error says what is none.
    pub fn parse(text: &'a str) -> Result<Entry<'a>> {
        let (name, tokens) = split_name(text);
        let (label, tokens) = split_name(tokens);
        let label = parse_label(label)?;
        let (word, numbers) = word_of(name, tokens)?;
        let (width, tokens) = leading(tokens, numbers == 2)?;
        let (n, rest) = leading(tokens, numbers > 0)?;
        let (n, is_unhanded) = match rest.strip_prefix('#') {
            Some(number) => (number_or(number.trim(), n)?, true),
            None => (n, false),
        };
        Ok(Entry {
            word,
            label,
            width,
            n,
            is_unhanded,
            rest,
        })
    }

    /// The rule of a draw, and after how many refusals in a row it is given up; else values that differ are drawn.
    pub fn rule(&self) -> Result<(&'a str, u64)> {
        if self.rest.is_empty() {
            return Ok(("distinct", REFUSALS));
        }
        let (rule, limit) = split_first(self.rest)?;
        Ok((rule, limit.parse()?))
    }
}

/// What a part of a script is.
#[derive(Clone, Copy)]
pub enum Part {
    Nothing,
    Change,
    Carried,
    Next,
    Handed,
    Step,
}

/// What a part is of this name.
pub fn part_of(name: &str) -> Part {
    match name {
        "" => Part::Nothing,
        "narg" | "flip" | "cut" | "more" => Part::Change,
        "carried" => Part::Carried,
        "next" => Part::Next,
        "handed" => Part::Handed,
        _ => Part::Step,
    }
}

/// What is sent, and the tokens of it.
pub fn value_of(text: &str) -> Result<(Sending, &str)> {
    let (name, tokens) = split_name(text);
    match look_up(&WORDS, name)? {
        (Word::Sending(sending), _) => Ok((sending, tokens)),
        _ => bail!("an unknown kind of value"),
    }
}

fn word_of(name: &str, tokens: &str) -> Result<(Word, usize)> {
    match name {
        "begin" => Ok((Word::Asked(Asked::Begin(look_up(&KINDS, tokens)?)), 0)),
        "end" => Ok((Word::Asked(Asked::End(look_up(&KINDS, tokens)?)), 0)),
        _ => look_up(&WORDS, name),
    }
}

// The number at the beginning, where one is there, or 0; and the tokens after it.
fn leading(tokens: &str, is_there: bool) -> Result<(usize, &str)> {
    if !is_there {
        return Ok((0, tokens));
    }
    let (number, rest) = split_name(tokens);
    Ok((number.parse()?, rest))
}

fn number_or(text: &str, other: usize) -> Result<usize> {
    match text {
        "" => Ok(other),
        number => Ok(number.parse()?),
    }
}

fn parse_label(text: &str) -> Result<Label> {
    for label in &LABELS {
        if *label == text {
            return Ok(*label);
        }
    }
    bail!("an unknown label")
}
