//! What the arguments of a command line ask for.
ghost use Rattle.std.specs.Prelude.{◌≤◌, List, ◌∷◌, length, map, IfSome, IfNone};
ghost use Rattle.p3_field.specs.BabyBearResidues.{BabyBear};
ghost use Rattle.transcript_program.specs.Arguments.{IsScalarText, IsOneScalar, AreScalarTexts, IsCommaText};
ghost use Rattle.transcript_program.specs.Arguments.{IsListText, IsOneList, IsToProve, AreToProve, Asks};

use arrayvec::ArrayVec;
use hex::FromHex;
use p3_field::{BabyBear, PrimeField64};

// How many bytes the salt has, the note at most, and how many scalars the public list and that of the values have at
// most.
pub const SALT_LEN: usize = 8;

pub const MAX_NOTE_LEN: usize = 16;

pub const MAX_SCALARS: usize = 4;

/// A short list of scalars.
pub type Scalars = ArrayVec<BabyBear, MAX_SCALARS>;

/// What a command line asks for.
#[derive(Drop)]
pub enum Request<'a> {
    /// To send this scalar and to draw one.
    First(BabyBear),
    /// The pattern of the demo protocol.
    DemoPattern,
    /// A proof of the demo protocol.
    Prove(ToProve<'a>),
    /// To verify a proof of the demo protocol with these public inputs.
    Verify(Scalars),
}

/// What a prover of the demo protocol has.
#[derive(Drop)]
pub struct ToProve<'a> {
    /// The public list.
    pub inputs: Scalars,
    /// The salt.
    pub salt: [u8; SALT_LEN],
    /// The values that it sends.
    pub values: Scalars,
    /// The note that it sends.
    pub note: &'a str,
}

/// What these arguments ask for, if they ask for anything.
pub fn parse<'a>(arguments: &[&'a str]) -> Option<Request<'a>>
    ensures some { IfSome result (λ request. Asks (map (λ argument. argument.now) arguments.now) request) }
    ensures none { IfNone result ((request : Request) → Asks (map (λ argument. argument.now) arguments.now) request → ⊥) }
{
    let (name, args) = arguments.split_first()?;
    parse_request(*name, args)
}

fn parse_request<'a>(name: &str, args: &[&'a str]) -> Option<Request<'a>>
    ensures some { IfSome result (λ request. Asks (name.now ∷ map (λ argument. argument.now) args.now) request) }
    ensures none { IfNone result ((request : Request) → Asks (name.now ∷ map (λ argument. argument.now) args.now) request → ⊥) }
{
    if name == "first" {
        return Some(Request::First(parse_one(args)?));
    }
    if name == "pattern" && args.is_empty() {
        return Some(Request::DemoPattern);
    }
    if name == "prove" {
        return Some(Request::Prove(parse_to_prove(args)?));
    }
    if name == "verify" {
        return Some(Request::Verify(parse_one_list(args)?));
    }
    None
}

fn parse_to_prove<'a>(args: &[&'a str]) -> Option<ToProve<'a>>
    ensures some { IfSome result (λ ask. AreToProve (map (λ argument. argument.now) args.now) ask) }
    ensures none { IfNone result ((ask : ToProve) → AreToProve (map (λ argument. argument.now) args.now) ask → ⊥) }
{
    match args {
        [inputs, salt, note, values @ ..] => parse_parts(*inputs, *salt, *note, values),
        _ => None,
    }
}

fn parse_parts<'a>(inputs: &str, salt: &str, note: &'a str, values: &[&str]) -> Option<ToProve<'a>>
    ensures some { IfSome result (λ ask.
        IsToProve inputs.now salt.now note.now (map (λ argument. argument.now) values.now) ask) }
    ensures none { IfNone result ((ask : ToProve) →
        IsToProve inputs.now salt.now note.now (map (λ argument. argument.now) values.now) ask → ⊥) }
{
    let inputs = parse_inputs(inputs)?;
    let salt = <[u8; SALT_LEN] as FromHex>::from_hex(salt).ok()?;
    let values = parse_values(values)?;
    if note.len() > MAX_NOTE_LEN {
        return None;
    }
    Some(ToProve {
        inputs,
        salt,
        values,
        note,
    })
}

// The one scalar that this is.
fn parse_one(args: &[&str]) -> Option<BabyBear>
    ensures some { IfSome result (λ x. IsOneScalar (map (λ argument. argument.now) args.now) x) }
    ensures none { IfNone result ((x : BabyBear) → IsOneScalar (map (λ argument. argument.now) args.now) x → ⊥) }
{
    match args {
        [scalar] => parse_scalar(*scalar),
        _ => None,
    }
}

// The one list that this is.
fn parse_one_list(args: &[&str]) -> Option<Scalars>
    ensures some { IfSome result (λ inputs. IsOneList (map (λ argument. argument.now) args.now) inputs.items) }
    ensures none { IfNone result ((xs : List BabyBear) → IsOneList (map (λ argument. argument.now) args.now) xs → ⊥) }
{
    match args {
        [list] => parse_inputs(*list),
        _ => None,
    }
}

// The scalars of a public list: `-` is the empty one.
fn parse_inputs(text: &str) -> Option<Scalars>
    ensures some { IfSome result (λ inputs. IsListText text.now inputs.items) }
    ensures none { IfNone result ((xs : List BabyBear) → IsListText text.now xs → ⊥) }
{
    if text == "-" {
        return Some(ArrayVec::new());
    }
    parse_between_commas(text)
}

// The scalars that a text writes with commas between them, if there are not too many.
fn parse_between_commas(text: &str) -> Option<Scalars>
    ensures some { IfSome result (λ inputs. IsCommaText text.now inputs.items) }
    ensures few { IfSome result (λ inputs. length inputs.items ≤ 4) }
    ensures none { IfNone result ((xs : List BabyBear) → length xs ≤ 4 → IsCommaText text.now xs → ⊥) }
{
    let mut parts: ArrayVec<&str, MAX_SCALARS> = ArrayVec::new();
    for part in text.split(',') {
        if parts.is_full() {
            return None;
        }
        parts.push(part);
    }
    parse_values(parts.as_slice())
}

// The scalars that these texts write, if there are not too many.
fn parse_values(texts: &[&str]) -> Option<Scalars>
    ensures some { IfSome result (λ values. AreScalarTexts (map (λ text. text.now) texts.now) values.items) }
    ensures few { IfSome result (λ values. length texts.now ≤ 4) }
    ensures none { IfNone result ((values : List BabyBear) → length texts.now ≤ 4 →
        AreScalarTexts (map (λ text. text.now) texts.now) values → ⊥) }
{
    let mut values = ArrayVec::new();
    for text in texts {
        if values.is_full() {
            return None;
        }
        values.push(parse_scalar(*text)?);
    }
    Some(values)
}

// The scalar that a text of decimal digits writes, if its number is below the order.
fn parse_scalar(text: &str) -> Option<BabyBear>
    ensures some { IfSome result (λ x. IsScalarText text.now x) }
    ensures none { IfNone result ((x : BabyBear) → IsScalarText text.now x → ⊥) }
{
    if text.starts_with('+') {
        return None;
    }
    let value = text.parse::<u64>().ok()?;
    BabyBear::from_canonical_checked(value)
}
