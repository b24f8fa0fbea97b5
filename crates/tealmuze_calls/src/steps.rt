//! The steps of a protocol, as a description has them: what a step is, its label, and some numbers.
ghost use Rattle.std.specs.Prelude.{◌≡◌, ◌<◌, ◌≤◌, ◌⊎◌, ℕ, IfOk, IfSome, IfNone, ◌∷◌, []};
ghost use Rattle.tealmuze_calls.specs.Descriptions.{kind_number, IsReadAs};
ghost use Rattle.tealmuze_calls.specs.{Errors.FailsOnlyWithNone, Readings.AreSoMany};

use crate::suites::Called;
use crate::unanswered::Unanswered;
use crate::words::{element, elements, scalar, scalars};
use p3_challenger::fs::script::Step;
use p3_challenger::fs::{Kind, Label};
use std::alloc::Global;

/// The step of these parts.
///
/// The error is [`Unanswered::OutOfMemory`], or [`Unanswered::Values`] where no step of the suite has them.
pub fn parse_step<S: Called>(
    alloc: Global,
    what: u8,
    label: Label,
    numbers: &[u64],
) -> Result<Step<S>, Unanswered>
    ensures ok { IfOk result (IsReadAs S.Field.residues.number S.Extension.coefficients S.opaque_numbers S.are_opaque
        what label.now numbers.now) }
    ensures err { FailsOnlyWithNone result (λ s. s) (IsReadAs S.Field.residues.number S.Extension.coefficients
        S.opaque_numbers S.are_opaque what label.now numbers.now) }
{
    let found = match numbers {
        [] if what < 4 => single(what, label),
        [kind] if what < 6 => marker(what, label, *kind),
        [count] if what < 17 => counted(what, label, *count as usize),
        [width, n] if what < 19 => bits(what, label, *width as usize, *n as usize),
        [max, values @ ..] if what > 23 => {
            return capped(alloc, what, label, *max as usize, values);
        }
        _ => return known(alloc, what, label, numbers),
    };
    found.ok_or(Unanswered::Values)
}

// One value that is sent or drawn.
fn single<S: Called>(what: u8, label: Label) -> Option<Step<S>>
    ensures some { IfSome result (IsReadAs S.Field.residues.number S.Extension.coefficients S.opaque_numbers S.are_opaque
        what label.now []) }
    ensures none { IfNone result (3 < what) }
{
    match what {
        0 => Some(Step::Scalar { label }),
        1 => Some(Step::Extension { label }),
        2 => Some(Step::ChallengeScalar { label }),
        3 => Some(Step::ChallengeExtension { label }),
        _ => None,
    }
}

// An end of a container.
fn marker<S: Called>(what: u8, label: Label, kind: u64) -> Option<Step<S>>
    ensures some { IfSome result (IsReadAs S.Field.residues.number S.Extension.coefficients S.opaque_numbers S.are_opaque
        what label.now (kind ∷ [])) }
    ensures none { IfNone result ((what < 4) ⊎ (5 < what) ⊎ (6 < kind)) }
{
    let kind = parse_kind(kind)?;
    match what {
        4 => Some(Step::Begin { label, kind }),
        5 => Some(Step::End { label, kind }),
        _ => None,
    }
}

fn parse_kind(number: u64) -> Option<Kind>
    ensures some { IfSome result (λ kind. kind_number kind ≡ number) }
    ensures none { IfNone result (6 < number) }
{
    match number {
        0 => Some(Kind::Protocol),
        1 => Some(Kind::Public),
        2 => Some(Kind::Message),
        3 => Some(Kind::Hint),
        4 => Some(Kind::Challenge),
        5 => Some(Kind::Pow),
        6 => Some(Kind::Salt),
        _ => None,
    }
}

// A step that has one count: of bytes, of values, or of the bits of a proof of work.
fn counted<S: Called>(what: u8, label: Label, count: usize) -> Option<Step<S>>
    ensures some { IfSome result (IsReadAs S.Field.residues.number S.Extension.coefficients S.opaque_numbers S.are_opaque
        what label.now (count ∷ [])) }
    ensures none { IfNone result ((what < 6) ⊎ (16 < what)) }
{
    match what {
        6 => Some(Step::Salt { label, len: count }),
        7 => Some(Step::Bytes { label, len: count }),
        8 => Some(Step::Hint { label, len: count }),
        9 => Some(Step::BytesBounded { label, max: count }),
        10 => Some(Step::HintBounded { label, max: count }),
        11 => Some(Step::Scalars { label, n: count }),
        12 => Some(Step::ScalarsBounded { label, max: count }),
        13 => Some(Step::ChallengeScalars { label, n: count }),
        14 => Some(Step::ChallengeExtensions { label, n: count }),
        15 => Some(Step::Pow { label, bits: count }),
        16 => Some(Step::ObservePow { label, bits: count }),
        _ => None,
    }
}

// Draws of numbers of bits.
fn bits<S: Called>(what: u8, label: Label, width: usize, n: usize) -> Option<Step<S>>
    ensures some { IfSome result (IsReadAs S.Field.residues.number S.Extension.coefficients S.opaque_numbers S.are_opaque
        what label.now (width ∷ n ∷ [])) }
    ensures none { IfNone result ((what < 17) ⊎ (18 < what)) }
{
    match what {
        17 => Some(Step::ChallengeBits { label, width, n }),
        18 => Some(Step::ChallengeUniformBits { label, width, n }),
        _ => None,
    }
}

// Values that both sides know.
fn known<S: Called>(
    alloc: Global,
    what: u8,
    label: Label,
    numbers: &[u64],
) -> Result<Step<S>, Unanswered>
    ensures ok { IfOk result (IsReadAs S.Field.residues.number S.Extension.coefficients S.opaque_numbers S.are_opaque
        what label.now numbers.now) }
    ensures err { FailsOnlyWithNone result (λ s. s) (λ s. (18 < what) × (what < 24)
        × IsReadAs S.Field.residues.number S.Extension.coefficients S.opaque_numbers S.are_opaque
        what label.now numbers.now s) }
{
    match what {
        19 | 21 => one_known(what, label, numbers).ok_or(Unanswered::Values),
        20 => Ok(Step::PublicScalars {
            label,
            values: scalars(alloc, numbers)?,
        }),
        22 => Ok(Step::ObserveExtensions {
            label,
            values: elements(alloc, numbers)?,
        }),
        23 => Ok(Step::Opaque {
            label,
            value: S::opaque(alloc, numbers)?,
        }),
        _ => Err(Unanswered::Values),
    }
}

// One value that both sides know.
fn one_known<S: Called>(what: u8, label: Label, numbers: &[u64]) -> Option<Step<S>>
    ensures some { IfSome result (IsReadAs S.Field.residues.number S.Extension.coefficients S.opaque_numbers S.are_opaque
        what label.now numbers.now) }
    ensures scalar { IfNone result (what ≡ 19 →
        (number : ℕ) → number < S.Field.residues.order → numbers.now ≡ number ∷ [] → ⊥) }
    ensures element { IfNone result (what ≡ 21 →
        AreSoMany S.Extension.DIMENSION (λ number. number < S.Field.residues.order) numbers.now → ⊥) }
{
    match (what, numbers) {
        (19, [number]) => Some(Step::PublicScalar {
            label,
            value: scalar(*number)?,
        }),
        (21, _) => Some(Step::ObserveExtension {
            label,
            value: element(numbers)?,
        }),
        _ => None,
    }
}

// At most so many values that both sides know.
fn capped<S: Called>(
    alloc: Global,
    what: u8,
    label: Label,
    max: usize,
    numbers: &[u64],
) -> Result<Step<S>, Unanswered>
    ensures ok { IfOk result (IsReadAs S.Field.residues.number S.Extension.coefficients S.opaque_numbers S.are_opaque
        what label.now (max ∷ numbers.now)) }
    ensures err { FailsOnlyWithNone result (λ s. s) (λ s. (23 < what)
        × IsReadAs S.Field.residues.number S.Extension.coefficients S.opaque_numbers S.are_opaque
        what label.now (max ∷ numbers.now) s) }
{
    match what {
        24 => Ok(Step::PublicScalarsBounded {
            label,
            values: scalars(alloc, numbers)?,
            max,
        }),
        25 => {
            Ok(Step::ObserveExtensionsBounded {
                label,
                values: elements(alloc, numbers)?,
                max,
            })
        }
        _ => Err(Unanswered::Values),
    }
}
