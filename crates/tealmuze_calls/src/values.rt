//! The values that a prover sends, as bytes.
ghost use Rattle.std.specs.Prelude.{◌≡◌, ℕ, List, ◌++◌, IfOk};
ghost use Rattle.p3_challenger.specs.Scripts.{value_sent, values_sent};
ghost use Rattle.tealmuze_calls.specs.{Errors.FailsOnlyWithNone, Told.IsSendable, Readings.IsListHeld};
ghost use Rattle.tealmuze_calls.specs.Forms.{listed_bytes, value_bytes};

use crate::cursor::Cursor;
use crate::suites::Called;
use crate::unanswered::Unanswered;
use crate::words::{element, scalar, scalars};
use p3_challenger::fs::script::Sent;
use p3_field::BasedVectorSpace;
use std::alloc::Global;

/// The values that these bytes encode.
///
/// The error is [`Unanswered::OutOfMemory`], or where they encode none [`Unanswered::Ends`], [`Unanswered::LeftOver`] or
/// [`Unanswered::Values`].
pub fn parse_values<S: Called>(alloc: Global, bytes: &[u8]) -> Result<Vec<Sent<S>>, Unanswered>
    ensures ok { IfOk result (λ sent. bytes.now
        ≡ listed_bytes (value_bytes S.Field.residues.number S.Extension.coefficients)
        (values_sent sent.items)) }
    ensures held { IfOk result (λ sent. IsListHeld IsSendable (values_sent sent.items)) }
    ensures err { FailsOnlyWithNone result (λ sent. values_sent sent.items) (λ values. IsListHeld IsSendable values
        × (bytes.now ≡ listed_bytes (value_bytes S.Field.residues.number S.Extension.coefficients) values)) }
{
    let mut from = Cursor::new(bytes);
    let count = from.number()?;
    let mut sent = Vec::new(alloc);
    for read in 0..count {
        sent.push(parse_value(alloc, &mut from)?)?;
    }
    if !from.is_empty() {
        return Err(Unanswered::LeftOver);
    }
    Ok(sent)
}

/// The next value that these bytes encode.
///
/// The errors are those of [`parse_values`].
pub fn parse_value<S: Called>(alloc: Global, from: &mut Cursor<'_>) -> Result<Sent<S>, Unanswered>
    ensures ok { IfOk result (λ sent. from.old.left.now
        ≡ value_bytes S.Field.residues.number S.Extension.coefficients (value_sent sent)
        ++ from.new.left.now) }
    ensures held { IfOk result (λ sent. IsSendable (value_sent sent)) }
    ensures err { FailsOnlyWithNone result value_sent (λ value. (left : List ℕ) × (IsSendable value
        × (from.old.left.now
        ≡ value_bytes S.Field.residues.number S.Extension.coefficients value ++ left))) }
{
    match from.byte()? {
        0 => Ok(Sent::Bytes(Vec::from_slice(alloc, from.counted()?)?)),
        1 => Ok(Sent::Scalar(scalar(from.number()?).ok_or(Unanswered::Values)?)),
        2 => {
            let numbers = from.numbers(alloc)?;
            Ok(Sent::Scalars(scalars(alloc, numbers.as_slice())?))
        }
        3 => {
            let numbers = from.so_many(alloc, S::Extension::DIMENSION)?;
            Ok(Sent::Extension(element(numbers.as_slice()).ok_or(Unanswered::Values)?))
        }
        _ => Err(Unanswered::Values),
    }
}
