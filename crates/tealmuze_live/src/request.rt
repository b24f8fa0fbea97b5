//! What is asked of a side at one call: a step in the form that descriptions have, and the value that comes with it.
ghost use Rattle.std.specs.Prelude.{◌≡◌, IfOk, IfSome};
ghost use Rattle.tealmuze_calls.specs.{Descriptions.IsRead, Forms.{scalar_bytes, value_bytes}};
ghost use Rattle.tealmuze_live.specs.Lives.{bytes_if_given, value_handed};

use p3_challenger::fs::Label;
use p3_challenger::fs::script::{Sent, Step};
use std::alloc::Global;
use tealmuze_calls::{Called, Cursor, Protocol, Unanswered, parse_step, parse_value, scalar};

/// Reads a step in the form that descriptions have. Its label has to be that of the step at this position of the
/// protocol's pattern.
///
/// The errors are [`Unanswered::OutOfMemory`], [`Unanswered::Ends`] and [`Unanswered::NoText`]; [`Unanswered::NotNext`]
/// where the label is another; and [`Unanswered::Step`] with the position where the suite has no step of this form.
pub fn parse_next_step<S: Called>(
    alloc: Global,
    protocol: &Protocol<S>,
    position: usize,
    from: &mut Cursor<'_>,
) -> Result<Step<S>, Unanswered>
    ensures { IfOk result (IsRead S.Field.residues.number S.Extension.coefficients S.opaque_numbers S.are_opaque
        from.old.left.now from.new.left.now) }
{
    let what = from.byte()?;
    let label = label_named(protocol, position, from.text()?).ok_or(Unanswered::NotNext)?;
    let numbers = from.numbers(alloc)?;
    match parse_step(alloc, what, label, numbers.as_slice()) {
        Ok(step) => Ok(step),
        Err(Unanswered::OutOfMemory) => Err(Unanswered::OutOfMemory),
        Err(_) => Err(Unanswered::Step(position)),
    }
}

// The label of the step at this position of the pattern, if it has this text.
fn label_named<S: Called>(protocol: &Protocol<S>, position: usize, text: &str) -> Option<Label>
    ensures { IfSome result (λ label. label.now ≡ text.now) }
{
    let interaction = protocol.separator.pattern().interactions().get(position)?;
    let label = interaction.label();
    if label == text { Some(label) } else { None }
}

/// Reads the value that a prover sends, if there is one. Nothing may stand after it.
pub fn parse_sent<S: Called>(
    alloc: Global,
    from: &mut Cursor<'_>,
) -> Result<Option<Sent<S>>, Unanswered>
    ensures { IfOk result (λ sent. from.old.left.now
        ≡ value_bytes S.Field.residues.number S.Extension.coefficients (value_handed sent)) }
{
    if from.is_empty() {
        return Ok(None);
    }
    let value = parse_value(alloc, from)?;
    if !from.is_empty() {
        return Err(Unanswered::LeftOver);
    }
    Ok(Some(value))
}

/// Reads the number of the witness that a verifier's caller carries, if there is one. Nothing may stand after it.
pub fn parse_carried<S: Called>(from: &mut Cursor<'_>) -> Result<Option<S::Field>, Unanswered>
    ensures { IfOk result (λ witness. from.old.left.now
        ≡ bytes_if_given (scalar_bytes S.Field.residues.number S.Extension.coefficients) witness) }
{
    if from.is_empty() {
        return Ok(None);
    }
    let number = from.number()?;
    if !from.is_empty() {
        return Err(Unanswered::LeftOver);
    }
    Ok(Some(scalar(number).ok_or(Unanswered::Carried)?))
}
