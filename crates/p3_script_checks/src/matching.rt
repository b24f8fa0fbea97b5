//! Whether values are right to send at a script's steps, and how many witnesses the verifier's caller carries.
ghost use Rattle.std.specs.Prelude.{◌≡◌, ◌↔◌, IsTrue};
ghost use Rattle.p3_runs.specs.{Provings.AreHanded, Runs.carried_count};
ghost use Rattle.p3_runs.specs.Values.{Nothing};
ghost use Rattle.p3_script.specs.Scripts.{play_of, value_sent, values_sent};
ghost use Rattle.p3_script_checks.specs.Places.{is_handed_at, is_carried_at};
ghost use Rattle.p3_script_prover.specs.ProverAnswers.{value_given};

use p3_challenger_core::Sponge;
use p3_script::{Meaning, Sent, Standing, Step, Suite, standing_of};

/// Returns whether these values can be handed to a prover for the steps. There is one for each step that sends one, in
/// the order of the steps. Each is of its step's type and, where the step fixes a length, of that length.
///
/// `prove` requires this of its values. Not in the Rust crate.
pub fn sent_matches<S: Suite>(steps: &[Step<S>], sent: &[Sent<S>]) -> bool
    ensures { let rules = ⟦<S as Meaning>⟧.rules S.Field.DIMENSION in
        IsTrue result ↔ AreHanded (play_of rules) steps.now (values_sent sent.now) }
{
    let mut at = 0;
    for step in steps {
        if is_sent(step) {
            match sent.get(at) {
                Some(value) if is_handed(step, value) => at += 1,
                _ => return false,
            }
        }
    }
    at == sent.len()
}

/// Returns whether a prover can be handed this value for this step, or nothing for a step that sends none.
///
/// `prover_step` requires this of its value. Not in the Rust crate.
pub fn step_matches<S: Suite>(step: &Step<S>, sent: Option<&Sent<S>>) -> bool
    ensures { let rules = ⟦<S as Meaning>⟧.rules S.Field.DIMENSION in
        IsTrue result ↔ (play_of rules step.now).IsHanded (value_given sent.entry) }
{
    match sent {
        Some(value) => is_handed(step, value),
        None => sends_nothing(step),
    }
}

/// Returns how many witnesses a verifier's caller carries to the steps: one for each `ObservePow`.
///
/// Not in the Rust crate.
pub fn carried_len<S: Suite>(steps: &[Step<S>]) -> usize
    ensures { let rules = ⟦<S as Meaning>⟧.rules S.Field.DIMENSION in
        result ≡ carried_count (play_of rules) steps.now }
{
    let mut count = 0;
    for step in steps {
        if is_carried(step) {
            count += 1;
        }
    }
    count
}

// Whether the step sends a value that its prover is handed.
fn is_sent<S: Suite>(step: &Step<S>) -> bool
    ensures { let rules = ⟦<S as Meaning>⟧.rules S.Field.DIMENSION in
        result ≡ is_handed_at (play_of rules step.now).place }
{
    matches!(standing_of(step), Standing::Sent)
}

// Whether the step has a witness that the verifier's caller carries.
fn is_carried<S: Suite>(step: &Step<S>) -> bool
    ensures { let rules = ⟦<S as Meaning>⟧.rules S.Field.DIMENSION in
        result ≡ is_carried_at (play_of rules step.now).place }
{
    matches!(standing_of(step), Standing::Carried)
}

// Whether the step's prover is handed nothing.
fn sends_nothing<S: Suite>(step: &Step<S>) -> bool
    ensures { let rules = ⟦<S as Meaning>⟧.rules S.Field.DIMENSION in
        IsTrue result ↔ (play_of rules step.now).IsHanded Nothing }
{
    !matches!(
        step,
        Step::Salt { .. }
            | Step::Bytes { .. }
            | Step::Hint { .. }
            | Step::BytesBounded { .. }
            | Step::HintBounded { .. }
            | Step::Scalar { .. }
            | Step::Scalars { .. }
            | Step::ScalarsBounded { .. }
            | Step::Extension { .. }
    )
}

// Whether the step sends a value of this one's type and, if it says how long it is, of that length.
fn is_handed<S: Suite>(step: &Step<S>, value: &Sent<S>) -> bool
    ensures { let rules = ⟦<S as Meaning>⟧.rules S.Field.DIMENSION in
        IsTrue result ↔ (play_of rules step.now).IsHanded (value_sent value.now) }
{
    match (step, value) {
        (Step::Salt { len, .. }, Sent::Bytes(bytes)) => bytes.len() == *len,
        (Step::Bytes { len, .. }, Sent::Bytes(bytes)) => bytes.len() == *len,
        (Step::Hint { len, .. }, Sent::Bytes(bytes)) => bytes.len() == *len,
        (Step::BytesBounded { .. }, Sent::Bytes(_)) => true,
        (Step::HintBounded { .. }, Sent::Bytes(_)) => true,
        (Step::Scalar { .. }, Sent::Scalar(_)) => true,
        (Step::Scalars { n, .. }, Sent::Scalars(scalars)) => scalars.len() == *n,
        (Step::ScalarsBounded { .. }, Sent::Scalars(_)) => true,
        (Step::Extension { .. }, Sent::Extension(_)) => true,
        _ => false,
    }
}
