//! How many bytes an answer may have.
ghost use Rattle.std.specs.Prelude.{◌≡◌, ◌-◌, ◌^◌, ◌∷◌, [], min};
ghost use Rattle.tealmuze_calls.specs.Rooms.{drawn_room, room_for};

use p3_challenger::Sponge;
use p3_challenger::fs::script::{Step, Suite};
use p3_field::BasedVectorSpace;

// What an answer has beside its values, and what the text of a refusal has.
const HEAD: usize = 1024;

// What a step has beside the bytes of its value: a byte, a number, a witness twice, and the length of a list.
const EACH: usize = 40;

// How many bytes an answer has for a byte of the proof or of the values, at most: of a scalar 8 for 4, but a scalar of
// any width has room.
const FOR_A_BYTE: usize = 8;

/// Returns how many bytes the answer may have, with so many bytes of a proof or of values.
pub fn wanted_room<S: Suite>(steps: &[Step<S>], len: usize) -> usize
    ensures { result ≡ room_for S.Extension.DIMENSION steps.now len }
{
    let mut wanted = HEAD.saturating_add(len.saturating_mul(FOR_A_BYTE));
    for step in steps {
        wanted = wanted.saturating_add(EACH).saturating_add(drawn(step));
    }
    wanted
}

/// Returns how many bytes the answer of one step may have, with so many bytes of a proof left.
pub fn wanted_room_of_step<S: Suite>(step: &Step<S>, len: usize) -> usize
    ensures { result ≡ room_for S.Extension.DIMENSION (step.now ∷ []) len }
{
    HEAD.saturating_add(len.saturating_mul(FOR_A_BYTE))
        .saturating_add(EACH)
        .saturating_add(drawn(step))
}

// How many bytes there are for what a step draws.
fn drawn<S: Suite>(step: &Step<S>) -> usize
    ensures { result ≡ min (drawn_room S.Extension.DIMENSION step.now) (2 ^ 64 - 1) }
{
    let element = S::Extension::DIMENSION * 8;
    match step {
        Step::ChallengeScalar { .. } => 8,
        Step::ChallengeScalars { n, .. } => n.saturating_mul(8),
        Step::ChallengeExtension { .. } => element,
        Step::ChallengeExtensions { n, .. } => n.saturating_mul(element),
        Step::ChallengeBits { n, .. } => n.saturating_mul(8),
        Step::ChallengeUniformBits { n, .. } => n.saturating_mul(8),
        _ => 0,
    }
}
