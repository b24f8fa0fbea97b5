//! The protocol that the program shows.

ghost use Rattle.std.specs.Prelude.{◌≡◌, map, IfOk, IfErr};
ghost use Rattle.p3_challenger.specs.{Interactions.step_of, PatternSteps.steps_of};
ghost use Rattle.transcript_program.specs.Demo.{demo_steps};

use p3_challenger::fs::{
    Hierarchy, Interaction, InteractionPattern, Kind, Label, Length, TranscriptError,
};
use p3_field::BabyBear;
use p3_symmetric::Sha256Hasher;
use std::alloc::{AllocError, Global};

// The container of all other steps.
const DEMO: Label = "demo";

/// The pattern of the demo protocol. The one error is [`TranscriptError::OutOfMemory`].
pub fn pattern(alloc: Global) -> Result<InteractionPattern, TranscriptError>
    ensures ok { IfOk result (λ pattern. steps_of pattern ≡ demo_steps) }
    ensures err { IfErr result (λ e. e ≡ TranscriptError.OutOfMemory) }
{
    InteractionPattern::new(steps(alloc)?)
}

// A public list, a salt, a few values, a proof of work, a challenge, a note that no challenge depends on, and
// two places that are drawn.
fn steps(alloc: Global) -> Result<Vec<Interaction>, AllocError>
    ensures { IfOk result (λ steps. map step_of steps.items ≡ demo_steps) }
{
    let leaf = Hierarchy::Atomic;
    let inputs = Interaction::algebra::<BabyBear, BabyBear, Sha256Hasher>(
        leaf,
        Kind::Public,
        "inputs",
        Length::Bounded(4),
    );
    Ok(vec![in alloc;
        Interaction::marker::<()>(Hierarchy::Begin, Kind::Protocol, DEMO),
        inputs,
        Interaction::bytes(leaf, Kind::Salt, "salt", Length::Fixed(8)),
        inputs.of_same_type(leaf, Kind::Message, "values", Length::Bounded(4)),
        inputs.of_same_type(leaf, Kind::Pow, "work", Length::Fixed(8)),
        inputs.of_same_type(leaf, Kind::Challenge, "alpha", Length::Scalar),
        Interaction::bytes(leaf, Kind::Hint, "note", Length::Bounded(16)),
        Interaction::uniform_bits(leaf, Kind::Challenge, "indices", 4, Length::Fixed(2)),
        Interaction::marker::<()>(Hierarchy::End, Kind::Protocol, DEMO),
    ]?)
}
