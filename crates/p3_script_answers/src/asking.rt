//! Asking for the value of a step.
ghost use Rattle.p3_script.specs.Scripts.{play_of};
ghost use Rattle.p3_script_answers.specs.Turns.{IsAsked};

use crate::errors::ProveByError;
use p3_challenger_core::Sponge;
use p3_script::{Drawn, Meaning, Sent, Standing, Step, Suite, standing_of};
use p3_script_checks::step_matches;

// Asks once for the value of a step that sends one, and takes it where it may be handed for the step. For another step
// there is nothing to ask.
pub(crate) fn ask<S: Suite, E: Drop, F: FnMut(usize, &[Drawn<S>]) -> Result<Sent<S>, E>>(
    answers: &mut F,
    position: usize,
    step: &Step<S>,
    drawn: &[Drawn<S>],
) -> Result<Option<Sent<S>>, ProveByError<E>>
    requires callable { F.IsAlwaysCallable answers.old }
    ensures callable { F.IsAlwaysCallable answers.new }
    ensures asked { IsAsked (play_of (⟦<S as Meaning>⟧.rules S.Field.DIMENSION) step.now) F.step position
        drawn.entry answers.old answers.new result }
{
    match standing_of(step) {
        Standing::Nowhere | Standing::Found | Standing::Carried => Ok(None),
        Standing::Sent => match answers(position, drawn) {
            Ok(value) => {
                if !step_matches(step, Some(&value)) {
                    return Err(ProveByError::Unfit { position });
                }
                Ok(Some(value))
            }
            Err(error) => Err(ProveByError::Unanswered { position, error }),
        },
    }
}
