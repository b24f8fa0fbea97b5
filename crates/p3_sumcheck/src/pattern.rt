//! The steps of a sumcheck in a pattern.
ghost use Rattle.std.specs.Prelude.{◌≡◌, ◌++◌, ℕ, false, IfErr, OnOk};
ghost use Rattle.p3_challenger.specs.PatternGrammar.{IsViable};
ghost use Rattle.p3_challenger.specs.TranscriptError.TheVariants.{OutOfMemory};
ghost use Rattle.p3_sumcheck.specs.Sumchecks.{AreNextWhereListed, RefusesToDeclare, sumcheck_steps};

use p3_challenger::fs::{
    Declared, Hierarchy, Interaction, Kind, Length, Pattern, PatternState, TranscriptError,
};
use p3_challenger::laws::refusals::listed_steps_are_next;
use p3_field::ScalarField;
use p3_symmetric::DigestHasher;

/// Records the steps of `rounds` rounds. Each has a message of two scalars, `round`, and a scalar
/// challenge, `fold`.
///
/// The errors are those of the recorder, which took the steps before the refused one, and takes no
/// further step. If it has refused none yet, and some pattern begins with its steps and these, the
/// only error is out of memory.
pub fn declare<F: ScalarField, U, D: DigestHasher>(
    recorder: &mut PatternState<U>,
    rounds: usize,
) -> Result<(), TranscriptError>
    ensures steps { OnOk result (recorder.new.steps
        ≡ recorder.old.steps ++ sumcheck_steps ⟦<F as Declared<F, D>>⟧.algebra rounds) }
    ensures going { OnOk result (recorder.old.finished ≡ false → recorder.new.finished ≡ false) }
    ensures err { IfErr result (λ e. RefusesToDeclare
        (sumcheck_steps ⟦<F as Declared<F, D>>⟧.algebra rounds) recorder.old e recorder.new) }
    ensures only { recorder.old.finished ≡ false →
        IsViable (recorder.old.steps ++ sumcheck_steps ⟦<F as Declared<F, D>>⟧.algebra rounds) →
        IfErr result (λ e. e ≡ OutOfMemory) }
{
    let leaf = Hierarchy::Atomic;
    let pair = Interaction::algebra::<F, F, D>(leaf, Kind::Message, "round", Length::Fixed(2));
    let challenge = pair.of_same_type(leaf, Kind::Challenge, "fold", Length::Scalar);
    for _ in 0..rounds {
        recorder.interact(pair)?;
        recorder.interact(challenge)?;
    }
    Ok(())
}

/// A pattern with the steps of [`declare`] has these rounds next at a driver that stands before
/// them and has refused no step. If nothing was recorded before them, a new driver stands there.
///
/// A law: the body does nothing, and a caller cites the clause.
pub fn declared_rounds_are_next<F: ScalarField, D: DigestHasher>()
    ensures { (n : ℕ) → AreNextWhereListed (sumcheck_steps ⟦<F as Declared<F, D>>⟧.algebra n) }
{
    listed_steps_are_next();
}
