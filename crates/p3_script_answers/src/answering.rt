//! Whole scripts, for a prover whose messages depend on the challenges.
ghost use Rattle.std.specs.Prelude.{◌≡◌, IfOk, IfErr};
ghost use Rattle.p3_runs.specs.{Runs.AreAdmitted, Verdicts.script_of};
ghost use Rattle.p3_script.specs.Scripts.{play_of, values_sent};
ghost use Rattle.p3_script_answers.specs.Answering.{AreAnswers, IsStopped};
ghost use Rattle.p3_script_prover.specs.ProverAnswers.{IsProvedScript};

use crate::asking::ask;
use crate::errors::ProveByError;
use crate::playing::{Made, play_answered};
use p3_challenger_core::Sponge;
use p3_codecs::{AlphabetOf, Codec, ExtensionFieldCodec, Unit};
use p3_domain_separator::DomainSeparator;
use p3_drivers::ProverState;
use p3_field_core::Named;
use p3_script::{Drawn, Fault, Meaning, Sent, Step, StepGroup, Suite, script_steps_are_lawful};
use p3_script_prover::Proved;
use p3_symmetric::DigestHasher;
use std::alloc::Global;

/// A proof, and the values that were answered for it. Not in the Rust crate.
#[derive(Drop)]
pub struct Answered<S: Suite> {
    /// What [`prove`](p3_script_prover::prove) returns for the values.
    pub proved: Proved<S>,

    /// The values that were answered, in the order of their steps.
    pub sent: Vec<Sent<S>>,
}

/// Plays a script from its first step to its last, as the prover, and asks for each value when its step comes. This
/// serves protocols whose messages depend on the challenges.
///
/// `answers(position, challenges)` is called once for each step that sends a value, in the order of the steps, and
/// for no other. `position` is the index of the step in `steps`, and `challenges` has everything drawn before it, in
/// order. The returned value is sent as it is, and may change from call to call. The closure may return anything:
/// another value than the protocol's, or an error.
///
/// On `Ok` the returned values are [`Answered::sent`], in order. [`Answered::proved`] is what
/// [`prove`](p3_script_prover::prove) promises for just these values, so `verify_proved` accepts the two.
///
/// The errors:
///
/// - [`ProveByError::Refused`]: the [`Fault`] of [`prove`](p3_script_prover::prove) for every list that begins with
///   the values given so far. Its position is that of the refused step, 0 for the seed, and the number of steps for
///   the end. A refused allocation for a value to keep is such a fault too.
/// - [`ProveByError::Unanswered`]: `answers` returned an error for the step at this position; the variant carries
///   it.
/// - [`ProveByError::Unfit`]: the value for the step at this position is not of the step's type or, where the step
///   fixes a length, not of that length. Nothing of it was sent.
///
/// After each error `answers` is not called again, and the challenger, the proof and the values so far are dropped.
///
/// Conditions: each step may be played by this suite, and `answers` may always be called. Not in the Rust crate.
pub fn prove_by<S: Suite, E: Drop, F: FnMut(usize, &[Drawn<S>]) -> Result<Sent<S>, E>>(
    alloc: Global,
    challenger: S::Challenger,
    separator: &DomainSeparator<S::Unit, S::Digest>,
    steps: &[Step<S>],
    mut answers: F,
) -> Result<Answered<S>, ProveByError<E>>
    requires admitted { AreAdmitted (play_of (⟦<S as Meaning>⟧.rules S.Field.DIMENSION)) steps.now }
    requires callable { F.IsAlwaysCallable answers }
    ensures proved { let rules = ⟦<S as Meaning>⟧.rules S.Field.DIMENSION in
        let script = script_of (S.Challenger.state challenger) separator.now steps.now in
        IfOk result (λ r. IsProvedScript rules script (values_sent r.sent.items) S.Challenger.state r.proved) }
    ensures answered { let rules = ⟦<S as Meaning>⟧.rules S.Field.DIMENSION in
        let script = script_of (S.Challenger.state challenger) separator.now steps.now in
        IfOk result (λ r. AreAnswers rules script F.step answers r.sent.items) }
    ensures stopped { let rules = ⟦<S as Meaning>⟧.rules S.Field.DIMENSION in
        let script = script_of (S.Challenger.state challenger) separator.now steps.now in
        IfErr result (IsStopped rules script F.step answers) }
{
    script_steps_are_lawful::<S>();
    let mut prover = match ProverState::new(alloc, challenger, separator) {
        Ok(prover) => prover,
        Err(error) => return Err(ProveByError::Refused(Fault { position: 0, error })),
    };
    let mut made = Made::new(alloc);
    for (position, step) in steps.iter().enumerate() {
        let value = match ask(&mut answers, position, step, &made.challenges) {
            Ok(value) => value,
            Err(error) => {
                prover.abort();
                return Err(error);
            }
        };
        if let Err(error) = play_answered(alloc, &mut prover, step, value, &mut made) {
            prover.abort();
            return Err(ProveByError::Refused(Fault { position, error }));
        }
    }
    match prover.finish() {
        Ok((narg, challenger)) => Ok(assemble(narg, made, challenger)),
        Err(error) => Err(ProveByError::Refused(Fault {
            position: steps.len(),
            error,
        })),
    }
}

// The proof of all steps, with what was made on the way.
fn assemble<S: Suite>(narg: Vec<u8>, made: Made<S>, challenger: S::Challenger) -> Answered<S>
    ensures narg { result.proved.narg ≡ narg }
    ensures sent { result.sent ≡ made.sent }
    ensures witnesses { result.proved.witnesses ≡ made.witnesses }
    ensures carried { result.proved.carried ≡ made.carried }
    ensures challenges { result.proved.challenges ≡ made.challenges }
    ensures challenger { result.proved.challenger ≡ challenger }
{
    let Made {
        sent,
        witnesses,
        carried,
        challenges,
    } = made;
    Answered {
        proved: Proved {
            narg,
            witnesses,
            carried,
            challenges,
            challenger,
        },
        sent,
    }
}
