//! Playing a step with the answer for it, and keeping the results.
ghost use Rattle.std.specs.Prelude.{◌≡◌, ◌++◌, [], OnOk};
ghost use Rattle.p3_drivers.specs.Drivers.{proving_of};
ghost use Rattle.p3_runs.specs.Stepping.{one_of};
ghost use Rattle.p3_script.specs.{Scripts.{play_of, challenges_of}, ScriptRefusals.sides_of};
ghost use Rattle.p3_script_answers.specs.Turns.{IsAnswerFor, PlaysOrRefuses, value_answered};
ghost use Rattle.p3_script_prover.specs.Nexts.{carried_at};

use p3_challenger_core::{CanObserve, Sponge};
use p3_codecs::{AlphabetOf, Codec, ExtensionFieldCodec, Unit};
use p3_drivers::ProverState;
use p3_field_core::Named;
use p3_fs_core::TranscriptError;
use p3_script::{Drawn, Meaning, Sent, Standing, Step, StepGroup, Suite, standing_of};
use p3_script_prover::prover_step;
use p3_symmetric::DigestHasher;
use std::alloc::{AllocError, Global};

// What was answered, found and drawn so far.
#[derive(Drop)]
pub(crate) struct Made<S: Suite> {
    pub(crate) sent: Vec<Sent<S>>,
    pub(crate) witnesses: Vec<S::Field>,
    pub(crate) carried: Vec<S::Field>,
    pub(crate) challenges: Vec<Drawn<S>>,
}

impl<S: Suite> Made<S> {
    // Before the first step.
    pub(crate) fn new(alloc: Global) -> Made<S>
        ensures sent { result.sent.items ≡ [] }
        ensures witnesses { result.witnesses.items ≡ [] }
        ensures carried { result.carried.items ≡ [] }
        ensures challenges { result.challenges.items ≡ [] }
    {
        Made {
            sent: Vec::new(alloc),
            witnesses: Vec::new(alloc),
            carried: Vec::new(alloc),
            challenges: Vec::new(alloc),
        }
    }

    // Keeps what was answered for a step, and what came of it.
    fn keep(
        &mut self,
        standing: Standing,
        value: Option<Sent<S>>,
        witness: Option<S::Field>,
        drawn: Option<Drawn<S>>,
    ) -> Result<(), AllocError>
        ensures sent { OnOk result (self.new.sent.items ≡ self.old.sent.items ++ one_of value) }
        ensures witnesses { OnOk result
            (self.new.witnesses.items ≡ self.old.witnesses.items ++ one_of witness) }
        ensures carried { OnOk result
            (self.new.carried.items ≡ self.old.carried.items ++ carried_at standing (one_of witness)) }
        ensures challenges { OnOk result
            (self.new.challenges.items ≡ self.old.challenges.items ++ one_of drawn) }
    {
        push_some(&mut self.sent, value)?;
        push_some(&mut self.witnesses, witness)?;
        push_some(&mut self.carried, where_carried(standing, witness))?;
        push_some(&mut self.challenges, drawn)
    }
}

// Adds what there is.
fn push_some<T: Drop>(list: &mut Vec<T>, item: Option<T>) -> Result<(), AllocError>
    ensures { OnOk result (list.new.items ≡ list.old.items ++ one_of item) }
{
    if let Some(item) = item {
        list.push(item)?;
    }
    Ok(())
}

// A witness, where the caller carries it.
fn where_carried<T: Copy>(standing: Standing, witness: Option<T>) -> Option<T>
    ensures { one_of result ≡ carried_at standing (one_of witness) }
{
    match standing {
        Standing::Carried => witness,
        Standing::Nowhere | Standing::Sent | Standing::Found => None,
    }
}

// Plays a step with what was answered for it, and keeps that and what comes of it.
pub(crate) fn play_answered<S: Suite>(
    alloc: Global,
    prover: &mut ProverState<S::Challenger, S::Unit, S::Digest>,
    step: &Step<S>,
    value: Option<Sent<S>>,
    made: &mut Made<S>,
) -> Result<(), TranscriptError>
    requires admitted { (play_of (⟦<S as Meaning>⟧.rules S.Field.DIMENSION) step.now).admitted }
    requires answered { IsAnswerFor (play_of (⟦<S as Meaning>⟧.rules S.Field.DIMENSION) step.now) value }
    ensures played { let rules = ⟦<S as Meaning>⟧.rules S.Field.DIMENSION in
        PlaysOrRefuses (play_of rules step.now) (sides_of rules step.now)
        (value_answered value) (proving_of S.Challenger.state prover.old) made.old.witnesses.items
        made.old.carried.items (challenges_of made.old.challenges.items) result
        (proving_of S.Challenger.state prover.new) made.new.witnesses.items made.new.carried.items
        (challenges_of made.new.challenges.items) }
    ensures sent { OnOk result (made.new.sent.items ≡ made.old.sent.items ++ one_of value) }
{
    let (witness, drawn) = prover_step(alloc, prover, step, value.as_ref())?;
    match made.keep(standing_of(step), value, witness, drawn) {
        Ok(()) => Ok(()),
        Err(_) => {
            prover.halt();
            Err(TranscriptError::OutOfMemory)
        }
    }
}
