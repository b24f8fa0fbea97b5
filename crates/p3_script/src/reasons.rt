//! The law that a step of a script is refused for one reason.
ghost use Rattle.p3_script.specs.ScriptLaws.{AreRefusedForOneReason};

use crate::groups::StepGroup;
use crate::suite::{Meaning, Suite};
use p3_codecs::ExtensionFieldCodec;
use p3_step_laws::{
    bytes_are_refused_for_one_reason, bytes_are_unread_for_one_reason,
    carried_lists_are_refused_for_one_reason, draws_are_refused_for_one_reason,
    hints_are_refused_for_one_reason, hints_are_unread_for_one_reason,
    markers_are_refused_for_one_reason, opaque_values_are_refused_for_one_reason,
    values_are_refused_for_one_reason, values_are_unread_for_one_reason,
};

/// An admitted step of a suite's script is refused for one reason, on either side. Take any two errors from one state,
/// neither of them out of memory. The verifiers' callers carry the same witness, or the provers are handed the same
/// value. Then the two errors say the same. So a [`Fault`](crate::Fault) names the only error that is possible at its
/// state.
///
/// A law: the body only calls laws, and a caller cites the clause. Not in the Rust crate.
pub fn script_steps_are_refused_for_one_reason<S: Suite>()
    ensures { AreRefusedForOneReason S S.Unit S.Challenger S.Codec S.Digest S.Group S.Unit.Item
        S.Challenger.State S.Challenger.Symbol (⟦<S as Meaning>⟧.rules S.Field.DIMENSION) }
{
    markers_are_refused_for_one_reason::<S::Challenger>();
    values_are_refused_for_one_reason::<S::Field, S::Unit, S::Challenger, S::Codec>();
    values_are_refused_for_one_reason::<
        S::Extension,
        S::Unit,
        S::Challenger,
        ExtensionFieldCodec<S::Field, S::Extension, S::Codec>,
    >();
    draws_are_refused_for_one_reason::<S::Field, S::Challenger, S::Codec>();
    draws_are_refused_for_one_reason::<
        S::Extension,
        S::Challenger,
        ExtensionFieldCodec<S::Field, S::Extension, S::Codec>,
    >();
    values_are_unread_for_one_reason::<S::Field, S::Unit, S::Challenger, S::Codec>();
    values_are_unread_for_one_reason::<
        S::Extension,
        S::Unit,
        S::Challenger,
        ExtensionFieldCodec<S::Field, S::Extension, S::Codec>,
    >();
    carried_lists_are_refused_for_one_reason::<S::Field, S::Unit, S::Challenger, S::Codec>();
    carried_lists_are_refused_for_one_reason::<
        S::Extension,
        S::Unit,
        S::Challenger,
        ExtensionFieldCodec<S::Field, S::Extension, S::Codec>,
    >();
    opaque_values_are_refused_for_one_reason::<S::Opaque, S::Challenger>();
    bytes_are_refused_for_one_reason::<S::Unit, S::Challenger>();
    bytes_are_unread_for_one_reason::<S::Unit, S::Challenger>();
    hints_are_refused_for_one_reason::<S::Challenger>();
    hints_are_unread_for_one_reason::<S::Challenger>();
    S::Group::steps_are_refused_for_one_reason();
}
