//! The laws of the steps of scripts.
ghost use Rattle.p3_challenger_core.specs.Reading.{IsPrefixCode};
ghost use Rattle.p3_script.specs.ScriptLaws.{AreAllCanonical, AreAllDetermined, AreTakenWherePossible};
ghost use Rattle.p3_script.specs.ScriptLaws.{AreSentWherePossible};

use crate::groups::StepGroup;
use crate::suite::{Meaning, Suite};
use p3_challenger_core::Sponge;
use p3_codecs::{Codec, ExtensionFieldCodec};
use p3_step_laws::{
    bytes_tell_limits, carried_lists_are_let_through, draws_tell_limits, only_memory_refuses_hints,
    only_memory_refuses_sent_bytes, only_memory_refuses_sent_values, opaque_values_tell_limits,
    values_tell_limits,
};

/// The laws of every step of every script of a suite. The bytes of a step and its carried witness determine its
/// value. So does what is sent, together with the fact that a witness is the least one. Each side refuses a step that
/// may be played only when out of memory.
///
/// A law: the body only calls laws, and a caller cites the clauses. Not in the Rust crate.
pub fn script_steps_are_lawful<S: Suite>()
    ensures canonical { AreAllCanonical S S.Unit S.Challenger S.Codec S.Digest S.Group S.Unit.Item
        S.Challenger.State S.Challenger.Symbol (⟦<S as Meaning>⟧.rules S.Field.DIMENSION) }
    ensures determined { AreAllDetermined S S.Unit S.Challenger S.Codec S.Digest S.Group S.Unit.Item
        S.Challenger.State S.Challenger.Symbol (⟦<S as Meaning>⟧.rules S.Field.DIMENSION) }
    ensures taken { AreTakenWherePossible S S.Unit S.Challenger S.Codec S.Digest S.Group S.Unit.Item
        S.Challenger.State S.Challenger.Symbol (⟦<S as Meaning>⟧.rules S.Field.DIMENSION) }
    ensures sent { AreSentWherePossible S S.Unit S.Challenger S.Codec S.Digest S.Group S.Unit.Item
        S.Challenger.State S.Challenger.Symbol (⟦<S as Meaning>⟧.rules S.Field.DIMENSION) }
{
    values_are_a_code::<
        S::Extension,
        S::Challenger,
        ExtensionFieldCodec<S::Field, S::Extension, S::Codec>,
    >();
    values_tell_limits::<S::Field, S::Unit, S::Challenger, S::Codec>();
    values_tell_limits::<
        S::Extension,
        S::Unit,
        S::Challenger,
        ExtensionFieldCodec<S::Field, S::Extension, S::Codec>,
    >();
    draws_tell_limits::<S::Field, S::Challenger, S::Codec>();
    draws_tell_limits::<
        S::Extension,
        S::Challenger,
        ExtensionFieldCodec<S::Field, S::Extension, S::Codec>,
    >();
    only_memory_refuses_sent_values::<S::Field, S::Unit, S::Challenger, S::Codec>();
    only_memory_refuses_sent_values::<
        S::Extension,
        S::Unit,
        S::Challenger,
        ExtensionFieldCodec<S::Field, S::Extension, S::Codec>,
    >();
    opaque_values_tell_limits::<S::Opaque, S::Challenger>();
    bytes_tell_limits::<S::Unit, S::Challenger>();
    only_memory_refuses_sent_bytes::<S::Unit, S::Challenger>();
    only_memory_refuses_hints::<S::Challenger>();
    carried_lists_are_let_through::<S::Challenger>();
    S::Group::steps_are_lawful();
}

// The encodings of values are a prefix code.
fn values_are_a_code<A, C: Sponge, Cdc: Codec<C, A>>()
    ensures { IsPrefixCode Cdc.encoding.wire }
{}
