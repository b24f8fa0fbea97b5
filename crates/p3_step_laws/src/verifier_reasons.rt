//! A verifier's step that reads, or that observes a caller's list, is refused for one reason. The state before the step
//! and the bytes left determine what the error says. The same holds for proof of work, on either side. Only out of
//! memory may come in its place.
ghost use Rattle.std.specs.Prelude.{◌⊎◌, ℕ, List, length};
ghost use Rattle.p3_fs_core.specs.Steps.{Step};
ghost use Rattle.p3_driver_core.specs.{Meanings.{observed_list, observed_bounded}, Working.{work_of, RefusesToCheck}};
ghost use Rattle.p3_driver_core.specs.{Working.RefusesToGrind, Verifying.{RefusesToRead, FailsWork}};
ghost use Rattle.p3_driver_core.specs.Reads.{received_work, received, received_list, received_bounded, received_bytes};
ghost use Rattle.p3_driver_core.specs.Reads.{received_bytes_bounded, hint_received, hint_received_bounded};
ghost use Rattle.p3_step_laws.specs.OneReason.{TellOneReason, RefusesCarriedOrStep, RefusesRecordedOrStep};
ghost use Rattle.p3_step_laws.specs.Mirrored.{EachWork};

use p3_challenger_core::{CanObserve, Sponge};
use p3_codecs::{AlphabetOf, Codec, Unit};
use p3_fs_core::Kind;
use p3_grinding::GrindingChallenger;

/// A step that reads one value, a list of `n` values, or a list after its count is refused for one reason. Either it is
/// not the next one, or the bytes left encode no such value, or its count is too long for the alphabet.
///
/// A law: the body is empty, and a caller cites the clauses.
pub fn values_are_unread_for_one_reason<A, U: Unit, C: CanObserve<U::Item>, Cdc: Codec<C, A>>()
    ensures value { (step : Step) →
        TellOneReason (RefusesToRead (received step Cdc.observation Cdc.encoding)) }
    ensures list { (step : Step) (n : ℕ) →
        TellOneReason (RefusesToRead (received_list step Cdc.observation Cdc.encoding n)) }
    ensures counted { (step : Step) (max : ℕ) → TellOneReason (RefusesToRead
        (received_bounded step ⟦<U as AlphabetOf<C>>⟧.alphabet max Cdc.observation Cdc.encoding)) }
{}

/// A step that reads `n` bytes, or bytes after their count, is refused for one reason.
///
/// A law: the body is empty, and a caller cites the clauses.
pub fn bytes_are_unread_for_one_reason<U: Unit, C: CanObserve<U::Item>>()
    ensures fixed { (kind : Kind) (label : List ℕ) (n : ℕ) → TellOneReason
        (RefusesToRead (received_bytes kind label ⟦<U as AlphabetOf<C>>⟧.alphabet n)) }
    ensures counted { (label : List ℕ) (max : ℕ) → TellOneReason
        (RefusesToRead (received_bytes_bounded label ⟦<U as AlphabetOf<C>>⟧.alphabet max)) }
{}

/// A step that reads a hint is refused for one reason.
///
/// A law: the body is empty, and a caller cites the clauses.
pub fn hints_are_unread_for_one_reason<C: Sponge>()
    ensures fixed { (label : List ℕ) (n : ℕ) →
        TellOneReason (RefusesToRead {S = C.State} {Symbol = C.Symbol} (hint_received label n)) }
    ensures counted { (label : List ℕ) (max : ℕ) → TellOneReason
        (RefusesToRead {S = C.State} {Symbol = C.Symbol} (hint_received_bounded label max)) }
{}

/// A step that observes a caller's list is refused for one reason, even where the list's length may be refused before
/// anything is done. Such a list is longer than its step allows, or not as long as the next step says.
///
/// A law: the body is empty, and a caller cites the clauses.
pub fn carried_lists_are_refused_for_one_reason<
    A,
    U: Unit,
    C: CanObserve<U::Item>,
    Cdc: Codec<C, A>,
>()
    ensures within { (step : Step) (max : ℕ) (xs : List A) →
        TellOneReason (RefusesCarriedOrStep (length xs) max
        (observed_bounded step ⟦<U as AlphabetOf<C>>⟧.alphabet max Cdc.observation xs)) }
    ensures recorded { (step : Step) (xs : List A) → TellOneReason
        (RefusesRecordedOrStep (length xs) (observed_list step Cdc.observation xs)) }
{}

/// Proof of work is refused for one reason. This holds for a prover that searches for a witness, for a verifier that
/// reads one, and for a verifier whose caller carries one.
///
/// A law: the body is empty, and a caller cites the clauses.
pub fn work_is_refused_for_one_reason<C: GrindingChallenger>()
    ensures ground { (step : Step) (bits : ℕ) → TellOneReason (RefusesToGrind (work_of step
        C.Witness.residues C.before_witness C.observation C.bits_sampling bits) C.may_run_out) }
    ensures read { EachWork (λ work wire. TellOneReason (λ start e end.
        RefusesToRead (received_work work wire) start e end ⊎ FailsWork work wire start e end))
        C.Witness.residues C.Witness.bit_length C.before_witness C.observation C.bits_sampling }
    ensures carried { (step : Step) (bits : ℕ) (x : C.Witness) → TellOneReason (RefusesToCheck
        (work_of step C.Witness.residues C.before_witness C.observation C.bits_sampling bits) x) }
{}
