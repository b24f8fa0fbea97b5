//! A step is refused for one reason: the state before the step determines what the error says. Only out of memory may
//! come in its place. This file has the steps that leave the proof as it is, and those that a prover writes.
ghost use Rattle.std.specs.Prelude.{ℕ, List, length, true};
ghost use Rattle.p3_fs_core.specs.Steps.{Step};
ghost use Rattle.p3_driver_core.specs.Meanings.{marked, observed, observed_list, observed_bounded, sent, sent_list};
ghost use Rattle.p3_driver_core.specs.Meanings.{sent_bounded, sent_bytes, sent_bytes_bounded, hinted, hinted_bounded};
ghost use Rattle.p3_driver_core.specs.{Meanings.{drawn, drawn_list}, Rejecting.{Rule, drawn_rejecting}};
ghost use Rattle.p3_step_laws.specs.OneReason.{TellOneReason, HasOneReason, RefusesStepWithin};

use p3_challenger_core::{CanObserve, CanSampleBits, Sponge};
use p3_codecs::{AlphabetOf, Codec, Unit};
use p3_fs_core::Kind;
use p3_grinding::CanSampleUniformBits;

/// A marker is refused for one reason.
///
/// A law: the body is empty, and a caller cites the clause.
pub fn markers_are_refused_for_one_reason<C: Sponge>()
    ensures { (step : Step) → HasOneReason {S = C.State} {Symbol = C.Symbol} (marked step) }
{}

/// A step that a prover sends, or that observes values outside the proof, is refused for one reason. This holds even
/// where a prover may first refuse a list as longer than its step allows.
///
/// A law: the body is empty, and a caller cites the clauses.
pub fn values_are_refused_for_one_reason<A, U: Unit, C: CanObserve<U::Item>, Cdc: Codec<C, A>>()
    ensures observed { (step : Step) (x : A) → HasOneReason (observed step Cdc.observation x) }
    ensures observed_list { (step : Step) (xs : List A) →
        HasOneReason (observed_list step Cdc.observation xs) }
    ensures observed_counted { (step : Step) (max : ℕ) (xs : List A) → HasOneReason
        (observed_bounded step ⟦<U as AlphabetOf<C>>⟧.alphabet max Cdc.observation xs) }
    ensures sent { (step : Step) (x : A) → HasOneReason (sent step Cdc.observation Cdc.encoding x) }
    ensures sent_list { (step : Step) (xs : List A) →
        HasOneReason (sent_list step Cdc.observation Cdc.encoding xs) }
    ensures sent_counted { (step : Step) (max : ℕ) (xs : List A) → HasOneReason
        (sent_bounded step ⟦<U as AlphabetOf<C>>⟧.alphabet max Cdc.observation Cdc.encoding xs) }
    ensures observed_within { (step : Step) (max : ℕ) (xs : List A) →
        TellOneReason (RefusesStepWithin (length xs) max
        (observed_bounded step ⟦<U as AlphabetOf<C>>⟧.alphabet max Cdc.observation xs)) }
    ensures sent_within { (step : Step) (max : ℕ) (xs : List A) →
        TellOneReason (RefusesStepWithin (length xs) max
        (sent_bounded step ⟦<U as AlphabetOf<C>>⟧.alphabet max Cdc.observation Cdc.encoding xs)) }
{}

/// A step of bytes is refused to a prover for one reason, even where the bytes may first be refused as too many.
///
/// A law: the body is empty, and a caller cites the clauses.
pub fn bytes_are_refused_for_one_reason<U: Unit, C: CanObserve<U::Item>>()
    ensures fixed { (kind : Kind) (label bytes : List ℕ) →
        HasOneReason (sent_bytes kind label ⟦<U as AlphabetOf<C>>⟧.alphabet bytes) }
    ensures counted { (kind : Kind) (label : List ℕ) (max : ℕ) (bytes : List ℕ) →
        HasOneReason (sent_bytes_bounded kind label ⟦<U as AlphabetOf<C>>⟧.alphabet max bytes) }
    ensures within { (kind : Kind) (label : List ℕ) (max : ℕ) (bytes : List ℕ) →
        TellOneReason (RefusesStepWithin (length bytes) max
        (sent_bytes_bounded kind label ⟦<U as AlphabetOf<C>>⟧.alphabet max bytes)) }
{}

/// A step of a hint is refused to a prover for one reason, even where the bytes may first be refused as too many.
///
/// A law: the body is empty, and a caller cites the clauses.
pub fn hints_are_refused_for_one_reason<C: Sponge>()
    ensures fixed { (label bytes : List ℕ) →
        HasOneReason {S = C.State} {Symbol = C.Symbol} (hinted label bytes) }
    ensures counted { (label : List ℕ) (max : ℕ) (bytes : List ℕ) →
        HasOneReason {S = C.State} {Symbol = C.Symbol} (hinted_bounded label max bytes) }
    ensures within { (label : List ℕ) (max : ℕ) (bytes : List ℕ) → TellOneReason (RefusesStepWithin
        {S = C.State} {Symbol = C.Symbol} (length bytes) max (hinted_bounded label max bytes)) }
{}

/// A step that observes an opaque value is refused for one reason.
///
/// A law: the body is empty, and a caller cites the clause.
pub fn opaque_values_are_refused_for_one_reason<T, C: CanObserve<T>>()
    ensures { (step : Step) (x : T) → HasOneReason (observed step C.observation x) }
{}

/// A step that draws one value, `n` values, or `n` values that a rule accepts is refused for one reason.
///
/// A law: the body is empty, and a caller cites the clauses.
pub fn draws_are_refused_for_one_reason<A, C: Sponge, Cdc: Codec<C, A>>()
    ensures value { (step : Step) → HasOneReason {Symbol = C.Symbol} (drawn step Cdc.sampling) }
    ensures list { (step : Step) (n : ℕ) →
        HasOneReason {Symbol = C.Symbol} (drawn_list step Cdc.sampling n) }
    ensures rejecting { (step : Step) (rule : Rule A) (limit n : ℕ) →
        HasOneReason {Symbol = C.Symbol} (drawn_rejecting step Cdc.sampling rule limit n) }
{}

/// A step that draws numbers of a given bit width is refused for one reason.
///
/// A law: the body is empty, and a caller cites the clause.
pub fn bit_draws_are_refused_for_one_reason<C: CanSampleBits<usize>>()
    ensures { (step : Step) (width n : ℕ) →
        HasOneReason {Symbol = C.Symbol} (drawn_list step (C.bits_sampling width) n) }
{}

/// A step that draws numbers of uniform bits is refused for one reason.
///
/// A law: the body is empty, and a caller cites the clauses.
pub fn uniform_draws_are_refused_for_one_reason<F, C: CanSampleUniformBits<F>>()
    ensures list { (step : Step) (width n : ℕ) →
        HasOneReason {Symbol = C.Symbol} (drawn_list step (C.uniform true width).draw n) }
    ensures rejecting { (step : Step) (width : ℕ) (rule : Rule ℕ) (limit n : ℕ) → HasOneReason
        {Symbol = C.Symbol} (drawn_rejecting step (C.uniform true width).draw rule limit n) }
{}
