//! If a prover has played a step, a verifier at the same state is refused its step only when out of memory.
//!
//! The laws of mirrors and agreements give the result of the verifier's step, and say that no fault of the pattern or
//! of the proof refuses it. These laws say that no limit refuses it either. For proof of work those laws already say
//! so.
ghost use Rattle.std.specs.Prelude.{ℕ, List, true};
ghost use Rattle.p3_fs_core.specs.Steps.{Step};
ghost use Rattle.p3_driver_core.specs.Meanings.{marked, observed, observed_list, observed_bounded, drawn, drawn_list};
ghost use Rattle.p3_driver_core.specs.Rejecting.{Rule, drawn_rejecting};
ghost use Rattle.p3_step_laws.specs.{OneReason.{OnlyMemoryRefuses, OnlyMemoryRefusesToRead}, Mirrored.EachValue};
ghost use Rattle.p3_step_laws.specs.Mirrored.{EachList, EachCountedList, EachBytes, EachCountedBytes, EachHint};
ghost use Rattle.p3_step_laws.specs.Mirrored.{EachCountedHint};

use crate::mirrors::{
    counted_hint_is_received, hint_is_received, sent_bytes_are_received,
    sent_counted_bytes_are_received, sent_counted_values_are_received, sent_value_is_received,
    sent_values_are_received,
};
use p3_challenger_core::{CanObserve, CanSampleBits, Sponge};
use p3_codecs::{AlphabetOf, Codec, Unit};
use p3_fs_core::Kind;
use p3_grinding::CanSampleUniformBits;

/// Only out of memory refuses a verifier's reading step after a prover has sent one value, a list, or a list after its
/// count.
///
/// A law: the body does nothing, and a caller cites the clauses. The maximum is below 2^64, as for a `usize`.
pub fn only_memory_refuses_sent_values<A, U: Unit, C: CanObserve<U::Item>, Cdc: Codec<C, A>>()
    ensures value { EachValue OnlyMemoryRefusesToRead Cdc.observation Cdc.encoding }
    ensures list { EachList OnlyMemoryRefusesToRead Cdc.observation Cdc.encoding }
    ensures counted { EachCountedList OnlyMemoryRefusesToRead ⟦<U as AlphabetOf<C>>⟧.alphabet
        Cdc.observation Cdc.encoding }
{
    sent_value_is_received::<A, C, Cdc>();
    sent_values_are_received::<A, C, Cdc>();
    sent_counted_values_are_received::<A, U, C, Cdc>();
}

/// If a prover has sent bytes, or bytes after their count, the verifier's reading step is refused only when out of
/// memory.
///
/// A law: the body does nothing, and a caller cites the clauses. The maximum is below 2^64, as for a `usize`.
pub fn only_memory_refuses_sent_bytes<U: Unit, C: CanObserve<U::Item>>()
    ensures fixed { EachBytes OnlyMemoryRefusesToRead ⟦<U as AlphabetOf<C>>⟧.alphabet }
    ensures counted { EachCountedBytes OnlyMemoryRefusesToRead ⟦<U as AlphabetOf<C>>⟧.alphabet }
{
    sent_bytes_are_received::<U, C>();
    sent_counted_bytes_are_received::<U, C>();
}

/// If a prover has sent a hint, or a hint after its count, the verifier's reading step is refused only when out of
/// memory.
///
/// A law: the body does nothing, and a caller cites the clauses. The maximum is below 2^64, as for a `usize`.
pub fn only_memory_refuses_hints<C: Sponge>()
    ensures fixed { EachHint {S = C.State} {Symbol = C.Symbol} OnlyMemoryRefusesToRead }
    ensures counted { EachCountedHint {S = C.State} {Symbol = C.Symbol} OnlyMemoryRefusesToRead }
{
    hint_is_received::<C>();
    counted_hint_is_received::<C>();
}

/// If one side has opened or closed a container, the other side's step is refused only when out of memory.
///
/// A law: the body is empty, and a caller cites the clause.
pub fn only_memory_refuses_markers<C: Sponge>()
    ensures { (step : Step) → OnlyMemoryRefuses {S = C.State} {Symbol = C.Symbol} (marked step) }
{}

/// Only out of memory refuses the other side's step after one side has observed one value, a list, or a list after its
/// count.
///
/// A law: the body is empty, and a caller cites the clauses.
pub fn only_memory_refuses_observed_values<A, U: Unit, C: CanObserve<U::Item>, Cdc: Codec<C, A>>()
    ensures value { (step : Step) (x : A) → OnlyMemoryRefuses (observed step Cdc.observation x) }
    ensures list { (step : Step) (xs : List A) →
        OnlyMemoryRefuses (observed_list step Cdc.observation xs) }
    ensures counted { (step : Step) (max : ℕ) (xs : List A) → OnlyMemoryRefuses
        (observed_bounded step ⟦<U as AlphabetOf<C>>⟧.alphabet max Cdc.observation xs) }
{}

/// If one side has observed an opaque value, the other side's step is refused only when out of memory.
///
/// A law: the body is empty, and a caller cites the clause.
pub fn only_memory_refuses_opaque_values<T, C: CanObserve<T>>()
    ensures { (step : Step) (x : T) → OnlyMemoryRefuses (observed step C.observation x) }
{}

/// Only out of memory refuses the other side's step after one side has drawn one value, `n` values, or `n` values that
/// a rule accepts. Both draws meet their limit, or neither does.
///
/// A law: the body is empty, and a caller cites the clauses.
pub fn only_memory_refuses_drawn_values<A, C: Sponge, Cdc: Codec<C, A>>()
    ensures value { (step : Step) →
        OnlyMemoryRefuses {Symbol = C.Symbol} (drawn step Cdc.sampling) }
    ensures list { (step : Step) (n : ℕ) →
        OnlyMemoryRefuses {Symbol = C.Symbol} (drawn_list step Cdc.sampling n) }
    ensures rejecting { (step : Step) (rule : Rule A) (limit n : ℕ) →
        OnlyMemoryRefuses {Symbol = C.Symbol} (drawn_rejecting step Cdc.sampling rule limit n) }
{}

/// If one side has drawn numbers of a given bit width, the other side's step is refused only when out of memory.
///
/// A law: the body is empty, and a caller cites the clause.
pub fn only_memory_refuses_drawn_bits<C: CanSampleBits<usize>>()
    ensures { (step : Step) (width n : ℕ) →
        OnlyMemoryRefuses {Symbol = C.Symbol} (drawn_list step (C.bits_sampling width) n) }
{}

/// If one side has drawn numbers of uniform bits, the other side's step is refused only when out of memory.
///
/// A law: the body is empty, and a caller cites the clauses.
pub fn only_memory_refuses_drawn_uniform_bits<F, C: CanSampleUniformBits<F>>()
    ensures list { (step : Step) (width n : ℕ) →
        OnlyMemoryRefuses {Symbol = C.Symbol} (drawn_list step (C.uniform true width).draw n) }
    ensures rejecting { (step : Step) (width : ℕ) (rule : Rule ℕ) (limit n : ℕ) → OnlyMemoryRefuses
        {Symbol = C.Symbol} (drawn_rejecting step (C.uniform true width).draw rule limit n) }
{}
