//! The steps that leave the proof as it is: from one state, a prover and a verifier agree on them.
//!
//! Each law is a function with an empty body: a caller calls it, and cites its clauses. Its premises are that the
//! prover's step was played, and that the verifier is at the state before it. Then the verifier's step has the same
//! result and the same state after it. Otherwise the verifier's challenger or memory refuses the step.
ghost use Rattle.std.specs.Prelude.{◌≡◌, ◌<◌, ◌≤◌, ℕ, List, true, false};
ghost use Rattle.p3_fs_core.specs.{Steps.Step, declared.error.TranscriptError.TranscriptError};
ghost use Rattle.p3_patterns.specs.Playing.{next_step};
ghost use Rattle.p3_driver_core.specs.Meanings.{marked, observed, observed_list, observed_bounded, drawn, drawn_list};
ghost use Rattle.p3_driver_core.specs.{Rejecting.{Rule, drawn_rejecting}, Working.work_of, Driving.Driving};
ghost use Rattle.p3_driver_core.specs.Transcripts.{IsNext, IsOtherLength, longer_list, another_length};
ghost use Rattle.p3_driver_core.specs.Verifying.{RefusesCarriedList, EndsReading, RefusesEnd};
ghost use Rattle.p3_step_laws.specs.Completeness.{CompletesAlike, CompletesCarriedWork};

use p3_challenger_core::{CanObserve, CanSampleBits, Sponge};
use p3_codecs::{AlphabetOf, Codec, Unit};
use p3_fs_core::Length;
use p3_grinding::{CanSampleUniformBits, GrindingChallenger};

/// Both sides open and close containers in the same way.
///
/// A law: the body is empty, and a caller cites the clause.
pub fn markers_agree<C: Sponge>()
    ensures { (step : Step) → CompletesAlike {S = C.State} {Symbol = C.Symbol} (marked step) }
{}

/// Both sides observe one value, and the values of a list, in the same way.
///
/// A law: the body is empty, and a caller cites the clauses.
pub fn observed_values_agree<A, C: Sponge, Cdc: Codec<C, A>>()
    ensures value { (step : Step) (x : A) → CompletesAlike (observed step Cdc.observation x) }
    ensures list { (step : Step) (xs : List A) →
        CompletesAlike (observed_list step Cdc.observation xs) }
{}

/// Both sides observe the values of a bounded list, after their count, in the same way.
///
/// A law: the body is empty, and a caller cites the clause.
pub fn observed_counted_values_agree<A, U: Unit, C: CanObserve<U::Item>, Cdc: Codec<C, A>>()
    ensures { (step : Step) (max : ℕ) (xs : List A) → CompletesAlike
        (observed_bounded step ⟦<U as AlphabetOf<C>>⟧.alphabet max Cdc.observation xs) }
{}

/// Both sides observe an opaque value in the same way.
///
/// A law: the body is empty, and a caller cites the clause.
pub fn opaque_values_agree<T, C: CanObserve<T>>()
    ensures { (step : Step) (x : T) → CompletesAlike (observed step C.observation x) }
{}

/// Both sides draw one value, `n` values, and `n` values that a rule accepts, in the same way.
///
/// A law: the body is empty, and a caller cites the clauses.
pub fn drawn_values_agree<A, C: Sponge, Cdc: Codec<C, A>>()
    ensures value { (step : Step) → CompletesAlike {Symbol = C.Symbol} (drawn step Cdc.sampling) }
    ensures list { (step : Step) (n : ℕ) →
        CompletesAlike {Symbol = C.Symbol} (drawn_list step Cdc.sampling n) }
    ensures rejecting { (step : Step) (rule : Rule A) (limit n : ℕ) →
        CompletesAlike {Symbol = C.Symbol} (drawn_rejecting step Cdc.sampling rule limit n) }
{}

/// Both sides draw numbers of a given bit width in the same way.
///
/// A law: the body is empty, and a caller cites the clause.
pub fn drawn_bits_agree<C: CanSampleBits<usize>>()
    ensures { (step : Step) (width n : ℕ) →
        CompletesAlike {Symbol = C.Symbol} (drawn_list step (C.bits_sampling width) n) }
{}

/// Both sides draw numbers of uniform bits, with and without a rule, in the same way.
///
/// A law: the body is empty, and a caller cites the clauses.
pub fn drawn_uniform_bits_agree<F, C: CanSampleUniformBits<F>>()
    ensures list { (step : Step) (width n : ℕ) →
        CompletesAlike {Symbol = C.Symbol} (drawn_list step (C.uniform true width).draw n) }
    ensures rejecting { (step : Step) (width : ℕ) (rule : Rule ℕ) (limit n : ℕ) → CompletesAlike
        {Symbol = C.Symbol} (drawn_rejecting step (C.uniform true width).draw rule limit n) }
{}

/// A witness that a prover has returned passes the check of a verifier whose caller carries it. The check is refused
/// only when out of memory.
///
/// A law: the body is empty, and a caller cites the clause.
pub fn carried_work_agrees<C: GrindingChallenger>()
    ensures { (step : Step) (bits : ℕ) (x : C.Witness) → CompletesCarriedWork
        (work_of step C.Witness.residues C.before_witness C.observation C.bits_sampling bits) x }
{}

/// A verifier that has refused no step accepts the length of a caller's list. The list is no longer than its step
/// allows, or as long as the next step says.
///
/// A law: the body is empty, and a caller cites the clauses.
pub fn carried_lists_are_let_through<C: Sponge>()
    ensures within { (len max : ℕ) (start end : Driving C.State) (e : TranscriptError) →
        start.transcript.playing.finished ≡ false → len ≤ max →
        RefusesCarriedList (max < len) longer_list start e end → ⊥ }
    ensures recorded { (len : ℕ) (step : Step) (start end : Driving C.State) (e : TranscriptError) →
        IsNext start.transcript.playing step → step.length ≡ Length.Fixed len → RefusesCarriedList
        (IsOtherLength len (next_step start.transcript.playing)) another_length start e end → ⊥ }
{}

/// A verifier that has played all steps and read all bytes is not refused at the end.
///
/// A law: the body is empty, and a caller cites the clause.
pub fn ended_verifiers_are_not_refused<C: Sponge>()
    ensures { (v : Driving C.State) (e : TranscriptError) → EndsReading v → RefusesEnd v e → ⊥ }
{}
