//! Laws of every challenger, codec and alphabet: they refuse a step only if it meets a limit, and the error says which.
//! The limits are that of a draw and the alphabet's on the length of bytes.
ghost use Rattle.std.specs.Prelude.{ℕ, List, length, true};
ghost use Rattle.p3_fs_core.specs.{BigEndian.count_bytes, Steps.Step};
ghost use Rattle.p3_driver_core.specs.Effects.{untouched, observing, observing_list, observing_bytes, drawing};
ghost use Rattle.p3_driver_core.specs.{Effects.{drawing_list, in_sequence}, Rejecting.{Rule, drawing_rejecting}};
ghost use Rattle.p3_driver_core.specs.Working.{work_of, checking};
ghost use Rattle.p3_step_laws.specs.OneReason.{TellsLimits};

use p3_challenger_core::{CanObserve, CanSampleBits, Sponge};
use p3_codecs::{AlphabetOf, Codec, Unit};
use p3_grinding::{CanSampleUniformBits, GrindingChallenger};

/// A step of one value or of a list meets no limit. A step of a list after its count is refused as too long only if the
/// count's bytes do not fit the alphabet.
///
/// A law: the body is empty, and a caller cites the clauses.
pub fn values_tell_limits<A, U: Unit, C: CanObserve<U::Item>, Cdc: Codec<C, A>>()
    ensures value { (x : A) → TellsLimits (observing Cdc.observation x) }
    ensures list { (xs : List A) → TellsLimits (observing_list Cdc.observation xs) }
    ensures counted { (max : ℕ) (xs : List A) → TellsLimits
        (in_sequence (observing_bytes ⟦<U as AlphabetOf<C>>⟧.alphabet (count_bytes max (length xs)))
        (observing_list Cdc.observation xs)) }
{}

/// A step of an opaque value meets no limit.
///
/// A law: the body is empty, and a caller cites the clause.
pub fn opaque_values_tell_limits<T, C: CanObserve<T>>()
    ensures { (x : T) → TellsLimits (observing C.observation x) }
{}

/// A step of bytes is refused as too long only if they, or the bytes of their count, do not fit the alphabet.
///
/// A law: the body is empty, and a caller cites the clauses.
pub fn bytes_tell_limits<U: Unit, C: CanObserve<U::Item>>()
    ensures fixed { (bytes : List ℕ) →
        TellsLimits (observing_bytes ⟦<U as AlphabetOf<C>>⟧.alphabet bytes) }
    ensures counted { (max : ℕ) (bytes : List ℕ) → let alphabet = ⟦<U as AlphabetOf<C>>⟧.alphabet in
        TellsLimits (in_sequence (observing_bytes alphabet (count_bytes max (length bytes)))
        (observing_bytes alphabet bytes)) }
{}

/// A marker and a hint meet no limit.
///
/// A law: the body is empty, and a caller cites the clause.
pub fn markers_and_hints_tell_limits<A, C: Sponge>()
    ensures { (x : A) → TellsLimits {S = C.State} {Symbol = C.Symbol} (untouched x) }
{}

/// A step that draws is refused for the draw limit only if it has no result. This holds for one value, for `n` values,
/// and for `n` values that a rule accepts.
///
/// A law: the body is empty, and a caller cites the clauses.
pub fn draws_tell_limits<A, C: Sponge, Cdc: Codec<C, A>>()
    ensures value { TellsLimits {Symbol = C.Symbol} (drawing Cdc.sampling) }
    ensures list { (n : ℕ) → TellsLimits {Symbol = C.Symbol} (drawing_list Cdc.sampling n) }
    ensures rejecting { (rule : Rule A) (limit n : ℕ) →
        TellsLimits {Symbol = C.Symbol} (drawing_rejecting Cdc.sampling rule limit n) }
{}

/// A step that draws numbers of a given bit width is refused for the draw limit only if it has no result.
///
/// A law: the body is empty, and a caller cites the clauses.
pub fn bit_draws_tell_limits<C: CanSampleBits<usize>>()
    ensures list { (width n : ℕ) →
        TellsLimits {Symbol = C.Symbol} (drawing_list (C.bits_sampling width) n) }
    ensures rejecting { (width : ℕ) (rule : Rule ℕ) (limit n : ℕ) →
        TellsLimits {Symbol = C.Symbol} (drawing_rejecting (C.bits_sampling width) rule limit n) }
{}

/// A step that draws numbers of uniform bits is refused for the draw limit only if it has no result.
///
/// A law: the body is empty, and a caller cites the clauses.
pub fn uniform_draws_tell_limits<F, C: CanSampleUniformBits<F>>()
    ensures list { (width n : ℕ) → TellsLimits {Symbol = C.Symbol}
        (drawing_list (C.uniform true width).draw n) }
    ensures rejecting { (width : ℕ) (rule : Rule ℕ) (limit n : ℕ) → TellsLimits {Symbol = C.Symbol}
        (drawing_rejecting (C.uniform true width).draw rule limit n) }
{}

/// A check of a witness is refused for the draw limit only if it has no result.
///
/// A law: the body is empty, and a caller cites the clause.
pub fn work_tells_limits<C: GrindingChallenger>()
    ensures { (step : Step) (bits : ℕ) (x : C.Witness) → TellsLimits (checking
        (work_of step C.Witness.residues C.before_witness C.observation C.bits_sampling bits) x) }
{}
