//! Laws of every challenger, codec and alphabet: each step feeds exactly the symbols that its meaning names.
ghost use Rattle.std.specs.Prelude.{◌≡◌, ℕ, true, Some, List, length};
ghost use Rattle.p3_driver_core.specs.Effects.{untouched, observing, observing_list, observing_bytes, drawing};
ghost use Rattle.p3_driver_core.specs.{Effects.{drawing_list, after_count}, Rejecting.{Rule, drawing_rejecting}};
ghost use Rattle.p3_driver_core.specs.{Feeding.{Feeds, OnlyDraws, FeedsItsWitness}, Working.{work_of, checking}};
ghost use Rattle.p3_fs_core.specs.Steps.{Step};

use p3_challenger_core::{CanObserve, CanSampleBits, ChallengerError, Sponge};
use p3_codecs::{AlphabetOf, Codec, Unit};
use p3_grinding::{CanSampleUniformBits, GrindingChallenger};

/// A step of one value feeds exactly the value's symbols, and a step of a list those of its values in order. A refused
/// step has fed a prefix of them.
///
/// A law: the body is empty, and a caller cites the clause.
pub fn values_feed_their_symbols<A, C: Sponge, Cdc: Codec<C, A>>()
    ensures value { (x : A) → Feeds C.fed (observing Cdc.observation x) }
    ensures list { (xs : List A) → Feeds C.fed (observing_list Cdc.observation xs) }
{}

/// A step of an opaque value feeds exactly the symbols that the challenger names for it. A refused step has fed a
/// prefix of them.
///
/// A law: the body is empty, and a caller cites the clause.
pub fn opaque_values_feed_their_symbols<T, C: CanObserve<T>>()
    ensures { (x : T) → Feeds C.fed (observing C.observation x) }
{}

/// A step of bytes feeds exactly the symbols of their items, after those of the count's items if there is a count. A
/// refused step has fed a prefix of them, even where the bytes are too long for the alphabet.
///
/// A law: the body is empty, and a caller cites the clause.
pub fn bytes_feed_their_symbols<U: Unit, C: CanObserve<U::Item>>()
    ensures fixed { (bytes : List ℕ) → Feeds C.fed
        (observing_bytes ⟦<U as AlphabetOf<C>>⟧.alphabet bytes) }
    ensures counted { (max : ℕ) (bytes : List ℕ) → let alphabet = ⟦<U as AlphabetOf<C>>⟧.alphabet in
        Feeds C.fed (after_count alphabet max (length bytes) (observing_bytes alphabet bytes)) }
{}

/// A step of a counted list feeds exactly the symbols of the count's items, followed by those of the values in order. A
/// refused step has fed a prefix of them.
///
/// A law: the body is empty, and a caller cites the clause.
pub fn counted_values_feed_their_symbols<A, U: Unit, C: CanObserve<U::Item>, Cdc: Codec<C, A>>()
    ensures { (max : ℕ) (xs : List A) → Feeds C.fed (after_count ⟦<U as AlphabetOf<C>>⟧.alphabet
        max (length xs) (observing_list Cdc.observation xs)) }
{}

/// A step that draws feeds nothing, and makes some number of the challenger's smallest draws, even where it is refused.
/// This holds for steps of one value, of `n` values, and of `n` values that a rule accepts.
///
/// A law: the body is empty, and a caller cites the clause.
pub fn draws_feed_nothing<A, C: Sponge, Cdc: Codec<C, A>>()
    ensures value { OnlyDraws {Symbol = C.Symbol} C.next (drawing Cdc.sampling) }
    ensures list { (n : ℕ) → OnlyDraws {Symbol = C.Symbol} C.next (drawing_list Cdc.sampling n) }
    ensures rejecting { (rule : Rule A) (limit n : ℕ) →
        OnlyDraws {Symbol = C.Symbol} C.next (drawing_rejecting Cdc.sampling rule limit n) }
{}

/// A step that draws numbers of bits feeds nothing, and makes some number of the challenger's smallest draws, even
/// where it is refused.
///
/// A law: the body is empty, and a caller cites the clause.
pub fn bit_draws_feed_nothing<C: CanSampleBits<usize>>()
    ensures { (width n : ℕ) → OnlyDraws {Symbol = C.Symbol} C.next
        (drawing_list (C.bits_sampling width) n) }
{}

/// A step that draws numbers of uniform bits feeds nothing, and makes some number of the challenger's smallest draws,
/// even where it is refused. This holds for steps of `n` numbers, and of `n` numbers that a rule accepts.
///
/// A law: the body is empty, and a caller cites the clause.
pub fn uniform_draws_feed_nothing<F, C: CanSampleUniformBits<F>>()
    ensures list { (width n : ℕ) →
        OnlyDraws {Symbol = C.Symbol} C.next (drawing_list (C.uniform true width).draw n) }
    ensures rejecting { (width : ℕ) (rule : Rule ℕ) (limit n : ℕ) → OnlyDraws
        {Symbol = C.Symbol} C.next (drawing_rejecting (C.uniform true width).draw rule limit n) }
{}

/// A step of a proof of work feeds exactly the symbols of its witness, with draws before and after them. A refused step
/// has fed a prefix of them. With 0 bits each witness passes, and the step feeds nothing and leaves the challenger as
/// it is.
///
/// A law: the body is empty, and a caller cites the clause.
pub fn work_feeds_its_witness<C: GrindingChallenger>()
    ensures feeds { (step : Step) (bits : ℕ) (x : C.Witness) → FeedsItsWitness C.next C.fed
        (work_of step C.Witness.residues C.before_witness C.observation C.bits_sampling bits) x }
    ensures free { (step : Step) (x : C.Witness) (s : C.State) → let work = work_of step
        C.Witness.residues C.before_witness C.observation C.bits_sampling 0 in
        ((checking work x).gives s ≡ Some x) × ((checking work x).after s ≡ s) }
{}

/// A step of a marker or of a hint feeds nothing, and leaves the challenger as it is.
///
/// A law: the body is empty, and a caller cites the clause.
pub fn markers_and_hints_feed_nothing<A, C: Sponge>()
    ensures feeds { (x : A) → Feeds C.fed (untouched x) }
    ensures keeps { (x : A) (s : C.State) → (untouched {Symbol = C.Symbol} x).after s ≡ s }
    ensures unrefused { (x : A) (e : ChallengerError) (s t : C.State) →
        (untouched {Symbol = C.Symbol} x).refuses e s t → ⊥ }
{}
