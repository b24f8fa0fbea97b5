//! The alphabets: how a challenger observes a byte string. In the byte alphabet the string is its bytes. In that of a
//! field it is its length followed by elements, each of as many bytes as are sure to be below the order.
ghost use Rattle.std.specs.Prelude.{◌≡◌, ℕ, ◌<◌, ◌≤◌, List, ◌++◌, length, flat_map, OnOk, IfErr};
ghost use Rattle.p3_challenger_core.specs.{Observation.{observed_all, LeavesInCalls, RefusesObserve}, Sponge.IsFed};
ghost use Rattle.p3_challenger_core.specs.Reading.{AreBytes, IsByte, OneBegins, IsPrefixCodeOn};
ghost use Rattle.p3_fs_core.specs.Alphabet.{Alphabet, RefusesBytes, LeavesItems, AreItems, alphabet_of};
ghost use Rattle.p3_fs_core.specs.{AlphabetLaws.{one_begins, bytes-are_items, all-are_items}, Packing.packed};
ghost use Rattle.p3_fs_core.specs.{Packing.{chunk_bytes, IsPackable}, PackingLaws.{packed-begins, short-packable}};

use p3_challenger_core::{CanObserve, ChallengerError};
use p3_field_core::PrimeField64;
use p3_fs_core::TranscriptField;
use std::marker::PhantomData;

/// An alphabet of a sponge: it turns byte strings into symbols.
///
/// Its law: of two byte strings whose items begin one list, one begins the other. So strings of one length have
/// different items, and so do strings of which none begins another.
///
/// Corresponds to the Rust crate's `Unit`, which has a single function.
pub trait Unit {
    /// The type that the sponge observes.
    type Item;

    // The condition under which this is an alphabet.
    ghost is_alphabet: { Type 0 };

    // What a byte string is in this alphabet, and the lengths that are too long for it.
    ghost items: { List ℕ → List Self.Item };

    ghost is_too_long: { ℕ → Type 0 };

    // What is an item: a number is a byte only where it is below 256.
    ghost is_item: { Self.Item → Type 0 };

    /// Observes a byte string. Condition: this is an alphabet. `u8` always is one, and [`FieldUnit`] is one where its
    /// field has more than 256 elements.
    ///
    /// The errors are [`ChallengerError::TooLong`], with nothing absorbed, and [`ChallengerError::OutOfMemory`]. The
    /// latter leaves the items before the refused one observed, plus what the refused observation leaves. The Rust
    /// crate panics where the string is too long.
    fn observe_bytes<C: CanObserve<Self::Item>>(
        challenger: &mut C,
        bytes: &[u8],
    ) -> Result<(), ChallengerError>
        requires { is_alphabet }
        ensures ok { OnOk result ((is_too_long (length bytes.now) → ⊥) × (C.state challenger.new
            ≡ observed_all C.observation.observed (C.state challenger.old) (items bytes.now))) }
        ensures err { IfErr result (λ e. RefusesBytes (is_too_long (length bytes.now))
            (LeavesItems C.observation C.slice_may_leave (C.state challenger.old) (items bytes.now))
            (C.state challenger.old) e (C.state challenger.new)) }
        // What is observed is what the items feed; exactly so, where the challenger feeds them as a prefix code.
        ensures fed { OnOk result (IsFed C.fed (C.state challenger.old)
            (flat_map C.observation.symbols (items bytes.now)) (C.state challenger.new)) }
        ensures fed_exactly { IsPrefixCodeOn is_item C.observation.symbols →
            OnOk result (C.state challenger.new
            ≡ C.fed (C.state challenger.old) (flat_map C.observation.symbols (items bytes.now))) };

    // The items of a byte string are items, and one of at most 255 bytes is not too long, so no count is.
    ghost items_are: { (bytes : List ℕ) → AreBytes bytes → AreItems is_item (items bytes) };

    ghost short_fits: { is_alphabet → (len : ℕ) → len ≤ 255 → is_too_long len → ⊥ };

    // Byte strings that begin one list of items begin one another. So byte strings of one length, and all
    // those of which none begins another, are a prefix code.
    ghost begins: { is_alphabet → (a b : List ℕ) (x y : List Self.Item) → AreBytes a → AreBytes b →
        (is_too_long (length a) → ⊥) → (is_too_long (length b) → ⊥) → items a ++ x ≡ items b ++ y →
        OneBegins a b };
}

impl Unit for u8 {
    type Item = u8;

    ghost is_alphabet = { Unit {0} };

    ghost items = { λ bytes. bytes };

    // A byte sponge takes every byte string as it is.
    ghost is_too_long = { λ _. ⊥ };

    ghost is_item = { IsByte };

    ghost items_are = { bytes-are_items };

    ghost short_fits = { λ _ _ _ long. long };

    ghost begins = { λ _ a b x y _ _ _ _ e. one_begins a b x y e };

    fn observe_bytes<C: CanObserve<u8>>(
        challenger: &mut C,
        bytes: &[u8],
    ) -> Result<(), ChallengerError>
        ensures ok { OnOk result (C.state challenger.new ≡ observed_all C.observation.observed
            (C.state challenger.old) bytes.now) }
        // What is left is what one slice may leave.
        ensures err { IfErr result (λ e. RefusesObserve
            (C.slice_may_leave (C.state challenger.old) bytes.now) e (C.state challenger.new)) }
        ensures fed { OnOk result (IsFed C.fed (C.state challenger.old)
            (flat_map C.observation.symbols bytes.now) (C.state challenger.new)) }
        ensures fed_exactly { IsPrefixCodeOn IsByte C.observation.symbols →
            OnOk result (C.state challenger.new
            ≡ C.fed (C.state challenger.old) (flat_map C.observation.symbols bytes.now)) }
    {
        challenger.observe_slice(bytes)
    }
}

/// The alphabet of a sponge over a field of more than 256 elements.
///
/// A byte string becomes its length, followed by its bytes in chunks. A chunk has `(bits - 1) / 8` bytes, so that its
/// number is below the order. Here `bits` is the bit length of the order. The number of a chunk has its lowest byte
/// first; the last chunk may be shorter. A length that is not below the order is too long.
///
/// Corresponds to the Rust crate's `FieldUnit`.
#[derive(Clone, Copy, Debug, Default, PartialEq, Eq, PartialOrd, Ord, Hash)]
pub struct FieldUnit<F>(PhantomData<F>);

impl<F: PrimeField64> Unit for FieldUnit<F> {
    type Item = F;

    ghost is_alphabet = { 256 < F.residues.order };

    ghost items = { packed F.residues (chunk_bytes F.bit_length) };

    // The length is an element too.
    ghost is_too_long = { λ len. F.residues.order ≤ len };

    ghost is_item = { λ _. Unit {0} };

    ghost items_are = { λ bytes _. all-are_items
        (packed F.residues (chunk_bytes F.bit_length) bytes) };

    ghost short_fits = { short-packable F.residues.order };

    ghost begins = { packed-begins F.residues F.are_residues F.bit_length F.bits_below
        F.bits_least };

    fn observe_bytes<C: CanObserve<F>>(
        challenger: &mut C,
        bytes: &[u8],
    ) -> Result<(), ChallengerError>
        requires { 256 < F.residues.order }
        ensures ok { OnOk result ((F.residues.order ≤ length bytes.now → ⊥)
            × (C.state challenger.new ≡ observed_all C.observation.observed (C.state challenger.old)
            (packed F.residues (chunk_bytes F.bit_length) bytes.now))) }
        ensures err { IfErr result (λ e. RefusesBytes (F.residues.order ≤ length bytes.now)
            (LeavesInCalls C.observation.observed C.observation.may_leave (C.state challenger.old)
            (packed F.residues (chunk_bytes F.bit_length) bytes.now))
            (C.state challenger.old) e (C.state challenger.new)) }
        ensures fed { OnOk result
            (IsFed C.fed (C.state challenger.old) (flat_map C.observation.symbols
            (packed F.residues (chunk_bytes F.bit_length) bytes.now)) (C.state challenger.new)) }
        ensures fed_exactly { IsPrefixCodeOn (λ _. Unit {0}) C.observation.symbols → OnOk result
            (C.state challenger.new ≡ C.fed (C.state challenger.old) (flat_map C.observation.symbols
            (packed F.residues (chunk_bytes F.bit_length) bytes.now))) }
        // Whatever follows, the elements of a byte string that is short enough tell it.
        ensures prefix_code { IsPrefixCodeOn (IsPackable F.residues)
            (packed F.residues (chunk_bytes F.bit_length)) }
    {
        F::observe_seed(challenger, bytes)
    }
}

/// An alphabet as the challenger `C` observes it. Every alphabet implements this trait, so no function needs the bound.
///
/// Not in the Rust crate.
pub trait AlphabetOf<C: CanObserve<Self::Item>>: Unit {
    ghost alphabet: { Alphabet C.State C.Symbol Self.Item };
}

impl<U: Unit, C: CanObserve<U::Item>> AlphabetOf<C> for U {
    ghost alphabet = { alphabet_of U.items U.is_too_long C.observation C.slice_may_leave };
}

/// Symbols determine byte strings, in every alphabet and for every challenger that feeds its items as a prefix code. If
/// the symbols of two strings, with anything after them, are equal, one string begins the other. If the strings are
/// equal, so is what follows them.
///
/// A law: the body is empty, and a caller cites the clause.
pub fn symbols_begin<U: Unit, C: CanObserve<U::Item>>()
    requires { U.is_alphabet }
    ensures { IsPrefixCodeOn U.is_item C.observation.symbols → (a b : List ℕ)
        (x y : List C.Symbol) → AreBytes a → AreBytes b → (U.is_too_long (length a) → ⊥) →
        (U.is_too_long (length b) → ⊥) → flat_map C.observation.symbols (U.items a) ++ x
        ≡ flat_map C.observation.symbols (U.items b) ++ y → OneBegins a b × (a ≡ b → x ≡ y) }
{}
