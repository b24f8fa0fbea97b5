//! A value, a byte string and a second value, absorbed in one call. For any challenger, codec and alphabet the contract
//! says which symbols were fed, and a law says that those symbols determine the three.
ghost use Rattle.std.specs.Prelude.{◌≡◌, ℕ, List, length, OnOk, IfErr};
ghost use Rattle.p3_challenger.specs.{Sponge.IsFed, Reading.IsPrefixCodeOn};
ghost use Rattle.uses.specs.BoundValues.{BindThree, RefusesInTurn, of_bytes, of_three};

use p3_challenger::fs::{Codec, Unit};
use p3_challenger::laws::symbols::symbols_begin;
use p3_challenger::{CanObserve, ChallengerError, Sponge};

/// What contracts see of a codec beside byte strings of the alphabet `U`. Every codec implements this trait, so no
/// function needs the bound.
pub trait Absorbs<T, U, C: Sponge> {
    // The symbols of a value, a byte string and a second value.
    ghost symbols: { T → List ℕ → T → List C.Symbol };
}

impl<T, U: Unit, C: CanObserve<U::Item>, D: Codec<C, T>> Absorbs<T, U, C> for D {
    ghost symbols = { of_three D.observation.symbols (of_bytes U.items C.observation.symbols) };
}

/// Absorbs a value, a byte string and a second value.
///
/// The errors are [`ChallengerError::TooLong`], where the byte string is too long for the alphabet, and
/// [`ChallengerError::OutOfMemory`]. After the former only the first value is absorbed. After the latter a prefix of
/// the symbols of the three was fed.
///
/// Condition: `U` is an alphabet.
pub fn absorb_values<T, D: Codec<C, T>, U: Unit, C: CanObserve<U::Item>>(
    challenger: &mut C,
    first: &T,
    message: &[u8],
    second: &T,
) -> Result<(), ChallengerError>
    requires { U.is_alphabet }
    ensures fits { OnOk result (U.is_too_long (length message.now) → ⊥) }
    ensures fed { OnOk result (IsFed C.fed (C.state challenger.old)
        (⟦<D as Absorbs<T, U, C>>⟧.symbols first.now message.now second.now) (C.state challenger.new)) }
    // Where a value has symbols, they are fed exactly.
    ensures fed_exactly { D.feeds_prefix_code → OnOk result (C.state challenger.new ≡ C.fed (C.state challenger.old)
        (⟦<D as Absorbs<T, U, C>>⟧.symbols first.now message.now second.now)) }
    ensures err { IfErr result (λ e. RefusesInTurn C.fed (U.is_too_long (length message.now))
        (D.observation.symbols first.now) (⟦<D as Absorbs<T, U, C>>⟧.symbols first.now message.now second.now)
        e (C.state challenger.old) (C.state challenger.new)) }
{
    D::observe(challenger, first)?;
    U::observe_bytes(challenger, message)?;
    D::observe(challenger, second)
}

/// The symbols that [`absorb_values`] feeds bind what it absorbs. Take two such lists of symbols that are equal, with
/// anything after them, where the byte strings have one length. Then the values and the byte strings are equal, and
/// so is what follows.
///
/// A law: a caller cites the clause. Conditions: the challenger feeds each value of the codec, and each item of the
/// alphabet, as a prefix code.
pub fn symbols_bind_values<T, D: Codec<C, T>, U: Unit, C: CanObserve<U::Item>>()
    requires alphabet { U.is_alphabet }
    requires values { D.feeds_prefix_code }
    requires items { IsPrefixCodeOn U.is_item C.observation.symbols }
    ensures { BindThree U.is_too_long ⟦<D as Absorbs<T, U, C>>⟧.symbols }
{
    symbols_begin::<U, C>();
}
