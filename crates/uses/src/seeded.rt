//! A challenger that has observed the seed of a separator, as contracts see it. Each transcript begins there.
ghost use Rattle.std.specs.Prelude.{List, flat_map, length};
ghost use Rattle.p3_challenger.specs.{Observation.observed_all, Separators.HeldSeparator, SeparatorSeed.seed_of};

use p3_challenger::fs::Unit;
use p3_challenger::{CanObserve, Sponge};
use p3_symmetric::DigestHasher;

/// What contracts see of the seed of a separator over the alphabet `U`, with the hash function `D`. Every challenger
/// that observes the alphabet implements this trait, so no function needs the bound.
pub trait Seeded<U, D>: Sponge {
    // The state of the challenger after the seed.
    ghost seeded: { Self → HeldSeparator → Self.State };

    // The symbols of the seed.
    ghost seed_symbols: { HeldSeparator → List Self.Symbol };

    // The seed is no longer than the alphabet lets it be.
    ghost fits: { HeldSeparator → Type 0 };
}

impl<U: Unit, C: CanObserve<U::Item>, D: DigestHasher> Seeded<U, D> for C {
    ghost seeded = { λ challenger held. observed_all C.observation.observed (C.state challenger)
        (U.items (seed_of D.digest_of held)) };

    ghost seed_symbols = { λ held. flat_map C.observation.symbols
        (U.items (seed_of D.digest_of held)) };

    ghost fits = { λ held. U.is_too_long (length (seed_of D.digest_of held)) → ⊥ };
}
