//! Two challengers whose hash function or permutation has no strength, as examples of the clauses of `new`. Different
//! values were observed and everything ends alike, so there is a collision.
ghost use Rattle.std.specs.Prelude.{[], ◌∷◌, ◌++◌, map};
ghost use Rattle.p3_small_primes.specs.F257Residues.{residues};
ghost use Rattle.p3_read_back.specs.Queries.{CollideAtSomePlace};
ghost use Rattle.p3_hash_challenger.specs.HashReadBack as hash_read_back;
ghost use Rattle.p3_duplex.specs.DuplexReadBack as duplex_read_back;
ghost use Rattle.p3_test_support.specs.ReadBackWorlds.{by_length, turn, element_of};

use crate::LengthHasher;
use p3_duplex::DuplexChallenger;
use p3_field::F257;
use p3_hash_challenger::HashChallenger;
use p3_symmetric::Turn;

/// A challenger of [`LengthHasher`] hashes one string after it observes 5 or 6, and leaves the same pending. So the
/// two strings collide.
///
/// A law: a caller cites the clause.
pub fn length_hasher_collides(initial_state: Vec<u8>)
    ensures { CollideAtSomePlace (hash_read_back.Collide by_length)
        ((initial_state.items ++ 5 ∷ []) ∷ []) ((initial_state.items ++ 6 ∷ []) ∷ []) }
{
    let _ = HashChallenger::new(initial_state, LengthHasher);
}

/// A challenger of three cells under `Turn<2>` permutes two states after it observes 1, 0, 7, 7 or 2, 0, 7, 7. The
/// last state is the same, and nothing is pending. So the two first states collide.
///
/// A law: a caller cites the clause.
pub fn turn_collides()
    ensures { CollideAtSomePlace (duplex_read_back.Collide residues turn 2)
        (map element_of (1 ∷ 0 ∷ 2 ∷ []) ∷ map element_of (7 ∷ 7 ∷ 5 ∷ []) ∷ [])
        (map element_of (2 ∷ 0 ∷ 2 ∷ []) ∷ map element_of (7 ∷ 7 ∷ 5 ∷ []) ∷ []) }
{
    let _ = DuplexChallenger::<F257, Turn<2>, 3, 2>::new(Turn, 1);
}
