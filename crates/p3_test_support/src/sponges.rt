//! The duplex challenger of the worked rows.
ghost use Rattle.std.specs.Prelude.{◌≡◌};
ghost use Rattle.p3_duplex.specs.DuplexCalls.{fresh};
ghost use Rattle.p3_small_primes.specs.F257Residues.{residues};

use p3_duplex::DuplexChallenger;
use p3_field::{F257, PrimeCharacteristicRing};
use p3_symmetric::Turn;

/// A duplex challenger with three cells of the field of 257 elements, of which two are the rate.
pub type SmallSponge = DuplexChallenger<F257, Turn<1>, 3, 2>;

/// Returns a [`SmallSponge`] that has observed nothing.
pub fn small_sponge() -> SmallSponge
    ensures { result.sponge ≡ fresh residues 3 }
{
    DuplexChallenger::new(Turn, 10)
}

/// Returns the element of a number.
pub fn element(n: u64) -> F257
    ensures { result ≡ residues.of n }
{
    F257::from_u64(n)
}
