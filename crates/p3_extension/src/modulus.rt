//! The binomial `X^D - W` of an extension.
ghost use Rattle.std.specs.Prelude.{◌≡◌, ℕ};

use p3_field_core::BinomiallyExtendable;
use p3_small_primes::{BabyBear, KoalaBear};

/// A field with an extension of dimension `D` whose binomial is known: the polynomials modulo `X^D - W`.
///
/// That no polynomial divides `X^D - W`, so that the extension is a field, is not proved. In the Rust crate, `W` is a
/// member of `p3-field`'s `BinomiallyExtendable`.
pub trait BinomialModulus<const D: usize>: BinomiallyExtendable<D> {
    ghost use Rattle.p3_extension.specs.BinomialIdentities.{binomial_identity};

    /// The number that `X^D` is in the extension.
    const W: u8;

    ghost W: { ℕ };

    // The identity of the extension names the order, D and W.
    ghost identity_names: { Self.extension_identity ≡ binomial_identity Self.residues.order D W };
}

impl BinomialModulus<4> for BabyBear {
    ghost use Rattle.std.specs.Prelude.{refl};

    const W: u8 = 11;

    ghost W = { 11 };

    ghost identity_names = { refl };
}

impl BinomialModulus<4> for KoalaBear {
    ghost use Rattle.std.specs.Prelude.{refl};

    const W: u8 = 3;

    ghost W = { 3 };

    ghost identity_names = { refl };
}
