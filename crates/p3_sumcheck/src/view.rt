//! What contracts see of a sumcheck over a field.
ghost use Rattle.p3_sumcheck.specs.Sumchecks.{Sumcheck, sumcheck_by};

use p3_challenger::Sponge;
use p3_challenger::fs::{Codec, Declared};
use p3_field::{AlgebraIdentity, Named, ScalarField};
use p3_symmetric::DigestHasher;

/// The sumcheck over a field with a challenger, a hash function and a codec. Every field implements
/// this trait, so no function needs the bound.
///
/// Not in the Rust crate.
pub trait Sums<F, C: Sponge, D, Cdc> {
    // The field, its name in steps, and how its elements are observed, drawn and encoded.
    ghost sumcheck: { Sumcheck C.State C.Symbol F };
}

impl<
    F: ScalarField,
    A: AlgebraIdentity<F> + Named,
    C: Sponge,
    D: DigestHasher,
    Cdc: Codec<C, F>,
> Sums<F, C, D, Cdc> for A {
    ghost sumcheck = { sumcheck_by F.residues ⟦<A as Declared<F, D>>⟧.algebra Cdc.Codec };
}
