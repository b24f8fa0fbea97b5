//! Prime fields that are algebras over themselves and have a name.
ghost use Rattle.std.specs.Prelude.{◌≡◌, [], ◌∷◌};

use crate::{AlgebraIdentity, Named, PrimeField64};

/// A prime field whose elements are the scalars of a protocol. It has a text that identifies it as an algebra
/// over itself, and a name.
///
/// Over itself a field has dimension 1, and an element is its own coefficient. Generic code learns this from the
/// bound: from `F: PrimeField64 + AlgebraIdentity<F>` alone no proof can derive the number of coefficients.
///
/// Not in the Rust crate, whose code lists such bounds separately.
pub trait ScalarField: PrimeField64 + AlgebraIdentity<Self> + Named {
    // An element has one coefficient.
    ghost one_coefficient: { Self.DIMENSION ≡ 1 };

    // It is its own coefficient.
    ghost own_coefficient: { (x : Self) → Self.coefficients x ≡ x ∷ [] };
}
