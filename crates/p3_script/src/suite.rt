//! The types that play together in a script.
ghost use Rattle.std.specs.Prelude.{◌≡◌, ℕ};
ghost use Rattle.p3_runs.specs.Rules.{Rules};
ghost use Rattle.p3_script.specs.SuiteRules.{rules_of};

use crate::accept::AcceptRule;
use crate::groups::StepGroup;
use p3_challenger_core::{CanObserve, Sponge};
use p3_codecs::{ScalarCodec, Unit};
use p3_field_core::{AlgebraIdentity, Named, ScalarField};
use p3_symmetric::DigestHasher;

/// The types that play together in a script. Not in the Rust crate.
pub trait Suite {
    /// The scalars.
    type Field: ScalarField;

    /// The extension.
    type Extension: AlgebraIdentity<Self::Field> + Named;

    /// The alphabet of the challenger.
    type Unit: Unit;

    /// The values that the challenger observes in its own way. A clone of a value equals the value.
    type Opaque: Clone + Drop;

    /// The challenger.
    type Challenger: CanObserve<<Self::Unit as Unit>::Item> + CanObserve<Self::Opaque> + Drop;

    /// How scalars are encoded, observed and drawn.
    type Codec: ScalarCodec<Self::Challenger, Self::Field>;

    /// The acceptance rules of rejecting draws.
    type Accept: AcceptRule<Self::Extension> + AcceptRule<usize> + Drop;

    /// The hash function for the digests of algebras and of the pattern.
    type Digest: DigestHasher;

    /// The group of steps available in addition to the plain ones.
    type Group: StepGroup<Self::Challenger, Self::Field>;

    // What is a value of the opaque type, where the type does not say it itself: an array in a contract is a list of
    // any length.
    ghost is_own: { Self.Opaque → Type 0 };

    // The alphabet is one.
    ghost alphabet: { Self.Unit.is_alphabet };

    // Clones of an opaque value equal it.
    ghost clones: { (x copy : Self.Opaque) → Self.Opaque.is_clone x copy → copy ≡ x };
}

/// What definitions read from a suite. Every suite implements this trait. Not in the Rust crate.
pub trait Meaning: Suite {
    // By how many coefficients a scalar has over its own field. By the bound of the suite that is `S.Field.DIMENSION`,
    // which drivers name; a member of an impl cannot name it.
    ghost rules: { ℕ → Rules Self.Challenger.State Self.Challenger.Symbol Self.Unit.Item
        Self.Field Self.Extension Self.Opaque Self.Accept };
}

impl<S: Suite> Meaning for S {
    ghost rules = { λ degree. rules_of S.Codec.Codec S.Field.PrimeCharacteristicRing.own
        S.Field.Field.own degree S.Field.AlgebraIdentity.own S.Field.Named
        S.Extension.BasedVectorSpace.own S.Extension.AlgebraIdentity.own S.Extension.Named
        S.Unit.Unit S.Challenger.CanObserve-1.own S.Challenger.CanObserve-2.own S.is_own
        S.Accept.AcceptRule-1 S.Accept.AcceptRule-2 S.Group.StepGroup S.Digest.DigestHasher };
}
