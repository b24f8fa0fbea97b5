//! The reason why bytes encode no element of an extension.
ghost use Rattle.std.specs.Prelude.{◌≡◌, ◌≤◌, List, ℕ, length, Err};
ghost use Rattle.p3_challenger_core.specs.Reading.{AreBytes};
ghost use Rattle.p3_fs_core.specs.Scalar.{outside_range};

use p3_challenger_core::Sponge;
use p3_codecs::{Codec, ExtensionFieldCodec, ScalarCodec};
use p3_field_core::{BasedVectorSpace, Field};

/// Bytes that are long enough for an element of an extension and encode none are refused for one reason: a coefficient
/// is out of range.
///
/// A law: the body is empty, and a caller cites the clause.
pub fn extensions_are_refused_for_one_reason<
    C: Sponge,
    F: Field,
    EF: BasedVectorSpace<F>,
    Base: ScalarCodec<C, F>,
>()
    ensures { (bytes reason : List ℕ) → AreBytes bytes →
        ⟦<ExtensionFieldCodec<F, EF, Base> as Codec<C, EF>>⟧.encoding.width ≤ length bytes →
        ⟦<ExtensionFieldCodec<F, EF, Base> as Codec<C, EF>>⟧.encoding.read bytes ≡ Err reason →
        reason ≡ outside_range }
{}
