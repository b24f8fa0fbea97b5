//! Results whose runs fed the same symbols.
ghost use Rattle.p3_challenger_core.specs.Reading.{IsPrefixCodeOn};
ghost use Rattle.p3_script_binding.specs.AnswersBound.{EqualSymbolsHaveEqualValues, VerifiedFrontsBind};
ghost use Rattle.p3_script_binding.specs.AnswersBound.{ProvedFrontsBind};

use p3_binding::binding;
use p3_script::{Meaning, Suite};

/// Accepted proofs whose runs fed the same symbols have the same values. Both proofs are of one script, under one
/// separator and from one state of a challenger. What was received is the same except for hints and witnesses of 0
/// bits. The challenges are the same, and so are the final challengers.
///
/// Conditions: those of [`binding`]; that the proofs are bytes, which slices are; and that the script's opaque values are
/// of their type.
///
/// A law: the body only calls a law, and a caller cites the clause. Not in the Rust crate.
pub fn equal_symbols_have_equal_values<S: Suite>()
    requires items { IsPrefixCodeOn S.Unit.is_item S.Challenger.CanObserve-1.observation.symbols }
    requires values { S.Codec.feeds_prefix_code }
    requires opaque { IsPrefixCodeOn S.is_own S.Challenger.CanObserve-2.observation.symbols }
    ensures { let rules = ⟦<S as Meaning>⟧.rules S.Field.DIMENSION in
        EqualSymbolsHaveEqualValues S S.Unit S.Challenger S.Codec S.Digest S.Group S.Unit.Item
        S.Challenger.State S.Challenger.Symbol rules S.Challenger.state }
{
    binding::<S>();
}

/// The symbols fed before a challenge bind everything that came before it. Take two accepted proofs, of any scripts,
/// under any separators, from any challengers, where the first `n` steps of their runs fed the same symbols. A
/// challenge after these steps depends on those symbols alone. Then protocols and instances are the same. Unless the
/// alternate renderings of the patterns differ and share a digest, the patterns are the same except for the names of
/// types. So is what each of these steps absorbed. The same holds for two proofs that provers made.
///
/// That different symbols lead to different challenges is an assumption about the challenger's hash function or
/// permutation. A single short challenge, of 31 bits say, binds nothing.
///
/// Conditions: those of [`binding`]; that the proofs are bytes, which slices and vectors are; and that the scripts' opaque
/// values are of their type.
///
/// A law: the body only calls a law, and a caller cites a clause. Not in the Rust crate.
pub fn challenges_bind_what_came_before<S: Suite>()
    requires items { IsPrefixCodeOn S.Unit.is_item S.Challenger.CanObserve-1.observation.symbols }
    requires values { S.Codec.feeds_prefix_code }
    requires opaque { IsPrefixCodeOn S.is_own S.Challenger.CanObserve-2.observation.symbols }
    ensures verified { let rules = ⟦<S as Meaning>⟧.rules S.Field.DIMENSION in
        VerifiedFrontsBind S S.Unit S.Challenger S.Codec S.Digest S.Group S.Unit.Item
        S.Challenger.State S.Challenger.Symbol rules S.Challenger.state }
    ensures proved { let rules = ⟦<S as Meaning>⟧.rules S.Field.DIMENSION in
        ProvedFrontsBind S S.Unit S.Challenger S.Codec S.Digest S.Group S.Unit.Item
        S.Challenger.State S.Challenger.Symbol rules S.Challenger.state }
{
    binding::<S>();
}
