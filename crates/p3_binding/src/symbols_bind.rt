//! The law that equal symbols bind.
ghost use Rattle.p3_challenger_core.specs.Reading.{IsPrefixCodeOn};
ghost use Rattle.p3_binding.specs.Binding.{RenderingsTellPatterns, ScriptSymbolsBind, ScriptHintsDoNotInfluence};

use p3_codecs::symbols_begin;
use p3_domain_separator::{
    identifiers_are_injective, labels_are_injective, seeds_are_prefix_code, separators_have_seeds,
};
use p3_driver_core::counts_are_told;
use p3_patterns::equal_renderings_are_equal_patterns;
use p3_script::{Meaning, Suite};

/// Equal symbols bind: the symbols that a run feeds to the challenger determine the run. The law speaks of runs of
/// scripts alone; no driver takes part.
///
/// - `equal_symbols_bind`: take two finished runs that feed the same symbols, or two finished prefixes of equally many
///   steps. Whatever their separators and challengers, the runs have the same version, name and chunks. Unless the
///   alternate renderings of the two patterns differ and share a digest, the patterns are the same except for the names
///   of types. So is what each step absorbs. A step absorbs public values, salts, messages, opaque values, or witnesses
///   of at least one bit; elements as their coefficients, bytes as bytes.
/// - `equal_renderings_are_equal_patterns`: two patterns have one alternate rendering exactly if they are the same
///   except for the names of types.
/// - `hints_do_not_influence`: take two finished runs of one script, separator and challenger. Let their values be the
///   same except for the bytes of hints and witnesses of 0 bits. Their challenges and final challengers are the same.
///
/// Conditions: the challenger feeds as prefix codes the items of the alphabet, the values that the codec observes, and
/// the values of the opaque type. For each challenger of this repository a law says this of elements or bytes, of
/// arrays and of digests. Caps and lists of varying length are no prefix code: the lists of lists `[[1], [2]]` and
/// `[[1, 2]]` feed the same symbols.
///
/// A law: the body only calls laws, and a caller cites the clauses. Not in the Rust crate.
pub fn binding<S: Suite>()
    requires items { IsPrefixCodeOn S.Unit.is_item S.Challenger.CanObserve-1.observation.symbols }
    requires values { S.Codec.feeds_prefix_code }
    requires opaque { IsPrefixCodeOn S.is_own S.Challenger.CanObserve-2.observation.symbols }
    ensures equal_symbols_bind { let rules = ⟦<S as Meaning>⟧.rules S.Field.DIMENSION in
        ScriptSymbolsBind S S.Unit S.Challenger S.Codec S.Digest S.Group S.Unit.Item
        S.Challenger.State S.Challenger.Symbol rules }
    ensures equal_renderings_are_equal_patterns { RenderingsTellPatterns }
    ensures hints_do_not_influence { let rules = ⟦<S as Meaning>⟧.rules S.Field.DIMENSION in
        ScriptHintsDoNotInfluence S S.Unit S.Challenger S.Codec S.Digest S.Group S.Unit.Item
        S.Challenger.State S.Challenger.Symbol rules }
{
    symbols_begin::<S::Unit, S::Challenger>();
    counts_are_told();
    separators_have_seeds::<S::Digest>();
    seeds_are_prefix_code();
    identifiers_are_injective();
    labels_are_injective();
    equal_renderings_are_equal_patterns();
}
