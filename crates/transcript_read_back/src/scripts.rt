//! The law that a run of a script is calls on the challenger.
ghost use Rattle.std.specs.Prelude.{List};
ghost use Rattle.p3_challenger.specs.{Segments.{Call, Run}, Sponge.IsNonEmpty};
ghost use Rattle.transcript_read_back.specs.{CallByCall.IsCallByCall};
ghost use Rattle.transcript_read_back.specs.ScriptReadBack.{EachScriptMakesQueries};

use p3_challenger::fs::script::{Meaning, Suite};
use p3_challenger::laws::domain_separation::separators_have_seeds;
use p3_challenger::laws::prefix_codes::counts_are_told;

/// Each finished run of a script is a list of calls on the challenger, which observe just the
/// symbols that the run feeds, and leave the state that it leaves: so it makes a query.
///
/// Conditions: each item of the alphabet, each value of the codec, and each value of the opaque
/// type that is its own feeds something. An array of no places feeds nothing, and drops the outputs
/// of a `HashChallenger` all the same.
///
/// A law: the body calls laws alone, and a caller cites the clause. Not in the Rust crate.
pub fn scripts_are_calls<S: Suite>()
    requires items_feed { (item : S.Unit.Item) → S.Unit.is_item item →
        IsNonEmpty (S.Challenger.CanObserve-1.observation.symbols item) }
    requires values { S.Codec.feeds_prefix_code }
    requires opaque_feeds { (x : S.Opaque) → S.is_own x →
        IsNonEmpty (S.Challenger.CanObserve-2.observation.symbols x) }
    ensures { (run : S.Challenger.State → List (Call S.Challenger.Symbol) →
        Run S.Challenger.Symbol (List S.Challenger.Symbol) S.Challenger.State) →
        IsCallByCall run S.Challenger.fed S.Challenger.next →
        let rules = ⟦<S as Meaning>⟧.rules S.Field.DIMENSION in
        EachScriptMakesQueries S S.Unit S.Challenger S.Codec S.Digest S.Group S.Unit.Item S.Challenger.State
        S.Challenger.Symbol rules run }
{
    separators_have_seeds::<S::Digest>();
    counts_are_told();
}
