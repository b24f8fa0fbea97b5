//! The law that a script is refused for one fault.
ghost use Rattle.p3_script.specs.ScriptLaws.{ProofsHaveOneFault, ProvingsHaveOneFault};

use crate::laws::script_steps_are_lawful;
use crate::reasons::script_steps_are_refused_for_one_reason;
use crate::suite::{Meaning, Suite};

/// A script of admitted steps is refused for one fault, on either side. Take any two [`Fault`](crate::Fault)s, from
/// one state of a challenger, neither of them out of memory. They may come from verifiers over the same bytes and
/// carried witnesses, or from provers that are handed the same values. Then their positions are equal, and their
/// errors say the same.
///
/// A law: the body only calls laws, and a caller cites the clauses. Not in the Rust crate.
pub fn faults_are_one<S: Suite>()
    ensures verifying { let rules = ⟦<S as Meaning>⟧.rules S.Field.DIMENSION in
        ProofsHaveOneFault S S.Unit S.Challenger S.Codec S.Digest S.Group
        S.Unit.Item S.Challenger.State S.Challenger.Symbol rules }
    ensures proving { let rules = ⟦<S as Meaning>⟧.rules S.Field.DIMENSION in
        ProvingsHaveOneFault S S.Unit S.Challenger S.Codec S.Digest S.Group
        S.Unit.Item S.Challenger.State S.Challenger.Symbol rules }
{
    script_steps_are_lawful::<S>();
    script_steps_are_refused_for_one_reason::<S>();
}
