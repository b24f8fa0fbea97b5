//! The law that a proof is a proof of a single run.
ghost use Rattle.p3_script.specs.OneRun.{ProofsHaveOneRun};

use crate::laws::script_steps_are_lawful;
use crate::suite::{Meaning, Suite};

/// Proofs are canonical: bytes with carried witnesses are a proof of at most one run of a script. Take two lists of
/// values under one separator and from one state of a challenger. If their finished runs have the same bytes, with
/// nothing after them, and the same witnesses, then the lists are equal.
///
/// The law speaks of runs alone. It also holds of a proof that was never verified, or whose verifier ran out of memory.
///
/// A law: the body only calls a law, and a caller cites the clause. Not in the Rust crate.
pub fn proofs_have_one_run<S: Suite>()
    ensures { let rules = ⟦<S as Meaning>⟧.rules S.Field.DIMENSION in
        ProofsHaveOneRun S S.Unit S.Challenger S.Codec S.Digest S.Group
        S.Unit.Item S.Challenger.State S.Challenger.Symbol rules }
{
    script_steps_are_lawful::<S>();
}
