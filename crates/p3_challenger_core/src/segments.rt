//! The law that a list of calls has one cut into segments.
ghost use Rattle.std.specs.Prelude.{◌≡◌, List};
ghost use Rattle.p3_challenger_core.specs.Segments.{Call, Segments, IsCutOf, segments};

/// A list of calls has one cut into segments.
///
/// A law: the body is empty, and a caller cites the clauses.
pub fn calls_have_one_cut<T>()
    ensures cut { (calls : List (Call T)) → IsCutOf calls (segments calls) }
    ensures only { (calls : List (Call T)) (cut : Segments T) →
        IsCutOf calls cut → cut ≡ segments calls }
{}
