//! Laws of the order of a pattern: the steps that may be played, and those refused as wrong ones.
ghost use Rattle.std.specs.Prelude.{◌≡◌, ◌++◌, true, false, List, length};
ghost use Rattle.p3_driver_core.specs.Transcripts.{IsNext, AreNext, steps_on, RefusesPlayEnd};
ghost use Rattle.p3_fs_core.specs.{Steps.Step, declared.error.TranscriptError.TheVariants.Pattern};
ghost use Rattle.p3_fs_core.specs.declared.error.PatternError.TheVariants.{Finished};
ghost use Rattle.p3_patterns.specs.Playing.{Playing, RefusesToPlay, IsPlayed};

use p3_fs_core::TranscriptError;

/// The next step of a pattern is not refused as a wrong one. A player whose steps are all played is not refused at the
/// end.
///
/// A law: the body is empty, and a caller cites the clause.
pub fn next_steps_are_not_wrong()
    ensures step { (before after : Playing) (s : Step) (e : TranscriptError) → IsNext before s →
        RefusesToPlay before s e after → ⊥ }
    ensures end { (playing : Playing) (e : TranscriptError) → IsPlayed playing →
        RefusesPlayEnd playing e → ⊥ }
{}

/// Once a step was refused or the driver was halted, each step is refused as finished and changes nothing. So is the
/// end.
///
/// A law: the body is empty, and a caller cites the clause.
pub fn finished_players_refuse()
    ensures step { (before after : Playing) (s : Step) (e : TranscriptError) → before.finished
        ≡ true → RefusesToPlay before s e after → (e ≡ Pattern Finished) × (after ≡ before) }
    ensures end { (playing : Playing) (e : TranscriptError) → playing.finished ≡ true →
        RefusesPlayEnd playing e → e ≡ Pattern Finished }
{}

/// Steps of a pattern are the next ones, in their order, where a player stands at the first of them. Of steps that are
/// next in a row, the first ones are next, and the others are next after these.
///
/// A law: the body is empty, and a caller cites the clause.
pub fn listed_steps_are_next()
    ensures listed { (before steps after : List Step) (playing : Playing) →
        playing.pattern.steps ≡ before ++ (steps ++ after) → playing.position ≡ length before →
        playing.finished ≡ false → AreNext steps playing }
    ensures first { (steps others : List Step) (playing : Playing) →
        AreNext (steps ++ others) playing → AreNext steps playing }
    ensures others { (steps others : List Step) (playing : Playing) →
        AreNext (steps ++ others) playing → AreNext others (steps_on steps playing) }
{}
