//! Playing a pattern step by step.
ghost use Rattle.std.specs.Prelude.{◌≡◌, ◌↔◌, ◌+◌, [], false, Some, length, option_copied, IsTrue, IfErr, OnOk, IsOk};
ghost use Rattle.std.specs.Option.{option_map};
ghost use Rattle.p3_fs_core.specs.{Errors.pattern_error_of, Interactions.step_of};
ghost use Rattle.p3_patterns.specs.{PatternSteps.steps_of, Playing.{IsPlayed, CarriesReceived, next_step}};
ghost use Rattle.p3_patterns.specs.Playing.{Plays, RefusesToPlay, FaultOfPlay, FaultOfPlayEnd, IsPatternError};

use crate::{InteractionPattern, Pattern};
use p3_fs_core::{Interaction, PatternError, TranscriptError};
use std::marker::Model;
use std::rc::Rc;

/// Compares each step taken with a pattern: it has to be the pattern's next one.
///
/// A player must be spent, by [`finalize`](PatternPlayer::finalize) or [`abort`](Pattern::abort). After a refused
/// step it refuses every step.
///
/// The Rust crate's `PatternPlayer` holds an `Arc`, and panics where it is dropped unfinished.
#[derive(Debug)]
pub struct PatternPlayer {
    pattern: Rc<InteractionPattern>,
    position: usize,
    finished: bool,
}

impl Model for PatternPlayer {
    ghost use Rattle.std.specs.Prelude.{◌≤◌, length};
    ghost use Rattle.p3_patterns.specs.{PatternSteps.steps_of, Playing.Playing, PlayingLaws.playing_code};

    ghost Value = { Playing };

    ghost coded = { playing_code };

    ghost view = { λ p.
        record { pattern = p.pattern.value; position = p.position; finished = p.finished } };

    ghost invariant = { λ p. p.position ≤ length (steps_of p.pattern.value) };
}

impl PatternPlayer {
    /// Returns a player that has taken no step.
    pub fn new(pattern: Rc<InteractionPattern>) -> Self
        ensures { result ≡ record { pattern = pattern.value; position = 0; finished = false } }
    {
        PatternPlayer {
            pattern,
            position: 0,
            finished: false,
        }
    }

    /// Returns the pattern that is played.
    pub fn pattern(&self) -> &InteractionPattern
        ensures { result.now ≡ self.now.pattern }
    {
        &self.pattern
    }

    /// Returns the number of steps taken.
    pub fn position(&self) -> usize
        ensures { result ≡ self.now.position }
    {
        self.position
    }

    /// Returns the number of steps in the pattern.
    pub fn len(&self) -> usize
        ensures { result ≡ length (steps_of self.now.pattern) }
    {
        self.pattern.len()
    }

    /// Returns whether the pattern has no steps.
    pub fn is_empty(&self) -> bool
        ensures { IsTrue result ↔ steps_of self.now.pattern ≡ [] }
    {
        self.pattern.is_empty()
    }

    /// Returns the number of steps not taken yet.
    pub fn remaining(&self) -> usize
        ensures { self.now.position + result ≡ length (steps_of self.now.pattern) }
    {
        self.len() - self.position
    }

    /// Returns whether a step was refused, after which none is taken. In the Rust crate the result is also `true`
    /// after `finalize` or `abort`.
    pub fn is_finalized(&self) -> bool
        ensures { result ≡ self.now.finished }
    {
        self.finished
    }

    /// Returns the next step of the pattern, if there is one.
    pub fn next_interaction(&self) -> Option<&Interaction>
        ensures { option_map step_of (option_copied result) ≡ next_step self.now }
    {
        self.pattern.interactions().get(self.position)
    }

    /// Spends the player. The result is `Ok` exactly where no step was refused and none is left.
    ///
    /// Else the error is [`PatternError::Finished`] where a step was refused, and [`PatternError::Unplayed`] with the
    /// next step where one is left. The player is spent in both cases. The Rust crate panics in place of both.
    pub fn finalize(self) -> Result<(), TranscriptError>
        ensures ok { OnOk result (IsPlayed self) }
        ensures err { IfErr result
            (IsPatternError (λ m. FaultOfPlayEnd self (pattern_error_of m))) }
        ensures only { IsPlayed self → IsOk result }
    {
        // The error is made apart, since an error has to have its room cleared.
        if self.is_played() {
            self.abort();
            return Ok(());
        }
        self.check_and_end()
    }

    // Spends the player, as `finalize`. It is a part of its caller.
    #[inline(always)]
    fn check_and_end(self) -> Result<(), TranscriptError>
        ensures ok { OnOk result (IsPlayed self) }
        ensures err { IfErr result
            (IsPatternError (λ m. FaultOfPlayEnd self (pattern_error_of m))) }
        ensures only { IsPlayed self → IsOk result }
    {
        let checked = self.check_end();
        self.abort();
        match checked {
            Ok(()) => Ok(()),
            Err(fault) => Err(TranscriptError::Pattern(fault)),
        }
    }

    // All steps are taken, and none was refused.
    fn is_played(&self) -> bool
        ensures { IsTrue result ↔ IsPlayed self.now }
    {
        !self.finished && self.position == self.pattern.len()
    }

    // Why the step may not be taken.
    #[inline(always)]
    fn fault_of(&self, received: Interaction) -> PatternError
        requires { (self.now.finished ≡ false)
            × (next_step self.now ≡ Some (step_of received)) → ⊥ }
        ensures fault { FaultOfPlay self.now (step_of received) (pattern_error_of result) }
        ensures received { CarriesReceived received result }
    {
        if self.finished {
            return PatternError::Finished;
        }
        match self.next_interaction() {
            None => PatternError::NoMoreSteps { received },
            Some(&expected) => PatternError::WrongStep { received, expected },
        }
    }

    // All steps are taken, and none was refused, or why that is not so.
    #[cold]
    #[inline(never)]
    fn check_end(&self) -> Result<(), PatternError>
        ensures ok { OnOk result (IsPlayed self.now) }
        ensures err { IfErr result (λ e. FaultOfPlayEnd self.now (pattern_error_of e)) }
    {
        if self.finished {
            return Err(PatternError::Finished);
        }
        match self.next_interaction() {
            None => Ok(()),
            Some(&expected) => Err(PatternError::Unplayed { expected }),
        }
    }
}

impl Pattern for PatternPlayer {
    ghost takes = { Plays };

    ghost refuses = { RefusesToPlay };

    fn abort(self) {
        let PatternPlayer {
            pattern: _,
            position: _,
            finished: _,
        } = self;
    }

    // It is a part of its caller, and the error is made of its parts there, so that a step is copied once and no room of
    // an error is cleared.
    #[inline(always)]
    fn interact(&mut self, interaction: Interaction) -> Result<(), TranscriptError>
        ensures ok { OnOk result (Plays self.old (step_of interaction) self.new) }
        ensures err { IfErr result (λ e. RefusesToPlay self.old (step_of interaction) e self.new) }
        ensures received { IfErr result (λ e. IsPatternError (CarriesReceived interaction) e) }
    {
        Interaction::compared_by_parts();
        if !self.finished && self.next_interaction() == Some(&interaction) {
            self.position += 1;
            return Ok(());
        }
        let fault = self.fault_of(interaction);
        self.finished = true;
        Err(TranscriptError::Pattern(fault))
    }
}
