//! The progress of a driver in its pattern: each step is compared with the next one before anything else is done.
ghost use Rattle.std.specs.Prelude.{◌≡◌, ◌≤◌, ◌<◌, ◌↔◌, false, IfErr, IfOk, OnOk, IsOk, IsTrue};
ghost use Rattle.p3_fs_core.specs.Interactions.{step_of};
ghost use Rattle.p3_patterns.specs.Playing.{RefusesToPlay, IsPlayed, next_step};
ghost use Rattle.p3_driver_core.specs.{Bound.bound_value, Driving.{playing_of, Opens}, Transcripts.another_length};
ghost use Rattle.p3_driver_core.specs.Transcripts.{bytes_step, uniform_bits_step, halted_player, RefusesLength};
ghost use Rattle.p3_driver_core.specs.Transcripts.{RefusesCarried, RefusesPlayEnd, IsOtherLength, longer_list};

use crate::TranscriptBound;
use crate::algebras::{Algebras, KnownAlgebra};
use p3_field_core::{AlgebraIdentity, Named};
use p3_fs_core::{
    Declared, Hierarchy, Interaction, Kind, Label, Length, PatternError, TranscriptError,
    TranscriptField,
};
use p3_patterns::{InteractionPattern, Pattern, PatternPlayer};
use p3_symmetric::DigestHasher;
use std::alloc::{AllocError, Global};
use std::marker::PhantomData;
use std::rc::Rc;

/// Tracks a driver's progress in its pattern.
///
/// [`take`](Steps::take) opens a step that is the next one of the pattern. [`done`](Steps::done) closes it, or
/// [`bind`](Steps::bind) where it has a single result. In between no other step is taken, so a step abandoned in the
/// middle leaves the driver finished.
///
/// Not in the Rust crate.
#[derive_where(Debug)]
pub struct Steps<D: DigestHasher> {
    player: PatternPlayer,
    // A step is open, or was given up.
    closed: bool,
    algebras: Algebras<D>,
}

impl<D: DigestHasher> Steps<D> {
    /// Returns the steps of a pattern, none of them taken yet. Memory for the digests of algebras is allocated here,
    /// so that no later step needs any for them.
    pub fn new(alloc: Global, pattern: Rc<InteractionPattern>) -> Result<Self, AllocError>
        ensures { IfOk result (λ steps.
            playing_of steps ≡ record { pattern = pattern.value; position = 0; finished = false }) }
    {
        let algebras = Algebras::new(alloc)?;
        Ok(Steps {
            player: PatternPlayer::new(pattern),
            closed: false,
            algebras,
        })
    }

    /// Opens a step, which has to be the next one of the pattern.
    ///
    /// The errors are those of [`PatternPlayer`], and [`PatternError::Finished`] where a step is open or was
    /// abandoned. After an error no step is taken.
    pub fn take(&mut self, interaction: Interaction) -> Result<(), TranscriptError>
        ensures ok { OnOk result (Opens self.old (step_of interaction) self.new) }
        ensures err { IfErr result (λ e. RefusesToPlay (playing_of self.old) (step_of interaction) e
            (playing_of self.new)) }
    {
        if self.closed {
            return Err(TranscriptError::Pattern(PatternError::Finished));
        }
        self.player.interact(interaction)?;
        self.closed = true;
        Ok(())
    }

    /// Opens a step that carries elements of an algebra, as [`take`](Steps::take) does. The identity of each of the
    /// first four algebras is hashed once, and that of any other at each of its steps.
    pub fn take_algebra<F: TranscriptField, A: AlgebraIdentity<F> + Named>(
        &mut self,
        kind: Kind,
        label: Label,
        length: Length,
    ) -> Result<(), TranscriptError>
        ensures ok { OnOk result
            (Opens self.old (⟦<A as Declared<F, D>>⟧.step kind label.now length) self.new) }
        ensures err { IfErr result (λ e. RefusesToPlay (playing_of self.old)
            (⟦<A as Declared<F, D>>⟧.step kind label.now length) e (playing_of self.new)) }
    {
        for known in &self.algebras.known {
            if known.identity == A::algebra_id()
                && known.modulus == F::ORDER_U64
                && known.degree == A::DIMENSION
                && known.step.type_name() == A::type_name()
            {
                let step = known
                    .step
                    .of_same_type(Hierarchy::Atomic, kind, label, length);
                return self.take(step);
            }
        }
        let step = Interaction::algebra::<F, A, D>(Hierarchy::Atomic, kind, label, length);
        self.algebras.keep(KnownAlgebra {
            identity: A::algebra_id(),
            modulus: F::ORDER_U64,
            degree: A::DIMENSION,
            step,
            hasher: PhantomData,
        });
        self.take(step)
    }

    /// Opens a step that carries bytes, as [`take`](Steps::take) does.
    pub fn take_bytes(
        &mut self,
        kind: Kind,
        label: Label,
        length: Length,
    ) -> Result<(), TranscriptError>
        ensures ok { OnOk result (Opens self.old (bytes_step kind label.now length) self.new) }
        ensures err { IfErr result (λ e. RefusesToPlay (playing_of self.old)
            (bytes_step kind label.now length) e (playing_of self.new)) }
    {
        self.take(Interaction::bytes(Hierarchy::Atomic, kind, label, length))
    }

    /// Opens a step that draws numbers of `width` uniform bits, as [`take`](Steps::take) does.
    pub fn take_uniform_bits(
        &mut self,
        label: Label,
        width: usize,
        length: Length,
    ) -> Result<(), TranscriptError>
        ensures ok { OnOk result
            (Opens self.old (uniform_bits_step label.now width length) self.new) }
        ensures err { IfErr result (λ e. RefusesToPlay (playing_of self.old)
            (uniform_bits_step label.now width length) e (playing_of self.new)) }
    {
        self.take(Interaction::uniform_bits(
            Hierarchy::Atomic,
            Kind::Challenge,
            label,
            width,
            length,
        ))
    }

    /// Checks that a list is no longer than its step allows, before the step is compared with the pattern.
    ///
    /// The errors are [`PatternError::Finished`] where a step was refused before, and then [`PatternError::OverCap`]
    /// where the list is longer. After an error no step is taken.
    pub fn within(&mut self, len: usize, max: usize) -> Result<(), TranscriptError>
        ensures ok { OnOk result ((len ≤ max) × (self.new ≡ self.old)) }
        ensures err { IfErr result
            (λ e. RefusesLength len max (playing_of self.old) e (playing_of self.new)) }
    {
        if self.is_finished() {
            return Err(TranscriptError::Pattern(PatternError::Finished));
        }
        if len > max {
            self.closed = true;
            return Err(TranscriptError::Pattern(PatternError::OverCap { len, max }));
        }
        Ok(())
    }

    /// Checks that a caller's list is no longer than its step allows.
    ///
    /// The errors are [`PatternError::Finished`] where a step was refused before, and then
    /// [`TranscriptError::BadProofShape`] where the list is longer. After an error no step is taken.
    pub fn carried_within(&mut self, len: usize, max: usize) -> Result<(), TranscriptError>
        ensures ok { OnOk result ((len ≤ max) × (self.new ≡ self.old)) }
        ensures err { IfErr result (λ e. RefusesCarried (max < len) longer_list
            (playing_of self.old) e (playing_of self.new)) }
    {
        if self.is_finished() {
            return Err(TranscriptError::Pattern(PatternError::Finished));
        }
        if len > max {
            self.closed = true;
            return Err(TranscriptError::BadProofShape {
                reason: "list length exceeds the recorded maximum",
            });
        }
        Ok(())
    }

    /// Checks a caller's list, which is refused where the next step has a list of another length.
    ///
    /// The errors are [`PatternError::Finished`] where a step was refused before, and then
    /// [`TranscriptError::BadProofShape`] where the next step has another length. After an error no step is taken.
    pub fn carried_as_recorded(&mut self, len: usize) -> Result<(), TranscriptError>
        ensures ok { OnOk result
            ((IsOtherLength len (next_step (playing_of self.old)) → ⊥) × (self.new ≡ self.old)) }
        ensures err { IfErr result
            (λ e. RefusesCarried (IsOtherLength len (next_step (playing_of self.old)))
            another_length (playing_of self.old) e (playing_of self.new)) }
    {
        if self.is_finished() {
            return Err(TranscriptError::Pattern(PatternError::Finished));
        }
        if self.has_other_length(len) {
            self.closed = true;
            return Err(TranscriptError::BadProofShape {
                reason: "list length differs from the recorded shape",
            });
        }
        Ok(())
    }

    // The next step has a list of a length that is not this one.
    fn has_other_length(&self, len: usize) -> bool
        ensures { IsTrue result ↔ IsOtherLength len (next_step (playing_of self.now)) }
    {
        match self.player.next_interaction() {
            None => false,
            Some(step) => match step.length() {
                Length::Fixed(recorded) => recorded != len,
                Length::None | Length::Scalar | Length::Bounded(_) => false,
            },
        }
    }

    /// Returns whether a step was refused, after which none is taken.
    pub fn is_finished(&self) -> bool
        ensures { result ≡ (playing_of self.now).finished }
    {
        self.closed || self.player.is_finalized()
    }

    /// Spends the steps. The result is `Ok` exactly where no step was refused and none is left.
    ///
    /// Else the error is [`PatternError::Finished`] where a step was refused, and [`PatternError::Unplayed`] with the
    /// next step where one is left. This call takes no memory.
    pub fn finalize(self) -> Result<(), TranscriptError>
        ensures ok { OnOk result (IsPlayed (playing_of self)) }
        ensures err { IfErr result (RefusesPlayEnd (playing_of self)) }
        ensures only { IsPlayed (playing_of self) → IsOk result }
    {
        let Steps {
            player,
            closed,
            algebras: _,
        } = self;
        if closed {
            player.abort();
            return Err(TranscriptError::Pattern(PatternError::Finished));
        }
        player.finalize()
    }

    /// Ends the play, as a refused step does. The pattern and the position stay.
    pub fn halt(&mut self)
        ensures { playing_of self.new ≡ halted_player (playing_of self.old) }
    {
        self.closed = true;
    }

    /// Gives up and spends the steps, without a check of what was played.
    pub fn abort(self) {
        let Steps {
            player,
            closed: _,
            algebras: _,
        } = self;
        player.abort();
    }

    /// Closes the open step, which was played.
    pub fn done(&mut self)
        ensures { self.new ≡ record self.old { closed = false } }
    {
        self.closed = false;
    }

    /// Closes the open step, which was played, and returns its result as a bound value.
    pub fn bind<T>(&mut self, value: T) -> TranscriptBound<T>
        ensures closed { self.new ≡ record self.old { closed = false } }
        ensures value { bound_value result ≡ value }
    {
        self.closed = false;
        TranscriptBound(value)
    }
}
