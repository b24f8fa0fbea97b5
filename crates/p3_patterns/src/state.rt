//! Recording a pattern step by step.
ghost use Rattle.std.specs.Prelude.{◌≡◌, [], ◌∷◌, ◌++◌, true, false, map, Ok, IfOk, IfErr, OnOk, OnErr, IsOk};
ghost use Rattle.p3_fs_core.specs.{declared.error.PatternError.TheVariants.Finished, Interactions.step_of};
ghost use Rattle.p3_patterns.specs.{PatternGrammar.{IsPattern, MayFollow}, OpenContainers.AreOpen};
ghost use Rattle.p3_patterns.specs.Recording.{RefusesToRecord, FaultOfNext, FaultOfEnd, Recording, Records};
ghost use Rattle.p3_patterns.specs.PatternSteps.{steps_of};
ghost use Rattle.p3_fs_core.specs.declared.error.TranscriptError.TheVariants as error;

use crate::open_containers::OpenContainers;
use crate::sequence::{fault_of_next, may_follow};
use crate::{InteractionPattern, Pattern};
use p3_field_core::Named;
use p3_fs_core::{Hierarchy, Interaction, Kind, Label, PatternError, TranscriptError};
use std::alloc::{AllocError, Global};
use std::marker::{Model, PhantomData};

/// Records a pattern step by step, for a sponge of the alphabet `U`. Each step is checked when it comes.
///
/// A recorder must be spent, by [`finalize`](PatternState::finalize) or [`abort`](Pattern::abort). After a refused
/// step it refuses every step.
///
/// The Rust crate's `PatternState` panics where it is dropped unfinished.
#[derive_where(Debug)]
pub struct PatternState<U> {
    interactions: Vec<Interaction>,
    containers: OpenContainers,
    finished: bool,
    unit: PhantomData<U>,
}

impl<U> Model for PatternState<U> {
    ghost use Rattle.std.specs.Prelude.{map};
    ghost use Rattle.p3_fs_core.specs.declared.error.PatternError.TheVariants.{Finished};
    ghost use Rattle.p3_fs_core.specs.declared.error.TranscriptError.TheVariants as error;
    ghost use Rattle.p3_fs_core.specs.Interactions.{step_of};
    ghost use Rattle.p3_patterns.specs.{OpenContainers.AreOpen, Recording.Recording};

    ghost Value = { Recording };

    ghost view = { λ r.
        record { steps = map step_of r.interactions.items; finished = r.finished } };

    ghost invariant = { λ r.
        AreOpen (map step_of r.interactions.items) r.containers.openers.items };
}

impl<U> PatternState<U> {
    /// Returns a recorder that has taken no step.
    pub fn new(alloc: Global) -> Self
        ensures { result ≡ record { steps = []; finished = false } }
    {
        PatternState {
            interactions: Vec::new(alloc),
            containers: OpenContainers::new(alloc),
            finished: false,
            unit: PhantomData,
        }
    }

    /// Spends the recorder and returns the pattern of its steps. The result is `Ok` exactly where no step was
    /// refused and no container is open.
    ///
    /// Else the error is [`PatternError::Finished`] where a step was refused, and [`TranscriptError::MissingEnd`]
    /// with the innermost opener that is still open. This call takes no memory. After an error the recorder and
    /// its steps are dropped. The Rust crate panics in place of both.
    pub fn finalize(self) -> Result<InteractionPattern, TranscriptError>
        ensures ok { IfOk result (λ pattern. (self.finished ≡ false)
            × (steps_of pattern ≡ self.steps) × IsPattern Kind.Protocol (steps_of pattern)) }
        ensures err { IfErr result (λ e. FaultOfEnd self e) }
        ensures only { self.finished ≡ false → IsPattern Kind.Protocol self.steps → IsOk result }
    {
        let PatternState {
            interactions,
            containers,
            finished,
            unit: _,
        } = self;
        if finished {
            return Err(TranscriptError::Pattern(PatternError::Finished));
        }
        InteractionPattern::recorded(interactions, containers)
    }
}

impl<U> Pattern for PatternState<U> {
    ghost takes = { Records };

    ghost refuses = { RefusesToRecord };

    fn abort(self) {
        let PatternState {
            interactions: _,
            containers: _,
            finished: _,
            unit: _,
        } = self;
    }

    // It is a part of its caller, so that a step is copied twice, and no room of an error is copied.
    #[inline(always)]
    fn interact(&mut self, interaction: Interaction) -> Result<(), TranscriptError> {
        if self.finished {
            return refuse_all();
        }
        let taken = take(&mut self.interactions, &mut self.containers, &interaction);
        let Ok(true) = taken else {
            self.finished = true;
            return refuse(&self.interactions, &self.containers, &interaction, taken);
        };
        Ok(())
    }

    // These four are the bodies of the trait, which the borrow checker does not take over for a `U` that may
    // hold lifetimes.
    fn begin<T: Named>(&mut self, label: Label, kind: Kind) -> Result<(), TranscriptError> {
        self.interact(Interaction::marker::<T>(Hierarchy::Begin, kind, label))
    }

    fn end<T: Named>(&mut self, label: Label, kind: Kind) -> Result<(), TranscriptError> {
        self.interact(Interaction::marker::<T>(Hierarchy::End, kind, label))
    }

    fn begin_protocol<T: Named>(&mut self, label: Label) -> Result<(), TranscriptError> {
        self.begin::<T>(label, Kind::Protocol)
    }

    fn end_protocol<T: Named>(&mut self, label: Label) -> Result<(), TranscriptError> {
        self.end::<T>(label, Kind::Protocol)
    }
}

// Takes the step where it may come next, and says whether it did. A refused one leaves the steps as they were. No error
// is made, so that a step costs none.
fn take(
    steps: &mut Vec<Interaction>,
    containers: &mut OpenContainers,
    next: &Interaction,
) -> Result<bool, AllocError>
    requires { AreOpen (map step_of steps.old.items) containers.old.openers.items }
    ensures taken { result ≡ Ok true → MayFollow (step_of next.now) (map step_of steps.old.items)
        × AreOpen (map step_of steps.new.items) containers.new.openers.items
        × (map step_of steps.new.items ≡ map step_of steps.old.items ++ (step_of next.now ∷ [])) }
    ensures other { (result ≡ Ok true → ⊥) → (steps.new.items ≡ steps.old.items)
        × (containers.new.openers.items ≡ containers.old.openers.items) }
    ensures stuck { result ≡ Ok false → MayFollow (step_of next.now) (map step_of steps.old.items) →
        ⊥ }
    ensures memory { OnErr result (MayFollow (step_of next.now) (map step_of steps.old.items)) }
{
    if !may_follow(steps, containers, next) {
        return Ok(false);
    }
    // Room for the step first, so that nothing has changed where there is none.
    steps.reserve(1)?;
    containers.follow(steps.len(), next)?;
    steps.push_reserved(*next);
    Ok(true)
}

// Refuses the step. It is a part of its caller, and the error is made apart, so that its room is cleared where there is
// one.
#[inline(always)]
fn refuse(
    steps: &[Interaction],
    containers: &OpenContainers,
    next: &Interaction,
    taken: Result<bool, AllocError>,
) -> Result<(), TranscriptError>
    requires open { AreOpen (map step_of steps.now) containers.now.openers.items }
    requires not_taken { taken ≡ Ok true → ⊥ }
    requires stuck { taken ≡ Ok false → MayFollow (step_of next.now) (map step_of steps.now) → ⊥ }
    requires memory { OnErr taken (MayFollow (step_of next.now) (map step_of steps.now)) }
    ensures ok { OnOk result ⊥ }
    ensures err { IfErr result (λ e. FaultOfNext (map step_of steps.now) (step_of next.now) e) }
{
    Err(fault_of_step(steps, containers, next, taken))
}

// Why the step was not taken.
#[cold]
#[inline(never)]
fn fault_of_step(
    steps: &[Interaction],
    containers: &OpenContainers,
    next: &Interaction,
    taken: Result<bool, AllocError>,
) -> TranscriptError
    requires open { AreOpen (map step_of steps.now) containers.now.openers.items }
    requires not_taken { taken ≡ Ok true → ⊥ }
    requires stuck { taken ≡ Ok false → MayFollow (step_of next.now) (map step_of steps.now) → ⊥ }
    requires memory { OnErr taken (MayFollow (step_of next.now) (map step_of steps.now)) }
    ensures { FaultOfNext (map step_of steps.now) (step_of next.now) result }
{
    match taken {
        Ok(_) => fault_of_next(steps, containers, next),
        Err(_) => TranscriptError::OutOfMemory,
    }
}

// Nothing is taken after a refusal.
#[inline(always)]
fn refuse_all() -> Result<(), TranscriptError>
    ensures ok { OnOk result ⊥ }
    ensures err { IfErr result (λ e. e ≡ error.Pattern Finished) }
{
    Err(TranscriptError::Pattern(PatternError::Finished))
}
