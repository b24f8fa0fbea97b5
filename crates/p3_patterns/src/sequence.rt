//! The steps of a whole protocol.
//!
//! ```text
//! a recorder's steps, or a list  ->  InteractionPattern  ->  its text and digest, for the separator
//!                                                        ->  a player, which drivers hold their steps against
//! ```
ghost use Rattle.std.specs.Prelude.{◌≡◌, ◌↔◌, ◌⊎◌, ◌<◌, ◌^◌, [], ◌∷◌, ◌++◌, List, map, length, IfOk, IfErr, OnOk, IsOk};
ghost use Rattle.std.specs.Prelude.{IsTrue};
ghost use Rattle.p3_field_core.specs.Equality.{IsExact};
ghost use Rattle.p3_fs_core.specs.{declared.step.Kind.TheVariants.Protocol, Errors.Fault, Interactions.step_of};
ghost use Rattle.p3_fs_core.specs.Steps.{Step, Closes};
ghost use Rattle.p3_patterns.specs.PatternGrammar.{Allows, IsPattern, MayFollow, IsFirstFault, NamesFirstFault};
ghost use Rattle.p3_patterns.specs.{Walks.WalksTo, PatternSteps.{steps_of, IsPatternOf}, OpenContainers.AreOpen};
ghost use Rattle.p3_patterns.specs.Recording.{NamesMissingEnd};
ghost use Rattle.p3_fs_core.specs.declared.error.TranscriptError.TheVariants as error;

use crate::open_containers::OpenContainers;
use p3_fs_core::{
    Hierarchy, Interaction, InvalidKindInfo, Kind, MismatchedBeginEndInfo, MissingBeginInfo,
    MissingEndInfo, TranscriptError,
};
use std::alloc::{AllocError, Global};
use std::marker::Model;

/// The steps of a whole protocol. Each opener has its closer, and each step is of a kind that the enclosing
/// container allows.
///
/// Contracts see its steps, wherever their texts lie in memory. They also see that the steps form a pattern, are
/// fewer than 2^64, and can stand in a program. So two patterns are equal exactly where they have the same steps.
/// Comparison, order and hash use the list of the steps.
///
/// Corresponds to the Rust crate's `InteractionPattern`.
#[derive(Debug, Drop)]
pub struct InteractionPattern {
    interactions: Vec<Interaction>,
    ghost is_pattern: { ∥ IsPattern Protocol (map step_of interactions.items) ∥₁ },
    ghost few: { length (map step_of interactions.items) < 2 ^ 64 },
}

impl Model for InteractionPattern {
    ghost use Rattle.std.specs.Prelude.{map};
    ghost use Rattle.p3_fs_core.specs.{InteractionLaws.each-fits, Interactions.step_of};
    ghost use Rattle.p3_patterns.specs.{PatternStepLaws.pattern_steps_code, PatternSteps.PatternSteps};

    ghost Value = { PatternSteps };

    ghost coded = { pattern_steps_code };

    ghost view = { λ p. record {
      steps = map step_of p.interactions.items;
      is_pattern = p.is_pattern;
      few = p.few;
      fit = each-fits p.interactions.items;
    } };
}

impl InteractionPattern {
    /// Returns the pattern of these steps.
    ///
    /// Steps that form no pattern are refused with their first fault: [`TranscriptError::MissingBegin`],
    /// [`TranscriptError::InvalidKind`], [`TranscriptError::MismatchedBeginEnd`] or [`TranscriptError::MissingEnd`].
    /// The error is [`TranscriptError::OutOfMemory`] where memory for the positions of the open containers is
    /// refused. After an error the steps are dropped.
    pub fn new(interactions: Vec<Interaction>) -> Result<Self, TranscriptError>
        ensures ok { IfOk result (λ pattern. IsPatternOf pattern (map step_of interactions.items)) }
        ensures err { IfErr result
            (λ e. NamesFirstFault (map step_of interactions.items) e ⊎ (e ≡ error.OutOfMemory)) }
        ensures only { IsPattern Kind.Protocol (map step_of interactions.items) →
            IfErr result (λ e. e ≡ error.OutOfMemory) }
        // A list of steps has one first fault at most.
        ensures one_fault { (steps : List Step) (f g : Fault) → IsFirstFault steps f →
            IsFirstFault steps g → f ≡ g }
    {
        let mut containers = OpenContainers::new(*interactions.allocator());
        let Ok(walked) = walk(&interactions, &mut containers) else {
            return refuse_next(interactions, containers, Err(AllocError));
        };
        if walked < interactions.len() {
            return refuse_next(interactions, containers, Ok(walked));
        }
        if !containers.is_empty() {
            return refuse_end(interactions, containers);
        }
        // The containers go first, so that the pattern is made where the caller wants it, and not copied there.
        drop(containers);
        Ok(InteractionPattern { interactions })
    }

    // The pattern of steps that were checked one by one, which is refused where a container is still open.
    pub(crate) fn recorded(
        interactions: Vec<Interaction>,
        containers: OpenContainers,
    ) -> Result<Self, TranscriptError>
        requires { AreOpen (map step_of interactions.items) containers.openers.items }
        ensures ok { IfOk result (λ pattern. IsPatternOf pattern (map step_of interactions.items)) }
        ensures err { IfErr result (λ e. NamesMissingEnd (map step_of interactions.items) e) }
        ensures only { IsPattern Kind.Protocol (map step_of interactions.items) → IsOk result }
    {
        if containers.is_empty() {
            drop(containers);
            return Ok(InteractionPattern { interactions });
        }
        refuse_end(interactions, containers)
    }

    /// Returns the pattern of no steps. In the Rust crate this is `Default`.
    pub fn empty(alloc: Global) -> Self
        ensures { steps_of result ≡ [] }
    {
        InteractionPattern {
            interactions: Vec::new(alloc),
        }
    }

    /// Returns the steps in order.
    pub fn interactions(&self) -> &[Interaction]
        ensures { map step_of result.now ≡ steps_of self.now }
    {
        &self.interactions
    }

    /// Returns the number of steps.
    pub fn len(&self) -> usize
        ensures { result ≡ length (steps_of self.now) }
    {
        self.interactions.len()
    }

    /// Returns whether there are no steps.
    pub fn is_empty(&self) -> bool
        ensures { IsTrue result ↔ steps_of self.now ≡ [] }
    {
        self.interactions.is_empty()
    }

    // What the steps were allocated with.
    pub(crate) fn allocator(&self) -> Global {
        *self.interactions.allocator()
    }

    /// Two patterns compare equal exactly where they have the same steps. Order and hash agree with equality, as for
    /// every type.
    ///
    /// A law: the body does nothing, and a caller cites the clause.
    #[tactic(auto, using(crate::proofs::PatternEquality::equal_patterns))]
    pub fn compared_by_steps()
        ensures { IsExact ⟦<InteractionPattern as PartialEq>⟧.eq }
    {
        Interaction::compared_by_parts();
    }

    /// Returns an equal pattern.
    ///
    /// The one error is [`TranscriptError::OutOfMemory`]. The Rust crate's `Clone` returns no error.
    pub fn clone(&self) -> Result<Self, TranscriptError>
        ensures ok { IfOk result (λ pattern. pattern ≡ self.now) }
        ensures err { IfErr result (λ e. e ≡ error.OutOfMemory) }
    {
        Ok(InteractionPattern {
            interactions: self.interactions.clone()?,
        })
    }
}

// How many of the steps may stand where they do, up to the first one that may not; `containers` are then those that
// they leave open. It makes no error of a fault, so that a pattern costs none.
#[inline(never)]
fn walk(steps: &[Interaction], containers: &mut OpenContainers) -> Result<usize, AllocError>
    requires { AreOpen [] containers.old.openers.items }
    ensures { IfOk result (λ walked. WalksTo steps.now walked containers.new.openers.items) }
{
    for position in 0..steps.len() {
        let next = &steps[position];
        if !may_follow(&steps[..position], containers, next) {
            return Ok(position);
        }
        containers.follow(position, next)?;
    }
    Ok(steps.len())
}

// Refuses steps over which a walk ended before their end. It is a part of its caller, and the error is made apart, so
// that its room is cleared where there is one.
#[inline(always)]
fn refuse_next(
    interactions: Vec<Interaction>,
    containers: OpenContainers,
    walked: Result<usize, AllocError>,
) -> Result<InteractionPattern, TranscriptError>
    requires walks { IfOk walked (λ n. WalksTo interactions.items n containers.openers.items) }
    requires more { IfOk walked (λ n. n < length interactions.items) }
    ensures ok { OnOk result ⊥ }
    ensures err { IfErr result
        (λ e. NamesFirstFault (map step_of interactions.items) e ⊎ (e ≡ error.OutOfMemory)) }
{
    Err(fault_of_walk(interactions, containers, walked))
}

// Why a walk over the steps ended before their end: the first fault, or the refusal of memory.
#[cold]
#[inline(never)]
fn fault_of_walk(
    interactions: Vec<Interaction>,
    containers: OpenContainers,
    walked: Result<usize, AllocError>,
) -> TranscriptError
    requires walks { IfOk walked (λ n. WalksTo interactions.items n containers.openers.items) }
    requires more { IfOk walked (λ n. n < length interactions.items) }
    ensures { NamesFirstFault (map step_of interactions.items) result ⊎ (result ≡ error.OutOfMemory) }
{
    let Ok(walked) = walked else {
        return TranscriptError::OutOfMemory;
    };
    let before = &interactions[..walked];
    fault_of_next(before, &containers, &interactions[walked])
}

// Refuses steps that leave a container open, as a part of its caller.
#[inline(always)]
fn refuse_end(
    interactions: Vec<Interaction>,
    containers: OpenContainers,
) -> Result<InteractionPattern, TranscriptError>
    requires open { AreOpen (map step_of interactions.items) containers.openers.items }
    requires some { containers.openers.items ≡ [] → ⊥ }
    ensures ok { OnOk result ⊥ }
    ensures err { IfErr result (λ e. NamesMissingEnd (map step_of interactions.items) e) }
{
    Err(fault_of_end(interactions, containers))
}

// The fault of steps that leave a container open.
#[cold]
#[inline(never)]
fn fault_of_end(interactions: Vec<Interaction>, containers: OpenContainers) -> TranscriptError
    requires open { AreOpen (map step_of interactions.items) containers.openers.items }
    requires some { containers.openers.items ≡ [] → ⊥ }
    ensures { NamesMissingEnd (map step_of interactions.items) result }
{
    match containers.innermost(&interactions) {
        None => unreachable!(),
        Some((position, begin)) => TranscriptError::MissingEnd(MissingEndInfo {
            position,
            begin: *begin,
        }),
    }
}

// The step may stand after those before it. This is asked of each step and makes no error, since an error has to
// have its room cleared.
#[inline(always)]
pub(crate) fn may_follow(
    before: &[Interaction],
    containers: &OpenContainers,
    next: &Interaction,
) -> bool
    requires { AreOpen (map step_of before.now) containers.now.openers.items }
    ensures { IsTrue result ↔ MayFollow (step_of next.now) (map step_of before.now) }
{
    match containers.innermost(before) {
        None => !is_closer(next),
        Some((_, begin)) => {
            if is_closer(next) {
                closes(next, begin)
            } else {
                allows(begin.kind(), next)
            }
        }
    }
}

// Why the step may not stand after those before it. The fault is named alike whatever follows.
pub(crate) fn fault_of_next(
    before: &[Interaction],
    containers: &OpenContainers,
    next: &Interaction,
) -> TranscriptError
    requires open { AreOpen (map step_of before.now) containers.now.openers.items }
    requires stuck { MayFollow (step_of next.now) (map step_of before.now) → ⊥ }
    ensures { (rest : List Step) →
        NamesFirstFault (map step_of before.now ++ (step_of next.now ∷ rest)) result }
{
    let position = before.len();
    let Some((begin_position, begin)) = containers.innermost(before) else {
        return TranscriptError::MissingBegin(MissingBeginInfo {
            position,
            end: *next,
        });
    };
    if is_closer(next) {
        TranscriptError::MismatchedBeginEnd(MismatchedBeginEndInfo {
            begin_position,
            begin: *begin,
            end_position: position,
            end: *next,
        })
    } else {
        TranscriptError::InvalidKind(InvalidKindInfo {
            begin_position,
            begin: *begin,
            interaction_position: position,
            interaction: *next,
        })
    }
}

// The step closes a container.
fn is_closer(step: &Interaction) -> bool
    ensures { IsTrue result ↔ (step_of step.now).hierarchy ≡ Hierarchy.End }
{
    step.hierarchy() == Hierarchy::End
}

// The step closes the container that the other one opens. It stands apart, so that what is asked of all other steps is
// short.
#[inline(never)]
fn closes(step: &Interaction, begin: &Interaction) -> bool
    ensures { IsTrue result ↔ Closes (step_of step.now) (step_of begin.now) }
{
    step.closes(begin)
}

// A container of the kind may hold the step.
fn allows(kind: Kind, step: &Interaction) -> bool
    ensures { IsTrue result ↔ Allows kind (step_of step.now) }
{
    kind == Kind::Protocol || step.kind() == kind
}
