//! The trait of recorders and players, which take the steps of a protocol.
ghost use Rattle.std.specs.Prelude.{OnOk, IfErr};
ghost use Rattle.p3_fs_core.specs.{Steps.{Step, marker_of}, Interactions.step_of};

use p3_field_core::Named;
use p3_fs_core::{Hierarchy, Interaction, Kind, Label, TranscriptError};

/// Takes the steps of a protocol one by one: a recorder records them, and a player compares them with a pattern.
///
/// The method [`interact`](Pattern::interact) takes every step; the others call it with the openers and closers of
/// containers.
///
/// The Rust crate's `Pattern` panics where this trait refuses a step.
pub trait Pattern {
    ghost use Rattle.p3_fs_core.specs.declared.error.TranscriptError.{TranscriptError};

    // What taking a step makes of it.
    ghost takes: { Self → Step → Self → Type 0 };

    // What refusing a step makes of it, and with which error.
    ghost refuses: { Self → Step → TranscriptError → Self → Type 0 };

    /// Gives up and is spent, without a check of the steps taken. The Rust crate takes `self` by reference.
    fn abort(self);

    /// Takes a step. A step that may not come next is refused, and then no further step is taken.
    ///
    /// A recorder returns [`TranscriptError::MissingBegin`], [`TranscriptError::InvalidKind`] or
    /// [`TranscriptError::MismatchedBeginEnd`], and [`TranscriptError::OutOfMemory`] for a step that may come. A
    /// player returns [`PatternError::NoMoreSteps`](p3_fs_core::PatternError::NoMoreSteps) or
    /// [`PatternError::WrongStep`](p3_fs_core::PatternError::WrongStep). After a refused step both return
    /// [`PatternError::Finished`](p3_fs_core::PatternError::Finished). The steps taken before stay.
    fn interact(&mut self, interaction: Interaction) -> Result<(), TranscriptError>
        ensures ok { OnOk result (takes self.old (step_of interaction) self.new) }
        ensures err { IfErr result (λ e. refuses self.old (step_of interaction) e self.new) };

    /// Takes the opener of a container of the kind. `T` names the container in the pattern's steps.
    ///
    /// The errors are those of [`interact`](Pattern::interact).
    fn begin<T: Named>(&mut self, label: Label, kind: Kind) -> Result<(), TranscriptError>
        ensures ok { OnOk result
            (takes self.old (marker_of Hierarchy.Begin kind label.now T.name_bytes) self.new) }
        ensures err { IfErr result (λ e. refuses self.old
            (marker_of Hierarchy.Begin kind label.now T.name_bytes) e self.new) }
    {
        self.interact(Interaction::marker::<T>(Hierarchy::Begin, kind, label))
    }

    /// Takes the closer of a container of the kind, with the label and the `T` of its opener.
    ///
    /// The errors are those of [`interact`](Pattern::interact).
    fn end<T: Named>(&mut self, label: Label, kind: Kind) -> Result<(), TranscriptError>
        ensures ok { OnOk result
            (takes self.old (marker_of Hierarchy.End kind label.now T.name_bytes) self.new) }
        ensures err { IfErr result (λ e. refuses self.old
            (marker_of Hierarchy.End kind label.now T.name_bytes) e self.new) }
    {
        self.interact(Interaction::marker::<T>(Hierarchy::End, kind, label))
    }

    /// Takes the opener of a container that may hold steps of any kind.
    ///
    /// The errors are those of [`interact`](Pattern::interact).
    fn begin_protocol<T: Named>(&mut self, label: Label) -> Result<(), TranscriptError>
        ensures ok { OnOk result (takes self.old
            (marker_of Hierarchy.Begin Kind.Protocol label.now T.name_bytes) self.new) }
        ensures err { IfErr result (λ e. refuses self.old
            (marker_of Hierarchy.Begin Kind.Protocol label.now T.name_bytes) e self.new) }
    {
        self.begin::<T>(label, Kind::Protocol)
    }

    /// Takes the closer of a container that may hold steps of any kind.
    ///
    /// The errors are those of [`interact`](Pattern::interact).
    fn end_protocol<T: Named>(&mut self, label: Label) -> Result<(), TranscriptError>
        ensures ok { OnOk result (takes self.old
            (marker_of Hierarchy.End Kind.Protocol label.now T.name_bytes) self.new) }
        ensures err { IfErr result (λ e. refuses self.old
            (marker_of Hierarchy.End Kind.Protocol label.now T.name_bytes) e self.new) }
    {
        self.end::<T>(label, Kind::Protocol)
    }
}
