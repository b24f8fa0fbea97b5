//! The steps that open and close containers, which change neither the challenger nor the proof.
ghost use Rattle.std.specs.Prelude.{IsOk};
ghost use Rattle.p3_fs_core.specs.{Steps.marker_of, declared.step.Kind.TheVariants.Protocol};
ghost use Rattle.p3_driver_core.specs.Transcripts.{IsNext};
ghost use Rattle.p3_drivers.specs.Drivers.{played_by, Keeps};
ghost use Rattle.p3_driver_core.specs.Meanings as meaning;

use crate::DriverState;
use crate::tape::Tape;
use p3_challenger_core::Sponge;
use p3_field_core::Named;
use p3_fs_core::{Hierarchy, Interaction, Kind, Label, TranscriptError};
use p3_symmetric::DigestHasher;

impl<C: Sponge, U, D: DigestHasher, P: Tape> DriverState<C, U, D, P> {
    /// Opens a container of the kind. `T` names the container in the pattern's steps. This call takes no
    /// memory.
    pub fn begin<T: Named>(&mut self, label: Label, kind: Kind) -> Result<(), TranscriptError>
        ensures exact { Keeps C.state P.bytes (meaning.marked {Symbol = C.Symbol} (marker_of
            Hierarchy.Begin kind label.now T.name_bytes)) self.old (λ _. tt {0}) result self.new }
        ensures only { IsNext (played_by C.state self.old).playing
            (marker_of Hierarchy.Begin kind label.now T.name_bytes) → IsOk result }
    {
        self.mark::<T>(Hierarchy::Begin, kind, label)
    }

    /// Closes a container of the kind, with the label and the `T` of its opener. This call takes no memory.
    pub fn end<T: Named>(&mut self, label: Label, kind: Kind) -> Result<(), TranscriptError>
        ensures exact { Keeps C.state P.bytes (meaning.marked {Symbol = C.Symbol} (marker_of
            Hierarchy.End kind label.now T.name_bytes)) self.old (λ _. tt {0}) result self.new }
        ensures only { IsNext (played_by C.state self.old).playing
            (marker_of Hierarchy.End kind label.now T.name_bytes) → IsOk result }
    {
        self.mark::<T>(Hierarchy::End, kind, label)
    }

    /// Opens a container that may hold steps of any kind. This call takes no memory.
    pub fn begin_protocol<T: Named>(&mut self, label: Label) -> Result<(), TranscriptError>
        ensures exact { Keeps C.state P.bytes (meaning.marked {Symbol = C.Symbol}
            (marker_of Hierarchy.Begin Protocol label.now T.name_bytes))
            self.old (λ _. tt {0}) result self.new }
        ensures only { IsNext (played_by C.state self.old).playing
            (marker_of Hierarchy.Begin Protocol label.now T.name_bytes) → IsOk result }
    {
        self.mark::<T>(Hierarchy::Begin, Kind::Protocol, label)
    }

    /// Closes a container that may hold steps of any kind. This call takes no memory.
    pub fn end_protocol<T: Named>(&mut self, label: Label) -> Result<(), TranscriptError>
        ensures exact { Keeps C.state P.bytes (meaning.marked {Symbol = C.Symbol} (marker_of
            Hierarchy.End Protocol label.now T.name_bytes)) self.old (λ _. tt {0}) result self.new }
        ensures only { IsNext (played_by C.state self.old).playing
            (marker_of Hierarchy.End Protocol label.now T.name_bytes) → IsOk result }
    {
        self.mark::<T>(Hierarchy::End, Kind::Protocol, label)
    }

    // Opens or closes a container.
    fn mark<T: Named>(
        &mut self,
        hierarchy: Hierarchy,
        kind: Kind,
        label: Label,
    ) -> Result<(), TranscriptError>
        ensures exact { Keeps C.state P.bytes
            (meaning.marked {Symbol = C.Symbol} (marker_of hierarchy kind label.now T.name_bytes))
            self.old (λ _. tt {0}) result self.new }
        ensures only { IsNext (played_by C.state self.old).playing
            (marker_of hierarchy kind label.now T.name_bytes) → IsOk result }
    {
        self.steps
            .take(Interaction::marker::<T>(hierarchy, kind, label))?;
        self.steps.done();
        Ok(())
    }
}
