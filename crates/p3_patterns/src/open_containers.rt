//! The containers that steps leave open.
ghost use Rattle.std.specs.Prelude.{◌≡◌, ◌↔◌, [], map, IfSome, IfNone, IsTrue, OnOk, OnErr};
ghost use Rattle.p3_fs_core.specs.Interactions.{step_of};
ghost use Rattle.p3_patterns.specs.{PatternGrammar.{IsPattern, IsInnermost}, OpenContainers.{AreOpen, opened_by}};

use p3_fs_core::{Hierarchy, Interaction, Kind};
use std::alloc::{AllocError, Global};

// The positions of the openers that some steps leave open, the outermost first. So the innermost one is at hand
// without a look at the steps.
#[derive(Debug, Drop)]
pub(crate) struct OpenContainers {
    openers: Vec<usize>,
}

impl OpenContainers {
    // No steps leave none open.
    pub(crate) fn new(alloc: Global) -> Self
        ensures { AreOpen [] result.openers.items }
    {
        OpenContainers {
            openers: Vec::new(alloc),
        }
    }

    // None is open.
    pub(crate) fn is_empty(&self) -> bool
        ensures { IsTrue result ↔ self.now.openers.items ≡ [] }
    {
        self.openers.is_empty()
    }

    // The innermost opener that the steps leave open, and where it stands.
    pub(crate) fn innermost<'a>(&self, steps: &'a [Interaction]) -> Option<(usize, &'a Interaction)>
        requires { AreOpen (map step_of steps.now) self.now.openers.items }
        ensures some { IfSome result
            (λ found. IsInnermost (map step_of steps.now) found.0 (step_of found.1.now)) }
        ensures none { IfNone result (IsPattern Kind.Protocol (map step_of steps.now)) }
    {
        let position = *self.openers.last()?;
        Some((position, &steps[position]))
    }

    // Opens or closes what the step at the position does. Where memory is refused nothing changes.
    pub(crate) fn follow(&mut self, position: usize, step: &Interaction) -> Result<(), AllocError>
        ensures ok { OnOk result (self.new.openers.items
            ≡ opened_by (step_of step.now).hierarchy position self.old.openers.items) }
        ensures err { OnErr result (self.new.openers.items ≡ self.old.openers.items) }
    {
        match step.hierarchy() {
            Hierarchy::Atomic => {}
            Hierarchy::Begin => self.openers.push(position)?,
            Hierarchy::End => {
                self.openers.pop();
            }
        }
        Ok(())
    }
}
