//! The draws of a check before it observes the witness. A search makes them once for all its candidates.
ghost use Rattle.std.specs.Prelude.{◌≡◌, Some, OnOk, IfErr};
ghost use Rattle.p3_challenger_core.specs.Sampling.{Sampling, IsSampling, RefusesDraw};

use p3_challenger_core::{ChallengerError, Sponge};

/// A challenger that defines the draws of a witness's check before it observes the witness.
///
/// Not in the Rust crate, where each check of a serializing challenger has a body of its own.
pub trait BeforeWitness: Sponge {
    // What is drawn before a witness is observed.
    ghost before_witness: { Sampling Self.State (Unit {0}) };

    /// Makes the draws of a check of at least one bit before it observes the witness. A challenger over a challenger
    /// of bytes draws one byte, and the others draw nothing.
    ///
    /// The errors are those of [`CanSample::sample`](p3_challenger_core::CanSample::sample), with the same state
    /// after them.
    fn draw_before_witness(&mut self) -> Result<(), ChallengerError>
        ensures drawn { OnOk result (before_witness.sampled (Self.state self.old) ≡ Some tt) }
        ensures after { OnOk result
            (Self.state self.new ≡ before_witness.after (Self.state self.old)) }
        ensures err { IfErr result
            (λ e. RefusesDraw before_witness e (Self.state self.old) (Self.state self.new)) };

    // It takes some number of the smallest draws.
    ghost prepares: { IsSampling Self.next before_witness };
}

impl<C: BeforeWitness> BeforeWitness for &mut C {
    ghost before_witness = { C.before_witness };

    ghost prepares = { C.prepares };

    fn draw_before_witness(&mut self) -> Result<(), ChallengerError> {
        (**self).draw_before_witness()
    }
}
