//! Proof of work by uniform bits.
ghost use Rattle.std.specs.Prelude.{◌≡◌, ◌≤◌, true, false, IsOk};
ghost use Rattle.p3_challenger_core.specs.Sampling.{DrawsOrRefuses};
ghost use Rattle.p3_grinding.specs.Checks.{uniform_check, FindsOrRefuses};

use crate::uniform_search::check_uniformly;
use crate::{CanSampleUniformBits, GrindingChallenger};
use p3_challenger_core::ChallengerError;

/// A challenger for proofs of work by bits without bias.
///
/// With 0 bits each witness passes, and nothing changes.
///
/// Corresponds to the Rust crate's `UniformGrindingChallenger`.
pub trait UniformGrindingChallenger: GrindingChallenger + CanSampleUniformBits<Self::Witness> {
    /// Returns the least witness that passes
    /// [`check_witness_uniform`](UniformGrindingChallenger::check_witness_uniform), with `bits` at most `max_bits`. The
    /// challenger is left as that check leaves it. A witness whose check meets a draw limit does not pass.
    ///
    /// The errors are [`ChallengerError::NoWitness`] where none passes, and [`ChallengerError::OutOfMemory`]. After
    /// either the challenger is as it was. With 0 bits there is neither.
    fn grind_uniform(&mut self, bits: usize) -> Result<Self::Witness, ChallengerError>
        requires { bits ≤ Self.most_bits }
        ensures found { FindsOrRefuses Self.Witness.residues Self.may_run_out
            (uniform_check Self.observation Self.before_witness Self.uniform true bits)
            (Self.state self.old) result (Self.state self.new) }
        ensures free { bits ≡ 0 → IsOk result };

    /// Returns the least witness that passes
    /// [`check_witness_uniform_may_error`](UniformGrindingChallenger::check_witness_uniform_may_error), with `bits` at
    /// most `max_bits`. The challenger is left as that check leaves it.
    ///
    /// The errors are those of [`grind_uniform`](UniformGrindingChallenger::grind_uniform).
    fn grind_uniform_may_error(&mut self, bits: usize) -> Result<Self::Witness, ChallengerError>
        requires { bits ≤ Self.most_bits }
        ensures found { FindsOrRefuses Self.Witness.residues Self.may_run_out
            (uniform_check Self.observation Self.before_witness Self.uniform false bits)
            (Self.state self.old) result (Self.state self.new) }
        ensures free { bits ≡ 0 → IsOk result };

    /// Returns whether a witness passes. The check calls
    /// [`draw_before_witness`](crate::BeforeWitness::draw_before_witness) and observes the witness. The witness passes
    /// if the next `bits` uniform bits, at most `max_bits`, are all 0. A rejected value is replaced by another draw.
    ///
    /// The errors are those of `draw_before_witness`, of
    /// [`CanObserve::observe`](p3_challenger_core::CanObserve::observe) and of a draw. Draws and observations before
    /// the refused call stay.
    fn check_witness_uniform(
        &mut self,
        bits: usize,
        witness: Self::Witness,
    ) -> Result<bool, ChallengerError>
        requires { bits ≤ Self.most_bits }
        ensures { DrawsOrRefuses
            (uniform_check Self.observation Self.before_witness Self.uniform true bits witness)
            (Self.state self.old) result (Self.state self.new) }
    {
        check_uniformly(self, bits, true, witness)
    }

    /// Returns whether a witness passes, as `check_witness_uniform` does, except that a rejected value is not replaced:
    /// the witness does not pass.
    ///
    /// The errors are those of [`check_witness_uniform`](UniformGrindingChallenger::check_witness_uniform).
    fn check_witness_uniform_may_error(
        &mut self,
        bits: usize,
        witness: Self::Witness,
    ) -> Result<bool, ChallengerError>
        requires { bits ≤ Self.most_bits }
        ensures { DrawsOrRefuses
            (uniform_check Self.observation Self.before_witness Self.uniform false bits witness)
            (Self.state self.old) result (Self.state self.new) }
    {
        check_uniformly(self, bits, false, witness)
    }
}
