//! Proof of work in a step: the check of a witness.
ghost use Rattle.std.specs.Prelude.{◌≡◌, ◌≤◌, true, Some, OnOk, IfErr};
ghost use Rattle.p3_grinding.specs.Checks.{all_zero, check_of};
ghost use Rattle.p3_driver_core.specs.Working.{RefusesWitness};

use p3_fs_core::TranscriptError;
use p3_grinding::GrindingChallenger;

/// Checks a witness: the next `bits` bits drawn after it are 0.
///
/// The errors are those of [`GrindingChallenger::check_witness`], and [`TranscriptError::BadProofShape`] with `pow
/// witness does not produce enough zero bits` where the check fails; the check is done then. Condition: `bits` is at
/// most [`max_bits`](p3_challenger_core::CanSampleBits::max_bits). Not in the Rust crate.
pub fn check_work<C: GrindingChallenger>(
    challenger: &mut C,
    bits: usize,
    witness: C::Witness,
) -> Result<(), TranscriptError>
    requires { bits ≤ C.most_bits }
    ensures passes { OnOk result ((check_of C.before_witness C.observation (all_zero
        (C.bits_sampling bits)) bits witness).sampled (C.state challenger.old) ≡ Some true) }
    ensures after { OnOk result (C.state challenger.new ≡ (check_of C.before_witness C.observation
        (all_zero (C.bits_sampling bits)) bits witness).after (C.state challenger.old)) }
    ensures err { IfErr result (λ e. RefusesWitness
        (check_of C.before_witness C.observation (all_zero (C.bits_sampling bits)) bits witness) e
        (C.state challenger.old) (C.state challenger.new)) }
{
    if !challenger.check_witness(bits, witness)? {
        return Err(TranscriptError::BadProofShape {
            reason: "pow witness does not produce enough zero bits",
        });
    }
    Ok(())
}
