//! Proof of work: a witness passes where the bits drawn after its observation are 0.
//!
//! ```text
//! prover    grind(bits)             ->  the least witness that passes; the challenger is as its check leaves it
//! verifier  check_witness(bits, w)  ->  whether w passes; the challenger is the same
//! ```
ghost use Rattle.std.specs.Prelude.{◌≡◌, ◌≤◌, ℕ, IsOk};
ghost use Rattle.p3_challenger_core.specs.{Reading.IsPrefixFree, Sampling.DrawsOrRefuses};
ghost use Rattle.p3_grinding.specs.Checks.{bits_check, FindsOrRefuses};

use crate::BeforeWitness;
use crate::search::check_plainly;
use p3_challenger_core::{CanObserve, CanSampleBits, ChallengerError};
use p3_field_core::PrimeField64;

/// A challenger for proofs of work: it searches for a witness such that the bits drawn after it are 0.
///
/// Corresponds to the Rust crate's `GrindingChallenger`.
pub trait GrindingChallenger: BeforeWitness + CanObserve<Self::Witness> + CanSampleBits<usize> {
    /// The type of the witnesses.
    type Witness: PrimeField64;

    // Where a search may be refused for memory.
    ghost may_run_out: { Self.State → Type 0 };

    /// Returns the least witness that passes a check of `bits` bits, at most [`max_bits`](CanSampleBits::max_bits). The
    /// challenger is left as that check leaves it.
    ///
    /// The errors are [`ChallengerError::NoWitness`] where none passes, and [`ChallengerError::OutOfMemory`]. After
    /// either the challenger is as it was. With 0 bits there is neither. The Rust crate returns any witness that
    /// passes, and ends the process where none does.
    fn grind(&mut self, bits: usize) -> Result<Self::Witness, ChallengerError>
        requires { bits ≤ Self.most_bits }
        ensures found { FindsOrRefuses Self.Witness.residues may_run_out
            (bits_check Self.observation Self.before_witness Self.bits_sampling bits)
            (Self.state self.old) result (Self.state self.new) }
        ensures free { bits ≡ 0 → IsOk result };

    /// Returns whether a witness passes. The check calls [`draw_before_witness`](BeforeWitness::draw_before_witness)
    /// and observes the witness. The witness passes if the next `bits` bits, at most
    /// [`max_bits`](CanSampleBits::max_bits), are all 0. With 0 bits each witness passes, and nothing changes.
    ///
    /// The errors are those of `draw_before_witness`, [`CanObserve::observe`] and [`CanSampleBits::sample_bits`]. Draws
    /// and observations before the refused call stay.
    fn check_witness(
        &mut self,
        bits: usize,
        witness: Self::Witness,
    ) -> Result<bool, ChallengerError>
        requires { bits ≤ Self.most_bits }
        ensures { DrawsOrRefuses
            (bits_check Self.observation Self.before_witness Self.bits_sampling bits witness)
            (Self.state self.old) result (Self.state self.new) }
    {
        check_plainly(self, bits, witness)
    }

    // What witnesses feed tells them apart.
    ghost witnesses_prefix_free: { IsPrefixFree Self.observation.symbols };

    // The number of drawn bits is what is drawn, so that bits which are all 0 are the number 0.
    ghost number_is: { (n : ℕ) → Self.CanSampleBits.number n ≡ n };
}

impl<C: GrindingChallenger> GrindingChallenger for &mut C {
    type Witness = C::Witness;

    ghost may_run_out = { C.may_run_out };

    ghost witnesses_prefix_free = { C.witnesses_prefix_free };

    ghost number_is = { C.number_is };

    fn grind(&mut self, bits: usize) -> Result<C::Witness, ChallengerError> {
        (**self).grind(bits)
    }

    fn check_witness(&mut self, bits: usize, witness: C::Witness) -> Result<bool, ChallengerError> {
        (**self).check_witness(bits, witness)
    }
}
