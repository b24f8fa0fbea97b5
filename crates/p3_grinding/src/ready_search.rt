//! Searches for the least witness, by challengers with a faster search from a state that is ready for a witness.
ghost use Rattle.std.specs.Prelude.{◌≡◌, ◌≤◌, IfOk, IfErr, IsOk};
ghost use Rattle.p3_grinding.specs.Checks.{bits_check, ready_check, IsLeast, RefusesTrials, TriesOrRefuses};

use crate::search::prepared_copy;
use crate::{BeforeWitness, CanCopy};
use p3_challenger_core::{CanObserve, CanSampleBits, ChallengerError};
use p3_field_core::PrimeField64;
use std::mem;

/// A challenger with a search of its own for the least witness, from a state that is ready for one.
///
/// Not in the Rust crate.
pub trait ReadySearch<W: PrimeField64>: CanObserve<W> + CanSampleBits<usize> + CanCopy {
    /// Returns the least witness after which the `bits` drawn bits are 0. The challenger is left after the observation
    /// of the witness and the draw of these bits.
    ///
    /// The errors are [`ChallengerError::NoWitness`] where none passes, and [`ChallengerError::OutOfMemory`]. After an
    /// error the state of the challenger is unspecified.
    ///
    /// `bits` is at most `max_bits`.
    fn least_when_ready(&mut self, bits: usize) -> Result<W, ChallengerError>
        requires { bits ≤ Self.most_bits }
        ensures least { IfOk result (IsLeast W.residues
            (ready_check Self.observation Self.bits_sampling bits) (Self.state self.old)) }
        ensures after { IfOk result (λ witness. Self.state self.new ≡ (ready_check
            Self.observation Self.bits_sampling bits witness).after (Self.state self.old)) }
        ensures err { IfErr result (λ e. RefusesTrials W.residues Self.copies_may_fail
            (ready_check Self.observation Self.bits_sampling bits) e
            (Self.state self.old) (Self.state self.old)) };
}

/// Returns the least witness that passes a check of `bits` bits, by the challenger's own search. The challenger is left
/// as that check leaves it. Everything else is as for [`least_witness`](crate::least_witness).
///
/// `bits` is at most `max_bits`. Not in the Rust crate.
pub fn least_witness_by_own_search<W: PrimeField64, C: BeforeWitness + ReadySearch<W>>(
    challenger: &mut C,
    bits: usize,
) -> Result<W, ChallengerError>
    requires { bits ≤ C.most_bits }
    ensures found { TriesOrRefuses W.residues C.copies_may_fail
        (bits_check C.observation C.before_witness C.bits_sampling bits)
        (C.state challenger.old) result (C.state challenger.new) }
    ensures free { bits ≡ 0 → IsOk result }
{
    if bits == 0 {
        return Ok(W::from_canonical(0));
    }
    let mut prepared = prepared_copy(challenger)?;
    let witness = prepared.least_when_ready(bits)?;
    mem::swap(challenger, &mut prepared);
    Ok(witness)
}
