//! Proof of work on a duplex challenger: a copy of it takes no memory.
use crate::DuplexChallenger;
use p3_challenger_core::ChallengerError;
use p3_field_core::{PrimeField64, UniformSamplingField};
use p3_grinding::{
    BeforeWitness, CanCopy, GrindingChallenger, UniformGrindingChallenger, least_uniform_witness,
    least_witness,
};
use p3_lanes::{LanePermutation, PackedField};
use p3_symmetric::CryptographicPermutation;

impl<
    F: PrimeField64,
    P: CryptographicPermutation<[F; WIDTH]>,
    const WIDTH: usize,
    const RATE: usize,
> CanCopy for DuplexChallenger<F, P, WIDTH, RATE> {
    ghost copies_may_fail = { ⊥ };

    fn copy(&self) -> Result<Self, ChallengerError> {
        Ok(self.clone())
    }

    fn copy_from(&mut self, other: &Self) -> Result<(), ChallengerError> {
        *self = other.clone();
        Ok(())
    }
}

impl<
    F: PrimeField64,
    P: CryptographicPermutation<[F; WIDTH]>,
    const WIDTH: usize,
    const RATE: usize,
> BeforeWitness for DuplexChallenger<F, P, WIDTH, RATE> {
    ghost use Rattle.p3_grinding.specs.{Checks.draws_nothing, CheckLaws.draws_nothing-is_sampling};

    ghost before_witness = { draws_nothing };

    ghost prepares = { draws_nothing-is_sampling _ };

    fn draw_before_witness(&mut self) -> Result<(), ChallengerError> {
        Ok(())
    }
}

impl<
    F: PrimeField64 + PackedField,
    P: LanePermutation<F, WIDTH>,
    const WIDTH: usize,
    const RATE: usize,
> GrindingChallenger for DuplexChallenger<F, P, WIDTH, RATE> {
    ghost use Rattle.std.proofs.Common.{refl};
    ghost use Rattle.p3_challenger_core.specs.SymbolLaws.{one_symbol_each};

    type Witness = F;

    // A search takes no memory.
    ghost may_run_out = { λ _. ⊥ };

    ghost witnesses_prefix_free = { record { prefix_code = one_symbol_each; some = λ _. tt } };

    ghost number_is = { λ n. refl };

    // A state of so many cells stands in no memory: that branch is for the proof alone, and is compiled into no search.
    fn grind(&mut self, bits: usize) -> Result<F, ChallengerError> {
        if WIDTH < 1 << 32 {
            self.grind_in_lanes(bits)
        } else {
            least_witness(self, bits)
        }
    }
}

impl<
    F: UniformSamplingField + PackedField,
    P: LanePermutation<F, WIDTH>,
    const WIDTH: usize,
    const RATE: usize,
> UniformGrindingChallenger for DuplexChallenger<F, P, WIDTH, RATE> {
    fn grind_uniform(&mut self, bits: usize) -> Result<F, ChallengerError> {
        least_uniform_witness(self, bits, true)
    }

    fn grind_uniform_may_error(&mut self, bits: usize) -> Result<F, ChallengerError> {
        least_uniform_witness(self, bits, false)
    }
}
