//! Proof of work on a multi-field challenger: a copy of it takes no memory.
use crate::MultiField32Challenger;
use p3_challenger_core::ChallengerError;
use p3_field_bridge::FieldBridge;
use p3_field_core::{PrimeField32, PrimeField64};
use p3_grinding::{BeforeWitness, CanCopy, GrindingChallenger};
use p3_symmetric::CryptographicPermutation;

impl<
    F: PrimeField32,
    PF: PrimeField64 + FieldBridge<F, PF>,
    P: CryptographicPermutation<[PF; WIDTH]>,
    const WIDTH: usize,
    const RATE: usize,
> CanCopy for MultiField32Challenger<F, PF, P, WIDTH, RATE> {
    ghost copies_may_fail = { ⊥ };

    fn copy(&self) -> Result<Self, ChallengerError> {
        Ok(self.clone())
    }

    // Of what may be pending only what is so is copied.
    fn copy_from(&mut self, other: &Self) -> Result<(), ChallengerError> {
        let scalars = other.pending();
        self.sponge_state = other.sponge_state;
        self.pending[..scalars.len()].copy_from_slice(scalars);
        self.scalars = scalars.len();
        self.outputs_left = other.outputs_left;
        self.permutation = other.permutation;
        Ok(())
    }
}

impl<
    F: PrimeField32,
    PF: PrimeField64 + FieldBridge<F, PF>,
    P: CryptographicPermutation<[PF; WIDTH]>,
    const WIDTH: usize,
    const RATE: usize,
> BeforeWitness for MultiField32Challenger<F, PF, P, WIDTH, RATE> {
    ghost use Rattle.p3_grinding.specs.{Checks.draws_nothing, CheckLaws.draws_nothing-is_sampling};

    ghost before_witness = { draws_nothing };

    ghost prepares = { draws_nothing-is_sampling _ };

    fn draw_before_witness(&mut self) -> Result<(), ChallengerError> {
        Ok(())
    }
}

impl<
    F: PrimeField32,
    PF: PrimeField64 + FieldBridge<F, PF>,
    P: CryptographicPermutation<[PF; WIDTH]>,
    const WIDTH: usize,
    const RATE: usize,
> GrindingChallenger for MultiField32Challenger<F, PF, P, WIDTH, RATE> {
    ghost use Rattle.std.proofs.Common.{refl};
    ghost use Rattle.p3_multi_field.specs.MultiFieldSymbolLaws.{scalar-prefix_code};

    type Witness = F;

    // A search takes no memory.
    ghost may_run_out = { λ _. ⊥ };

    ghost witnesses_prefix_free = { record { prefix_code = scalar-prefix_code; some = λ _. tt } };

    ghost number_is = { λ n. refl };

    fn grind(&mut self, bits: usize) -> Result<F, ChallengerError> {
        self.grind_prepared(bits)
    }
}
