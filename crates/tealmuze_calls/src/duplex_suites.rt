//! The suites over challengers of field elements that a description can name.
ghost use Rattle.std.specs.Prelude.{◌≡◌, ◌<◌, map};
ghost use Rattle.std.proofs.Common.{lit≤};
ghost use Rattle.p3_challenger.specs.{Digests.values_of, DuplexCalls.fresh, HashValueLaws.values-injective};
ghost use Rattle.tealmuze_calls.specs.{DigestLaws.numbers-one, Readings.AreSoMany};
ghost use Rattle.p3_poseidon2.specs.BabyBear16 as baby_bear;
ghost use Rattle.p3_poseidon2.specs.Goldilocks8 as goldilocks;

use crate::suites::{Called, DRAW_LIMIT};
use crate::unanswered::Unanswered;
use crate::words::{Word, digest};
use p3_challenger::DuplexChallenger;
use p3_field::{BabyBear, Goldilocks, PrimeCharacteristicRing};
use p3_poseidon2::{
    Poseidon2BabyBear16, Poseidon2Goldilocks8, default_babybear_poseidon2_16,
    default_goldilocks_poseidon2_8,
};
use p3_symmetric::{CryptographicPermutation, Hash};
use std::alloc::Global;
use test_suites::{BabyBearPoseidon2Suite, GoldilocksPoseidon2Suite};

impl Called for BabyBearPoseidon2Suite {
    ghost is_fresh = { λ s. (s.sponge ≡ fresh ⟦<BabyBear as PrimeCharacteristicRing>⟧.residues 16)
        × (⟦<Poseidon2BabyBear16 as CryptographicPermutation<[BabyBear; 16]>>⟧.permutation s.permutation ≡ baby_bear.permutation)
        × (s.draw_limit ≡ 1000) };

    ghost opaque_numbers = { λ digest. map ⟦<BabyBear as PrimeCharacteristicRing>⟧.residues.number (values_of digest) };

    ghost are_opaque = { AreSoMany 8 (λ number. number < ⟦<BabyBear as PrimeCharacteristicRing>⟧.residues.order) };

    fn fresh(alloc: Global) -> DuplexChallenger<BabyBear, Poseidon2BabyBear16, 16, 8> {
        DuplexChallenger::new(default_babybear_poseidon2_16(), DRAW_LIMIT)
    }

    fn opaque(alloc: Global, numbers: &[u64]) -> Result<Hash<BabyBear, BabyBear, 8>, Unanswered> {
        Ok(Hash::from(digest::<BabyBear, 8>(alloc, numbers)?))
    }

    ghost one_opaque = { λ x y same. values-injective x y
        (numbers-one ⟦<BabyBear as Word>⟧.encoded ⟦<BabyBear as Word>⟧.one (values_of x) (values_of y) same) };

    ghost few_bytes = { lit≤ tt };

    ghost few_bits = { lit≤ tt };
}

impl Called for GoldilocksPoseidon2Suite {
    ghost is_fresh = { λ s. (s.sponge ≡ fresh ⟦<Goldilocks as PrimeCharacteristicRing>⟧.residues 8)
        × (⟦<Poseidon2Goldilocks8 as CryptographicPermutation<[Goldilocks; 8]>>⟧.permutation s.permutation ≡ goldilocks.permutation)
        × (s.draw_limit ≡ 1000) };

    ghost opaque_numbers = { λ digest. map ⟦<Goldilocks as PrimeCharacteristicRing>⟧.residues.number (values_of digest) };

    ghost are_opaque = { AreSoMany 4 (λ number. number < ⟦<Goldilocks as PrimeCharacteristicRing>⟧.residues.order) };

    fn fresh(alloc: Global) -> DuplexChallenger<Goldilocks, Poseidon2Goldilocks8, 8, 4> {
        DuplexChallenger::new(default_goldilocks_poseidon2_8(), DRAW_LIMIT)
    }

    fn opaque(
        alloc: Global,
        numbers: &[u64],
    ) -> Result<Hash<Goldilocks, Goldilocks, 4>, Unanswered> {
        Ok(Hash::from(digest::<Goldilocks, 4>(alloc, numbers)?))
    }

    ghost one_opaque = { λ x y same. values-injective x y
        (numbers-one ⟦<Goldilocks as Word>⟧.encoded ⟦<Goldilocks as Word>⟧.one (values_of x) (values_of y) same) };

    ghost few_bytes = { lit≤ tt };

    ghost few_bits = { lit≤ tt };
}
