//! The suites over challengers of bytes that a description can name.
ghost use Rattle.std.specs.Prelude.{◌≡◌, ◌<◌, ◌^◌, [], map};
ghost use Rattle.std.proofs.Common.{lit≤};
ghost use Rattle.p3_challenger.specs.{Digests.values_of, HashCalls.with_pending, HashValueLaws.values-injective};
ghost use Rattle.tealmuze_calls.specs.{DigestLaws.numbers-one, Readings.AreSoMany};

use crate::suites::{Called, DRAW_LIMIT};
use crate::unanswered::Unanswered;
use crate::words::digest;
use p3_challenger::{HashChallenger, SerializingChallenger32, SerializingChallenger64};
use p3_field::{BabyBear, Goldilocks};
use p3_keccak::Keccak256Hasher;
use p3_symmetric::{Hash, Sha256Hasher};
use std::alloc::Global;
use test_suites::{HashSuite, Serializing32Suite, Serializing64Suite};

impl Called for HashSuite<Sha256Hasher> {
    ghost is_fresh = { λ s. s.sponge ≡ with_pending [] };

    ghost opaque_numbers = { λ digest. map (λ byte. byte) digest };

    ghost are_opaque = { AreSoMany 32 (λ number. number < 256) };

    fn fresh(alloc: Global) -> HashChallenger<u8, Sha256Hasher, 32> {
        HashChallenger::new(Vec::new(alloc), Sha256Hasher)
    }

    fn opaque(alloc: Global, numbers: &[u64]) -> Result<[u8; 32], Unanswered> {
        digest::<u8, 32>(alloc, numbers)
    }

    ghost one_opaque = { numbers-one (λ byte. byte) (λ one other same. same) };

    ghost few_bytes = { lit≤ tt };

    ghost few_bits = { lit≤ tt };
}

impl Called for HashSuite<Keccak256Hasher> {
    ghost is_fresh = { λ s. s.sponge ≡ with_pending [] };

    ghost opaque_numbers = { λ digest. map (λ byte. byte) digest };

    ghost are_opaque = { AreSoMany 32 (λ number. number < 256) };

    fn fresh(alloc: Global) -> HashChallenger<u8, Keccak256Hasher, 32> {
        HashChallenger::new(Vec::new(alloc), Keccak256Hasher)
    }

    fn opaque(alloc: Global, numbers: &[u64]) -> Result<[u8; 32], Unanswered> {
        digest::<u8, 32>(alloc, numbers)
    }

    ghost one_opaque = { numbers-one (λ byte. byte) (λ one other same. same) };

    ghost few_bytes = { lit≤ tt };

    ghost few_bits = { lit≤ tt };
}

impl Called for Serializing32Suite<Sha256Hasher, Sha256Hasher> {
    ghost is_fresh = { λ s. (s.inner.sponge ≡ with_pending []) × (s.draw_limit ≡ 1000) };

    ghost opaque_numbers = { λ digest. map (λ word. word) (values_of digest) };

    ghost are_opaque = { AreSoMany 32 (λ number. number < 256) };

    fn fresh(
        alloc: Global,
    ) -> SerializingChallenger32<BabyBear, HashChallenger<u8, Sha256Hasher, 32>> {
        let inner = HashChallenger::new(Vec::new(alloc), Sha256Hasher);
        SerializingChallenger32::new(inner, DRAW_LIMIT)
    }

    fn opaque(alloc: Global, numbers: &[u64]) -> Result<Hash<BabyBear, u8, 32>, Unanswered> {
        Ok(Hash::from(digest::<u8, 32>(alloc, numbers)?))
    }

    ghost one_opaque = { λ x y same. values-injective x y
        (numbers-one (λ word. word) (λ one other alike. alike) (values_of x) (values_of y) same) };

    ghost few_bytes = { lit≤ tt };

    ghost few_bits = { lit≤ tt };
}

impl Called for Serializing32Suite<Keccak256Hasher, Keccak256Hasher> {
    ghost is_fresh = { λ s. (s.inner.sponge ≡ with_pending []) × (s.draw_limit ≡ 1000) };

    ghost opaque_numbers = { λ digest. map (λ word. word) (values_of digest) };

    ghost are_opaque = { AreSoMany 32 (λ number. number < 256) };

    fn fresh(
        alloc: Global,
    ) -> SerializingChallenger32<BabyBear, HashChallenger<u8, Keccak256Hasher, 32>> {
        let inner = HashChallenger::new(Vec::new(alloc), Keccak256Hasher);
        SerializingChallenger32::new(inner, DRAW_LIMIT)
    }

    fn opaque(alloc: Global, numbers: &[u64]) -> Result<Hash<BabyBear, u8, 32>, Unanswered> {
        Ok(Hash::from(digest::<u8, 32>(alloc, numbers)?))
    }

    ghost one_opaque = { λ x y same. values-injective x y
        (numbers-one (λ word. word) (λ one other alike. alike) (values_of x) (values_of y) same) };

    ghost few_bytes = { lit≤ tt };

    ghost few_bits = { lit≤ tt };
}

impl Called for Serializing64Suite<Sha256Hasher, Sha256Hasher> {
    ghost is_fresh = { λ s. (s.inner.sponge ≡ with_pending []) × (s.draw_limit ≡ 1000) };

    ghost opaque_numbers = { λ digest. map (λ word. word) (values_of digest) };

    ghost are_opaque = { AreSoMany 4 (λ number. number < 2 ^ 64) };

    fn fresh(
        alloc: Global,
    ) -> SerializingChallenger64<Goldilocks, HashChallenger<u8, Sha256Hasher, 32>> {
        let inner = HashChallenger::new(Vec::new(alloc), Sha256Hasher);
        SerializingChallenger64::new(inner, DRAW_LIMIT)
    }

    fn opaque(alloc: Global, numbers: &[u64]) -> Result<Hash<Goldilocks, u64, 4>, Unanswered> {
        Ok(Hash::from(digest::<u64, 4>(alloc, numbers)?))
    }

    ghost one_opaque = { λ x y same. values-injective x y
        (numbers-one (λ word. word) (λ one other alike. alike) (values_of x) (values_of y) same) };

    ghost few_bytes = { lit≤ tt };

    ghost few_bits = { lit≤ tt };
}

impl Called for Serializing64Suite<Keccak256Hasher, Keccak256Hasher> {
    ghost is_fresh = { λ s. (s.inner.sponge ≡ with_pending []) × (s.draw_limit ≡ 1000) };

    ghost opaque_numbers = { λ digest. map (λ word. word) (values_of digest) };

    ghost are_opaque = { AreSoMany 4 (λ number. number < 2 ^ 64) };

    fn fresh(
        alloc: Global,
    ) -> SerializingChallenger64<Goldilocks, HashChallenger<u8, Keccak256Hasher, 32>> {
        let inner = HashChallenger::new(Vec::new(alloc), Keccak256Hasher);
        SerializingChallenger64::new(inner, DRAW_LIMIT)
    }

    fn opaque(alloc: Global, numbers: &[u64]) -> Result<Hash<Goldilocks, u64, 4>, Unanswered> {
        Ok(Hash::from(digest::<u64, 4>(alloc, numbers)?))
    }

    ghost one_opaque = { λ x y same. values-injective x y
        (numbers-one (λ word. word) (λ one other alike. alike) (values_of x) (values_of y) same) };

    ghost few_bytes = { lit≤ tt };

    ghost few_bits = { lit≤ tt };
}
