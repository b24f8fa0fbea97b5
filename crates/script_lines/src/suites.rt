// The other worlds: a suite over each other challenger and each alphabet.
use crate::world::World;
use anyhow::{Result, bail};
use conformance_tokens::symbol::{Symbol, symbols};
use conformance_tokens::tokens::parse_row;
use p3_challenger::fs::script::AcceptAll;
use p3_challenger::{
    DuplexChallenger, HashChallenger, MultiField32Challenger, SerializingChallenger32,
    SerializingChallenger64,
};
use p3_field::{BabyBear, F257, Goldilocks};
use p3_keccak::Keccak256Hasher;
use p3_poseidon2::{
    Poseidon2BabyBear16, Poseidon2Goldilocks8, default_babybear_poseidon2_16,
    default_goldilocks_poseidon2_8,
};
use p3_symmetric::{Hash, Sha256Hasher, Turn};
use std::alloc::Global;
use test_suites::{
    BabyBearPoseidon2Suite, GoldilocksPoseidon2Suite, HashSuite, MultiFieldPoseidon2Suite,
    MultiFieldSuite, Serializing32Suite, Serializing64Suite,
};

// How many candidates a draw of an element tries at most.
const DRAW_LIMIT: u64 = 1000;

fn accept_all(token: &str) -> Result<AcceptAll> {
    match token {
        "0" => Ok(AcceptAll),
        _ => bail!("a rule that this world has not"),
    }
}

// The 32 bytes of these hexadecimal digits.
fn digest_of_bytes(tokens: &str) -> Result<[u8; 32]> {
    let mut value = [0; 32];
    hex::decode_to_slice(tokens, &mut value)?;
    Ok(value)
}

// A digest of so many elements.
fn digest<T: Symbol, const N: usize>(alloc: Global, tokens: &str) -> Result<[T; N]> {
    let numbers = parse_row(alloc, tokens)?;
    let elements: Vec<T> = symbols(alloc, numbers.as_slice())?;
    Ok(<[T; N]>::try_from(elements.as_slice())?)
}

// A digest of four words.
fn digest_of_words(alloc: Global, tokens: &str) -> Result<[u64; 4]> {
    let words = parse_row(alloc, tokens)?;
    Ok(<[u64; 4]>::try_from(words.as_slice())?)
}

// A world for each hash function: that of any one would not know how large its challenger is.
impl World for HashSuite<Sha256Hasher> {
    fn fresh(alloc: Global) -> Result<HashChallenger<u8, Sha256Hasher, 32>> {
        Ok(HashChallenger::new(Vec::new(alloc), Sha256Hasher))
    }

    fn opaque(_alloc: Global, tokens: &str) -> Result<[u8; 32]> {
        digest_of_bytes(tokens)
    }

    fn rule(token: &str) -> Result<AcceptAll> {
        accept_all(token)
    }

    fn told(
        _alloc: Global,
        _challenger: &HashChallenger<u8, Sha256Hasher, 32>,
    ) -> Result<Option<String>> {
        Ok(None)
    }
}

impl World for HashSuite<Keccak256Hasher> {
    fn fresh(alloc: Global) -> Result<HashChallenger<u8, Keccak256Hasher, 32>> {
        Ok(HashChallenger::new(Vec::new(alloc), Keccak256Hasher))
    }

    fn opaque(_alloc: Global, tokens: &str) -> Result<[u8; 32]> {
        digest_of_bytes(tokens)
    }

    fn rule(token: &str) -> Result<AcceptAll> {
        accept_all(token)
    }

    fn told(
        _alloc: Global,
        _challenger: &HashChallenger<u8, Keccak256Hasher, 32>,
    ) -> Result<Option<String>> {
        Ok(None)
    }
}

impl World for Serializing32Suite<Sha256Hasher, Sha256Hasher> {
    fn fresh(
        alloc: Global,
    ) -> Result<SerializingChallenger32<BabyBear, HashChallenger<u8, Sha256Hasher, 32>>> {
        let inner = HashChallenger::new(Vec::new(alloc), Sha256Hasher);
        Ok(SerializingChallenger32::new(inner, DRAW_LIMIT))
    }

    fn opaque(_alloc: Global, tokens: &str) -> Result<Hash<BabyBear, u8, 32>> {
        Ok(Hash::from(digest_of_bytes(tokens)?))
    }

    fn rule(token: &str) -> Result<AcceptAll> {
        accept_all(token)
    }

    fn told(
        _alloc: Global,
        _challenger: &SerializingChallenger32<BabyBear, HashChallenger<u8, Sha256Hasher, 32>>,
    ) -> Result<Option<String>> {
        Ok(None)
    }
}

impl World for Serializing32Suite<Keccak256Hasher, Keccak256Hasher> {
    fn fresh(
        alloc: Global,
    ) -> Result<SerializingChallenger32<BabyBear, HashChallenger<u8, Keccak256Hasher, 32>>> {
        let inner = HashChallenger::new(Vec::new(alloc), Keccak256Hasher);
        Ok(SerializingChallenger32::new(inner, DRAW_LIMIT))
    }

    fn opaque(_alloc: Global, tokens: &str) -> Result<Hash<BabyBear, u8, 32>> {
        Ok(Hash::from(digest_of_bytes(tokens)?))
    }

    fn rule(token: &str) -> Result<AcceptAll> {
        accept_all(token)
    }

    fn told(
        _alloc: Global,
        _challenger: &SerializingChallenger32<BabyBear, HashChallenger<u8, Keccak256Hasher, 32>>,
    ) -> Result<Option<String>> {
        Ok(None)
    }
}

impl World for Serializing32Suite<Sha256Hasher, Keccak256Hasher> {
    fn fresh(
        alloc: Global,
    ) -> Result<SerializingChallenger32<BabyBear, HashChallenger<u8, Sha256Hasher, 32>>> {
        let inner = HashChallenger::new(Vec::new(alloc), Sha256Hasher);
        Ok(SerializingChallenger32::new(inner, DRAW_LIMIT))
    }

    fn opaque(_alloc: Global, tokens: &str) -> Result<Hash<BabyBear, u8, 32>> {
        Ok(Hash::from(digest_of_bytes(tokens)?))
    }

    fn rule(token: &str) -> Result<AcceptAll> {
        accept_all(token)
    }

    fn told(
        _alloc: Global,
        _challenger: &SerializingChallenger32<BabyBear, HashChallenger<u8, Sha256Hasher, 32>>,
    ) -> Result<Option<String>> {
        Ok(None)
    }
}

impl World for Serializing64Suite<Sha256Hasher, Sha256Hasher> {
    fn fresh(
        alloc: Global,
    ) -> Result<SerializingChallenger64<Goldilocks, HashChallenger<u8, Sha256Hasher, 32>>> {
        let inner = HashChallenger::new(Vec::new(alloc), Sha256Hasher);
        Ok(SerializingChallenger64::new(inner, DRAW_LIMIT))
    }

    fn opaque(alloc: Global, tokens: &str) -> Result<Hash<Goldilocks, u64, 4>> {
        Ok(Hash::from(digest_of_words(alloc, tokens)?))
    }

    fn rule(token: &str) -> Result<AcceptAll> {
        accept_all(token)
    }

    fn told(
        _alloc: Global,
        _challenger: &SerializingChallenger64<Goldilocks, HashChallenger<u8, Sha256Hasher, 32>>,
    ) -> Result<Option<String>> {
        Ok(None)
    }
}

impl World for Serializing64Suite<Keccak256Hasher, Keccak256Hasher> {
    fn fresh(
        alloc: Global,
    ) -> Result<SerializingChallenger64<Goldilocks, HashChallenger<u8, Keccak256Hasher, 32>>> {
        let inner = HashChallenger::new(Vec::new(alloc), Keccak256Hasher);
        Ok(SerializingChallenger64::new(inner, DRAW_LIMIT))
    }

    fn opaque(alloc: Global, tokens: &str) -> Result<Hash<Goldilocks, u64, 4>> {
        Ok(Hash::from(digest_of_words(alloc, tokens)?))
    }

    fn rule(token: &str) -> Result<AcceptAll> {
        accept_all(token)
    }

    fn told(
        _alloc: Global,
        _challenger: &SerializingChallenger64<Goldilocks, HashChallenger<u8, Keccak256Hasher, 32>>,
    ) -> Result<Option<String>> {
        Ok(None)
    }
}

impl World for MultiFieldSuite {
    fn fresh(_alloc: Global) -> Result<MultiField32Challenger<F257, BabyBear, Turn<2>, 3, 2>> {
        Ok(MultiField32Challenger::new(Turn)?)
    }

    fn opaque(alloc: Global, tokens: &str) -> Result<Hash<F257, BabyBear, 2>> {
        Ok(Hash::from(digest(alloc, tokens)?))
    }

    fn rule(token: &str) -> Result<AcceptAll> {
        accept_all(token)
    }

    fn told(
        _alloc: Global,
        _challenger: &MultiField32Challenger<F257, BabyBear, Turn<2>, 3, 2>,
    ) -> Result<Option<String>> {
        Ok(None)
    }
}

impl World for BabyBearPoseidon2Suite {
    fn fresh(_alloc: Global) -> Result<DuplexChallenger<BabyBear, Poseidon2BabyBear16, 16, 8>> {
        Ok(DuplexChallenger::new(default_babybear_poseidon2_16(), DRAW_LIMIT))
    }

    fn opaque(alloc: Global, tokens: &str) -> Result<Hash<BabyBear, BabyBear, 8>> {
        Ok(Hash::from(digest(alloc, tokens)?))
    }

    fn rule(token: &str) -> Result<AcceptAll> {
        accept_all(token)
    }

    fn told(
        _alloc: Global,
        _challenger: &DuplexChallenger<BabyBear, Poseidon2BabyBear16, 16, 8>,
    ) -> Result<Option<String>> {
        Ok(None)
    }
}

impl World for GoldilocksPoseidon2Suite {
    fn fresh(_alloc: Global) -> Result<DuplexChallenger<Goldilocks, Poseidon2Goldilocks8, 8, 4>> {
        Ok(DuplexChallenger::new(default_goldilocks_poseidon2_8(), DRAW_LIMIT))
    }

    fn opaque(alloc: Global, tokens: &str) -> Result<Hash<Goldilocks, Goldilocks, 4>> {
        Ok(Hash::from(digest(alloc, tokens)?))
    }

    fn rule(token: &str) -> Result<AcceptAll> {
        accept_all(token)
    }

    fn told(
        _alloc: Global,
        _challenger: &DuplexChallenger<Goldilocks, Poseidon2Goldilocks8, 8, 4>,
    ) -> Result<Option<String>> {
        Ok(None)
    }
}

impl World for MultiFieldPoseidon2Suite {
    fn fresh(
        _alloc: Global,
    ) -> Result<MultiField32Challenger<BabyBear, Goldilocks, Poseidon2Goldilocks8, 8, 4>> {
        Ok(MultiField32Challenger::new(default_goldilocks_poseidon2_8())?)
    }

    fn opaque(alloc: Global, tokens: &str) -> Result<Hash<BabyBear, Goldilocks, 4>> {
        Ok(Hash::from(digest(alloc, tokens)?))
    }

    fn rule(token: &str) -> Result<AcceptAll> {
        accept_all(token)
    }

    fn told(
        _alloc: Global,
        _challenger: &MultiField32Challenger<BabyBear, Goldilocks, Poseidon2Goldilocks8, 8, 4>,
    ) -> Result<Option<String>> {
        Ok(None)
    }
}
