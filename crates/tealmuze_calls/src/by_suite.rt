//! What is told by the suite whose number is the first byte of a description.
ghost use Rattle.std.specs.Prelude.{ℕ, List, ◌∷◌, []};
ghost use Rattle.tealmuze_calls.specs.Written.{BySuite};

use crate::calls::Calls;
use p3_keccak::Keccak256Hasher;
use p3_symmetric::Sha256Hasher;
use test_suites::{
    BabyBearPoseidon2Suite, GoldilocksPoseidon2Suite, HashSuite, Serializing32Suite,
    Serializing64Suite,
};

/// What is told of the protocol that a description has, of whatever suite.
pub trait CallsBySuite {
    // Some protocol is described.
    ghost is_described: { List ℕ → Type 0 };

    // Of a proof, with these witnesses carried; by a verdict of these bytes.
    ghost tells_of_proof: { List ℕ → List ℕ → List ℕ → List ℕ → Type 0 };

    // Of the values that these bytes encode; by a verdict of these bytes.
    ghost tells_of_values: { List ℕ → List ℕ → List ℕ → Type 0 };

    // Whether a verdict is asked for: of a proof, with these numbers carried; and of the values that these bytes encode.
    ghost asks_of_proof: { List ℕ → List ℕ → Type 0 };

    ghost asks_of_values: { List ℕ → List ℕ → Type 0 };

    // How many bytes are wanted for an answer, where the proof or the values have so many.
    ghost wants_room: { ℕ → List ℕ → ℕ → Type 0 };
}

/// The suites that a description can name, by its first byte: from 0 on, in the order in which they stand here.
pub struct Suites;

impl CallsBySuite for Suites {
    ghost is_described = { λ description. BySuite (
        (λ protocol unit. ⟦<HashSuite<Sha256Hasher> as Calls>⟧.is_described 1 protocol) ∷
        (λ protocol unit. ⟦<Serializing32Suite as Calls>⟧.is_described 1 protocol) ∷
        (λ protocol unit. ⟦<HashSuite<Keccak256Hasher> as Calls>⟧.is_described 1 protocol) ∷
        (λ protocol unit. ⟦<Serializing32Suite<Keccak256Hasher> as Calls>⟧.is_described 1 protocol) ∷
        (λ protocol unit. ⟦<Serializing64Suite as Calls>⟧.is_described 1 protocol) ∷
        (λ protocol unit. ⟦<Serializing64Suite<Keccak256Hasher> as Calls>⟧.is_described 1 protocol) ∷
        (λ protocol unit. ⟦<BabyBearPoseidon2Suite as Calls>⟧.is_described 1 protocol) ∷
        (λ protocol unit. ⟦<GoldilocksPoseidon2Suite as Calls>⟧.is_described 1 protocol) ∷
        []) description (tt {0}) };

    ghost tells_of_proof = { λ proof carried. BySuite (
        (⟦<HashSuite<Sha256Hasher> as Calls>⟧.tells_of_proof 1 proof carried) ∷
        (⟦<Serializing32Suite as Calls>⟧.tells_of_proof 1 proof carried) ∷
        (⟦<HashSuite<Keccak256Hasher> as Calls>⟧.tells_of_proof 1 proof carried) ∷
        (⟦<Serializing32Suite<Keccak256Hasher> as Calls>⟧.tells_of_proof 1 proof carried) ∷
        (⟦<Serializing64Suite as Calls>⟧.tells_of_proof 1 proof carried) ∷
        (⟦<Serializing64Suite<Keccak256Hasher> as Calls>⟧.tells_of_proof 1 proof carried) ∷
        (⟦<BabyBearPoseidon2Suite as Calls>⟧.tells_of_proof 1 proof carried) ∷
        (⟦<GoldilocksPoseidon2Suite as Calls>⟧.tells_of_proof 1 proof carried) ∷
        []) };

    ghost tells_of_values = { λ values. BySuite (
        (⟦<HashSuite<Sha256Hasher> as Calls>⟧.tells_of_values 1 values) ∷
        (⟦<Serializing32Suite as Calls>⟧.tells_of_values 1 values) ∷
        (⟦<HashSuite<Keccak256Hasher> as Calls>⟧.tells_of_values 1 values) ∷
        (⟦<Serializing32Suite<Keccak256Hasher> as Calls>⟧.tells_of_values 1 values) ∷
        (⟦<Serializing64Suite as Calls>⟧.tells_of_values 1 values) ∷
        (⟦<Serializing64Suite<Keccak256Hasher> as Calls>⟧.tells_of_values 1 values) ∷
        (⟦<BabyBearPoseidon2Suite as Calls>⟧.tells_of_values 1 values) ∷
        (⟦<GoldilocksPoseidon2Suite as Calls>⟧.tells_of_values 1 values) ∷
        []) };

    ghost asks_of_proof = { BySuite (
        (⟦<HashSuite<Sha256Hasher> as Calls>⟧.asks_of_proof 1) ∷
        (⟦<Serializing32Suite as Calls>⟧.asks_of_proof 1) ∷
        (⟦<HashSuite<Keccak256Hasher> as Calls>⟧.asks_of_proof 1) ∷
        (⟦<Serializing32Suite<Keccak256Hasher> as Calls>⟧.asks_of_proof 1) ∷
        (⟦<Serializing64Suite as Calls>⟧.asks_of_proof 1) ∷
        (⟦<Serializing64Suite<Keccak256Hasher> as Calls>⟧.asks_of_proof 1) ∷
        (⟦<BabyBearPoseidon2Suite as Calls>⟧.asks_of_proof 1) ∷
        (⟦<GoldilocksPoseidon2Suite as Calls>⟧.asks_of_proof 1) ∷
        []) };

    ghost asks_of_values = { BySuite (
        (⟦<HashSuite<Sha256Hasher> as Calls>⟧.asks_of_values 1) ∷
        (⟦<Serializing32Suite as Calls>⟧.asks_of_values 1) ∷
        (⟦<HashSuite<Keccak256Hasher> as Calls>⟧.asks_of_values 1) ∷
        (⟦<Serializing32Suite<Keccak256Hasher> as Calls>⟧.asks_of_values 1) ∷
        (⟦<Serializing64Suite as Calls>⟧.asks_of_values 1) ∷
        (⟦<Serializing64Suite<Keccak256Hasher> as Calls>⟧.asks_of_values 1) ∷
        (⟦<BabyBearPoseidon2Suite as Calls>⟧.asks_of_values 1) ∷
        (⟦<GoldilocksPoseidon2Suite as Calls>⟧.asks_of_values 1) ∷
        []) };

    ghost wants_room = { λ len. BySuite (
        (⟦<HashSuite<Sha256Hasher> as Calls>⟧.wants_room 1 4 len) ∷
        (⟦<Serializing32Suite as Calls>⟧.wants_room 1 4 len) ∷
        (⟦<HashSuite<Keccak256Hasher> as Calls>⟧.wants_room 1 4 len) ∷
        (⟦<Serializing32Suite<Keccak256Hasher> as Calls>⟧.wants_room 1 4 len) ∷
        (⟦<Serializing64Suite as Calls>⟧.wants_room 1 1 len) ∷
        (⟦<Serializing64Suite<Keccak256Hasher> as Calls>⟧.wants_room 1 1 len) ∷
        (⟦<BabyBearPoseidon2Suite as Calls>⟧.wants_room 1 4 len) ∷
        (⟦<GoldilocksPoseidon2Suite as Calls>⟧.wants_room 1 1 len) ∷
        []) };
}
