//! A protocol that is read once, for many proofs.
ghost use Rattle.std.specs.Prelude.{ℕ, List, IfOk, IfErr};
ghost use Rattle.p3_challenger.specs.SeparatorSeed.{held_of};
ghost use Rattle.tealmuze_calls.specs.{Errors.IsDueTo, Written.IsOfSuite};
ghost use Rattle.tealmuze_calls.specs.declared.prepared.Prepared.TheVariants as of;

use crate::by_suite::{CallsBySuite, Suites};
use crate::calls::Calls;
use crate::cursor::Cursor;
use crate::description::Protocol;
use crate::unanswered::Unanswered;
use p3_keccak::Keccak256Hasher;
use p3_symmetric::Sha256Hasher;
use std::alloc::Global;
use test_suites::{
    BabyBearPoseidon2Suite, GoldilocksPoseidon2Suite, HashSuite, Serializing32Suite,
    Serializing64Suite,
};

/// A protocol that a description has, of one of the suites.
#[derive(Drop)]
pub enum Prepared {
    /// A challenger of bytes with SHA-256, over BabyBear.
    BabyBearBytes(Protocol<HashSuite<Sha256Hasher>>),
    /// A challenger of elements over that.
    BabyBearElements(Protocol<Serializing32Suite>),
    /// A challenger of bytes with Keccak-256, over BabyBear.
    BabyBearBytesKeccak(Protocol<HashSuite<Keccak256Hasher>>),
    /// A challenger of elements over that.
    BabyBearElementsKeccak(Protocol<Serializing32Suite<Keccak256Hasher>>),
    /// A challenger of elements of Goldilocks, over bytes with SHA-256.
    GoldilocksElements(Protocol<Serializing64Suite>),
    /// The same over bytes with Keccak-256.
    GoldilocksElementsKeccak(Protocol<Serializing64Suite<Keccak256Hasher>>),
    /// A challenger over Poseidon2 of 16 cells of BabyBear.
    BabyBearPoseidon2(Protocol<BabyBearPoseidon2Suite>),
    /// A challenger over Poseidon2 of 8 cells of Goldilocks.
    GoldilocksPoseidon2(Protocol<GoldilocksPoseidon2Suite>),
}

/// What is described by bytes.
pub trait Described {
    // These bytes describe it.
    ghost describes: { Self → List ℕ → Type 0 };
}

impl Described for Prepared {
    ghost describes = { λ it description. elim it [
      | of.BabyBearBytes protocol ↦ IsOfSuite 0 (λ left. ⟦<HashSuite<Sha256Hasher> as Calls>⟧.describes 1 left
          (held_of protocol.separator) protocol.steps.items) description
      | of.BabyBearElements protocol ↦ IsOfSuite 1 (λ left. ⟦<Serializing32Suite as Calls>⟧.describes 1 left
          (held_of protocol.separator) protocol.steps.items) description
      | of.BabyBearBytesKeccak protocol ↦ IsOfSuite 2 (λ left. ⟦<HashSuite<Keccak256Hasher> as Calls>⟧.describes 1 left
          (held_of protocol.separator) protocol.steps.items) description
      | of.BabyBearElementsKeccak protocol ↦ IsOfSuite 3 (λ left. ⟦<Serializing32Suite<Keccak256Hasher> as Calls>⟧.describes 1 left
          (held_of protocol.separator) protocol.steps.items) description
      | of.GoldilocksElements protocol ↦ IsOfSuite 4 (λ left. ⟦<Serializing64Suite as Calls>⟧.describes 1 left
          (held_of protocol.separator) protocol.steps.items) description
      | of.GoldilocksElementsKeccak protocol ↦ IsOfSuite 5 (λ left. ⟦<Serializing64Suite<Keccak256Hasher> as Calls>⟧.describes 1 left
          (held_of protocol.separator) protocol.steps.items) description
      | of.BabyBearPoseidon2 protocol ↦ IsOfSuite 6 (λ left. ⟦<BabyBearPoseidon2Suite as Calls>⟧.describes 1 left
          (held_of protocol.separator) protocol.steps.items) description
      | of.GoldilocksPoseidon2 protocol ↦ IsOfSuite 7 (λ left. ⟦<GoldilocksPoseidon2Suite as Calls>⟧.describes 1 left
          (held_of protocol.separator) protocol.steps.items) description
    ] };
}

/// Reads a description: the protocol is of the suite that its first byte names. Labels are lent of the bytes.
///
/// The error is [`Unanswered::OutOfMemory`], or says why the bytes describe no protocol of a suite.
pub fn prepare(alloc: Global, description: &'static [u8]) -> Result<Prepared, Unanswered>
    ensures ok { IfOk result (λ protocol. ⟦<Prepared as Described>⟧.describes protocol description.now) }
    ensures err { IfErr result (IsDueTo (⟦<Suites as CallsBySuite>⟧.is_described description.now → ⊥)) }
{
    let mut from = Cursor::new(description);
    Ok(match from.byte()? {
        0 => Prepared::BabyBearBytes(Protocol::parse(alloc, from)?),
        1 => Prepared::BabyBearElements(Protocol::parse(alloc, from)?),
        2 => Prepared::BabyBearBytesKeccak(Protocol::parse(alloc, from)?),
        3 => Prepared::BabyBearElementsKeccak(Protocol::parse(alloc, from)?),
        4 => Prepared::GoldilocksElements(Protocol::parse(alloc, from)?),
        5 => Prepared::GoldilocksElementsKeccak(Protocol::parse(alloc, from)?),
        6 => Prepared::BabyBearPoseidon2(Protocol::parse(alloc, from)?),
        7 => Prepared::GoldilocksPoseidon2(Protocol::parse(alloc, from)?),
        suite => return Err(Unanswered::Suite(suite)),
    })
}
