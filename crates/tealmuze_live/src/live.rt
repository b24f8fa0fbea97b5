//! One side of a transcript, of one of the suites that a description can name.
ghost use Rattle.std.specs.Prelude.{◌≡◌, ◌⊎◌, ◌<◌, IfOk, IfErr};
ghost use Rattle.tealmuze_calls.specs.Written.{ByAnswer};
ghost use Rattle.tealmuze_calls.specs.declared.prepared.Prepared.TheVariants as read;
ghost use Rattle.tealmuze_calls.specs.declared.unanswered.Unanswered.TheVariants.{OutOfMemory};
ghost use Rattle.tealmuze_live.specs.{Alike.TellsOf, Lives.IsNotBegun, Starts.IsSideOf};
ghost use Rattle.tealmuze_live.specs.declared.live.Live.TheVariants as of;

use crate::side::{NotBegun, Side};
use crate::starts::Starts;
use crate::tells::Tells;
use p3_challenger::fs::script::Suite;
use p3_field::{BasedVectorSpace, PrimeCharacteristicRing};
use p3_keccak::Keccak256Hasher;
use p3_symmetric::Sha256Hasher;
use std::alloc::Global;
use std::mem;
use tealmuze_calls::{Answer, Called, Prepared, Unanswered};
use test_suites::{
    BabyBearPoseidon2Suite, GoldilocksPoseidon2Suite, HashSuite, Serializing32Suite,
    Serializing64Suite,
};

/// One side of a transcript, of one of the suites: in the order of [`Prepared`].
#[derive(Drop)]
pub enum Live {
    BabyBearBytes(Side<'static, HashSuite<Sha256Hasher>>),
    BabyBearElements(Side<'static, Serializing32Suite>),
    BabyBearBytesKeccak(Side<'static, HashSuite<Keccak256Hasher>>),
    BabyBearElementsKeccak(Side<'static, Serializing32Suite<Keccak256Hasher>>),
    GoldilocksElements(Side<'static, Serializing64Suite>),
    GoldilocksElementsKeccak(Side<'static, Serializing64Suite<Keccak256Hasher>>),
    BabyBearPoseidon2(Side<'static, BabyBearPoseidon2Suite>),
    GoldilocksPoseidon2(Side<'static, GoldilocksPoseidon2Suite>),
}

impl Tells for Live {
    ghost tells = { λ degree was request told is. elim was [
      | of.BabyBearBytes side ↦ TellsOf of.BabyBearBytes (⟦<Side<'static, HashSuite<Sha256Hasher>> as Tells>⟧.tells 1) side request told is
      | of.BabyBearElements side ↦ TellsOf of.BabyBearElements (⟦<Side<'static, Serializing32Suite> as Tells>⟧.tells 1) side request told is
      | of.BabyBearBytesKeccak side ↦ TellsOf of.BabyBearBytesKeccak (⟦<Side<'static, HashSuite<Keccak256Hasher>> as Tells>⟧.tells 1) side request told is
      | of.BabyBearElementsKeccak side ↦ TellsOf of.BabyBearElementsKeccak (⟦<Side<'static, Serializing32Suite<Keccak256Hasher>> as Tells>⟧.tells 1) side request told is
      | of.GoldilocksElements side ↦ TellsOf of.GoldilocksElements (⟦<Side<'static, Serializing64Suite> as Tells>⟧.tells 1) side request told is
      | of.GoldilocksElementsKeccak side ↦ TellsOf of.GoldilocksElementsKeccak (⟦<Side<'static, Serializing64Suite<Keccak256Hasher>> as Tells>⟧.tells 1) side request told is
      | of.BabyBearPoseidon2 side ↦ TellsOf of.BabyBearPoseidon2 (⟦<Side<'static, BabyBearPoseidon2Suite> as Tells>⟧.tells 1) side request told is
      | of.GoldilocksPoseidon2 side ↦ TellsOf of.GoldilocksPoseidon2 (⟦<Side<'static, GoldilocksPoseidon2Suite> as Tells>⟧.tells 1) side request told is
    ] };
}

impl Starts for Live {
    type Played = Prepared;

    ghost starts = { λ degree prepared proof live. elim prepared [
      | read.BabyBearBytes protocol ↦ IsSideOf of.BabyBearBytes (⟦<Side<'static, HashSuite<Sha256Hasher>> as Starts>⟧.starts 1 protocol proof) live
      | read.BabyBearElements protocol ↦ IsSideOf of.BabyBearElements (⟦<Side<'static, Serializing32Suite> as Starts>⟧.starts 1 protocol proof) live
      | read.BabyBearBytesKeccak protocol ↦ IsSideOf of.BabyBearBytesKeccak (⟦<Side<'static, HashSuite<Keccak256Hasher>> as Starts>⟧.starts 1 protocol proof) live
      | read.BabyBearElementsKeccak protocol ↦ IsSideOf of.BabyBearElementsKeccak (⟦<Side<'static, Serializing32Suite<Keccak256Hasher>> as Starts>⟧.starts 1 protocol proof) live
      | read.GoldilocksElements protocol ↦ IsSideOf of.GoldilocksElements (⟦<Side<'static, Serializing64Suite> as Starts>⟧.starts 1 protocol proof) live
      | read.GoldilocksElementsKeccak protocol ↦ IsSideOf of.GoldilocksElementsKeccak (⟦<Side<'static, Serializing64Suite<Keccak256Hasher>> as Starts>⟧.starts 1 protocol proof) live
      | read.BabyBearPoseidon2 protocol ↦ IsSideOf of.BabyBearPoseidon2 (⟦<Side<'static, BabyBearPoseidon2Suite> as Starts>⟧.starts 1 protocol proof) live
      | read.GoldilocksPoseidon2 protocol ↦ IsSideOf of.GoldilocksPoseidon2 (⟦<Side<'static, GoldilocksPoseidon2Suite> as Starts>⟧.starts 1 protocol proof) live
    ] };
}

impl Live {
    /// Returns a prover at the start of the protocol, of its suite.
    ///
    /// The errors are those of [`Side::prover`].
    pub fn prover(alloc: Global, prepared: &'static Prepared) -> Result<Live, NotBegun>
        ensures ok { IfOk result (⟦<Live as Starts>⟧.starts 1 prepared.now None) }
        ensures err { IfErr result (λ e. IsNotBegun e.found) }
    {
        Ok(match prepared {
            Prepared::BabyBearBytes(it) => Live::BabyBearBytes(Side::prover(alloc, it)?),
            Prepared::BabyBearElements(it) => Live::BabyBearElements(Side::prover(alloc, it)?),
            Prepared::BabyBearBytesKeccak(it) => {
                Live::BabyBearBytesKeccak(Side::prover(alloc, it)?)
            }
            Prepared::BabyBearElementsKeccak(it) => {
                Live::BabyBearElementsKeccak(Side::prover(alloc, it)?)
            }
            Prepared::GoldilocksElements(it) => Live::GoldilocksElements(Side::prover(alloc, it)?),
            Prepared::GoldilocksElementsKeccak(it) => {
                Live::GoldilocksElementsKeccak(Side::prover(alloc, it)?)
            }
            Prepared::BabyBearPoseidon2(it) => Live::BabyBearPoseidon2(Side::prover(alloc, it)?),
            Prepared::GoldilocksPoseidon2(it) => Live::GoldilocksPoseidon2(Side::prover(
                alloc, it,
            )?),
        })
    }

    /// Returns a verifier of the proof, which is copied, at the start of the protocol, of its suite.
    ///
    /// The errors are those of [`Side::prover`].
    pub fn verifier(
        alloc: Global,
        prepared: &'static Prepared,
        proof: &[u8],
    ) -> Result<Live, NotBegun>
        ensures ok { IfOk result (⟦<Live as Starts>⟧.starts 1 prepared.now (Some proof.now)) }
        ensures err { IfErr result (λ e. IsNotBegun e.found) }
    {
        Ok(match prepared {
            Prepared::BabyBearBytes(it) => Live::BabyBearBytes(Side::verifier(alloc, it, proof)?),
            Prepared::BabyBearElements(it) => {
                Live::BabyBearElements(Side::verifier(alloc, it, proof)?)
            }
            Prepared::BabyBearBytesKeccak(it) => {
                Live::BabyBearBytesKeccak(Side::verifier(alloc, it, proof)?)
            }
            Prepared::BabyBearElementsKeccak(it) => {
                Live::BabyBearElementsKeccak(Side::verifier(alloc, it, proof)?)
            }
            Prepared::GoldilocksElements(it) => {
                Live::GoldilocksElements(Side::verifier(alloc, it, proof)?)
            }
            Prepared::GoldilocksElementsKeccak(it) => {
                Live::GoldilocksElementsKeccak(Side::verifier(alloc, it, proof)?)
            }
            Prepared::BabyBearPoseidon2(it) => {
                Live::BabyBearPoseidon2(Side::verifier(alloc, it, proof)?)
            }
            Prepared::GoldilocksPoseidon2(it) => {
                Live::GoldilocksPoseidon2(Side::verifier(alloc, it, proof)?)
            }
        })
    }

    /// Plays the step that is asked for, or ends where the request has no bytes.
    pub fn step(&mut self, alloc: Global, request: &[u8], room: usize) -> Result<Answer, Unanswered>
        ensures ok { IfOk result (ByAnswer
            (λ told. ⟦<Live as Tells>⟧.tells 1 self.old request.now told self.new)
            (λ wanted. (room < wanted) × (self.new ≡ self.old))) }
        ensures err { IfErr result (λ e. (self.new ≡ self.old) ⊎ (e ≡ OutOfMemory)) }
    {
        match self {
            Live::BabyBearBytes(side) => step(side, alloc, request, room),
            Live::BabyBearElements(side) => step(side, alloc, request, room),
            Live::BabyBearBytesKeccak(side) => step(side, alloc, request, room),
            Live::BabyBearElementsKeccak(side) => step(side, alloc, request, room),
            Live::GoldilocksElements(side) => step(side, alloc, request, room),
            Live::GoldilocksElementsKeccak(side) => step(side, alloc, request, room),
            Live::BabyBearPoseidon2(side) => step(side, alloc, request, room),
            Live::GoldilocksPoseidon2(side) => step(side, alloc, request, room),
        }
    }
}

// Goes on with the side that a step leaves.
fn step<'a, S: Called>(
    side: &mut Side<'a, S>,
    alloc: Global,
    request: &[u8],
    room: usize,
) -> Result<Answer, Unanswered>
    ensures ok { IfOk result (ByAnswer
        (λ told. ⟦<Side<'a, S> as Tells>⟧.tells S.Field.DIMENSION side.old request.now told side.new)
        (λ wanted. (room < wanted) × (side.new ≡ side.old))) }
    ensures err { IfErr result (λ e. (side.new ≡ side.old) ⊎ (e ≡ OutOfMemory)) }
{
    let (is, answer) = mem::replace(side, Side::Ended).step(alloc, request, room);
    mem::replace(side, is).abort();
    answer
}
