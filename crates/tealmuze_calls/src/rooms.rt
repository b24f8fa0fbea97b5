//! The room that is wanted suffices.
ghost use Rattle.std.specs.Prelude.{ℕ, List, length};
ghost use Rattle.tealmuze_calls.specs.Sufficing.{RoomSuffices};

use crate::by_suite::{CallsBySuite, Suites};
use crate::calls::Calls;
use crate::suites::Called;
use p3_challenger::fs::script::Suite;
use p3_field::BasedVectorSpace;
use p3_keccak::Keccak256Hasher;
use p3_symmetric::Sha256Hasher;
use test_suites::{
    BabyBearPoseidon2Suite, GoldilocksPoseidon2Suite, HashSuite, Serializing32Suite,
    Serializing64Suite,
};

/// Where a caller of either function gives as many bytes as are wanted, the call tells an answer, and that fits in.
pub fn wanted_room_suffices()
    ensures verify { (description proof carried : List ℕ) → RoomSuffices
        (⟦<Suites as CallsBySuite>⟧.tells_of_proof proof carried description)
        (⟦<Suites as CallsBySuite>⟧.asks_of_proof description carried)
        (⟦<Suites as CallsBySuite>⟧.wants_room (length proof) description) }
    ensures prove { (description values : List ℕ) → RoomSuffices
        (⟦<Suites as CallsBySuite>⟧.tells_of_values values description)
        (⟦<Suites as CallsBySuite>⟧.asks_of_values description values)
        (⟦<Suites as CallsBySuite>⟧.wants_room (length values) description) }
{
    room_of_suite_suffices::<HashSuite<Sha256Hasher>>();
    room_of_suite_suffices::<Serializing32Suite>();
    room_of_suite_suffices::<HashSuite<Keccak256Hasher>>();
    room_of_suite_suffices::<Serializing32Suite<Keccak256Hasher>>();
    room_of_suite_suffices::<Serializing64Suite>();
    room_of_suite_suffices::<Serializing64Suite<Keccak256Hasher>>();
    room_of_suite_suffices::<BabyBearPoseidon2Suite>();
    room_of_suite_suffices::<GoldilocksPoseidon2Suite>();
}

// The same of the protocols that a suite plays.
fn room_of_suite_suffices<S: Called>()
    ensures verify { (description proof carried : List ℕ) → RoomSuffices
        (⟦<S as Calls>⟧.tells_of_proof S.Field.DIMENSION proof carried description)
        (⟦<S as Calls>⟧.asks_of_proof S.Field.DIMENSION description carried)
        (⟦<S as Calls>⟧.wants_room S.Field.DIMENSION S.Extension.DIMENSION (length proof) description) }
    ensures prove { (description values : List ℕ) → RoomSuffices
        (⟦<S as Calls>⟧.tells_of_values S.Field.DIMENSION values description)
        (⟦<S as Calls>⟧.asks_of_values S.Field.DIMENSION description values)
        (⟦<S as Calls>⟧.wants_room S.Field.DIMENSION S.Extension.DIMENSION (length values) description) }
{}
