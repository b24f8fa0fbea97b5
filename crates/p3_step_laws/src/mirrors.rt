//! A verifier's step reads what the prover's step writes: `next_..` mirrors `add_..`, and `check_pow` mirrors `pow`.
//!
//! Each law is a function with an empty body: a caller calls it, and cites its clauses. `mirrors` says what is written
//! and read. `follows` is what a caller needs of the two calls. Its premises are that the prover's step was played, and
//! that the verifier is at the state before it with the step's bytes next. Then the verifier's step reads the prover's
//! value, leaves the bytes after it, and ends at the prover's state. Otherwise the verifier's challenger or memory
//! refuses the step.
ghost use Rattle.p3_driver_core.specs.{Working.sent_work, Reads.received_work};
ghost use Rattle.p3_step_laws.specs.{Completeness.{Completes, CompletesWork}, ReadBack.ReadsBack};
ghost use Rattle.p3_step_laws.specs.Mirrored.{EachValue, EachList, EachCountedList, EachBytes, EachCountedBytes};
ghost use Rattle.p3_step_laws.specs.Mirrored.{EachHint, EachCountedHint, EachWork};

use p3_challenger_core::{CanObserve, Sponge};
use p3_codecs::{AlphabetOf, Codec, Unit};
use p3_fs_core::Kind;
use p3_grinding::GrindingChallenger;

/// A verifier reads the value that a prover writes, whatever follows it in the proof, and leaves the bytes after it.
/// Both steps have the same effect on the challenger. So the verifier follows the prover.
///
/// A law: the body is empty, and a caller cites the clauses.
pub fn sent_value_is_received<A, C: Sponge, Cdc: Codec<C, A>>()
    ensures read_back { EachValue ReadsBack Cdc.observation Cdc.encoding }
    ensures complete { EachValue Completes Cdc.observation Cdc.encoding }
{}

/// A verifier that reads `n` values reads a list of `n` values that a prover writes, and follows the prover.
///
/// A law: the body is empty, and a caller cites the clauses.
pub fn sent_values_are_received<A, C: Sponge, Cdc: Codec<C, A>>()
    ensures read_back { EachList ReadsBack Cdc.observation Cdc.encoding }
    ensures complete { EachList Completes Cdc.observation Cdc.encoding }
{}

/// A verifier reads a bounded list that a prover writes after its count, and follows the prover.
///
/// A law: the body is empty, and a caller cites the clauses. The maximum is below 2^64, as for a `usize`.
pub fn sent_counted_values_are_received<A, U: Unit, C: CanObserve<U::Item>, Cdc: Codec<C, A>>()
    ensures read_back { EachCountedList ReadsBack ⟦<U as AlphabetOf<C>>⟧.alphabet
        Cdc.observation Cdc.encoding }
    ensures complete { EachCountedList Completes ⟦<U as AlphabetOf<C>>⟧.alphabet
        Cdc.observation Cdc.encoding }
{}

/// A verifier that reads `n` bytes reads the `n` bytes that a prover writes, and follows the prover.
///
/// A law: the body is empty, and a caller cites the clauses.
pub fn sent_bytes_are_received<U: Unit, C: CanObserve<U::Item>>()
    ensures read_back { EachBytes ReadsBack ⟦<U as AlphabetOf<C>>⟧.alphabet }
    ensures complete { EachBytes Completes ⟦<U as AlphabetOf<C>>⟧.alphabet }
{}

/// A verifier reads the bounded bytes that a prover writes after their count, and follows the prover.
///
/// A law: the body is empty, and a caller cites the clauses. The maximum is below 2^64, as for a `usize`.
pub fn sent_counted_bytes_are_received<U: Unit, C: CanObserve<U::Item>>()
    ensures read_back { EachCountedBytes ReadsBack ⟦<U as AlphabetOf<C>>⟧.alphabet }
    ensures complete { EachCountedBytes Completes ⟦<U as AlphabetOf<C>>⟧.alphabet }
{}

/// A verifier that reads a hint of `n` bytes reads the `n` bytes that a prover writes, and follows the prover.
///
/// A law: the body is empty, and a caller cites the clauses.
pub fn hint_is_received<C: Sponge>()
    ensures read_back { EachHint {S = C.State} {Symbol = C.Symbol} ReadsBack }
    ensures complete { EachHint {S = C.State} {Symbol = C.Symbol} Completes }
{}

/// A verifier reads the bounded hint that a prover writes after its count, and follows the prover.
///
/// A law: the body is empty, and a caller cites the clauses. The maximum is below 2^64, as for a `usize`.
pub fn counted_hint_is_received<C: Sponge>()
    ensures read_back { EachCountedHint {S = C.State} {Symbol = C.Symbol} ReadsBack }
    ensures complete { EachCountedHint {S = C.State} {Symbol = C.Symbol} Completes }
{}

/// A verifier reads the witness that a prover writes, and follows the prover. The witness passes the verifier's check,
/// which is refused only when out of memory.
///
/// A law: the body is empty, and a caller cites the clauses.
pub fn sent_work_is_received<C: GrindingChallenger>()
    ensures read_back { EachWork (λ work wire. (x : C.Witness) →
        ReadsBack (sent_work work wire x) (received_work work wire) x)
        C.Witness.residues C.Witness.bit_length C.before_witness C.observation C.bits_sampling }
    ensures complete { EachWork (λ work wire. (x : C.Witness) → CompletesWork work wire x)
        C.Witness.residues C.Witness.bit_length C.before_witness C.observation C.bits_sampling }
{}
