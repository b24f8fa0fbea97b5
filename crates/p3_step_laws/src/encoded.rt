//! What a verifier's step reads from a proof is encoded as the prover's step writes it. The steps are `next_..` and
//! `add_..`, or `check_pow` and `pow`.
//!
//! By the laws of mirrors, what is written is read. These laws are the converse: bytes from which a step reads a value
//! begin with the one encoding of that value. So a proof that is read to its end is what a prover writes for the values
//! that were read.
ghost use Rattle.std.specs.Prelude.{◌≡◌, ◌≤◌, ℕ, List, length};
ghost use Rattle.p3_fs_core.specs.Steps.{Step};
ghost use Rattle.p3_driver_core.specs.Meanings.{sent_bytes_bounded, hinted_bounded, sent_bounded, sent_bytes};
ghost use Rattle.p3_driver_core.specs.{Meanings.{sent_list, hinted, sent}, Working.sent_work};
ghost use Rattle.p3_driver_core.specs.Reads.{received_bytes_bounded, hint_received_bounded, received_bounded};
ghost use Rattle.p3_driver_core.specs.Reads.{received_bytes, received_work, received_list, hint_received, received};
ghost use Rattle.p3_step_laws.specs.{ReadBack.{OnlyReads, AnyValue}, Mirrored.EachWork};

use p3_challenger_core::{CanObserve, Sponge};
use p3_codecs::{AlphabetOf, Codec, Unit};
use p3_fs_core::Kind;
use p3_grinding::GrindingChallenger;

/// If a verifier's step reads one value, the bytes begin with its encoding. If it reads a list of `n` values, the list
/// has length `n`, and the bytes begin with the encodings of its values in order. If it reads a list after its count,
/// the list is within its maximum, and the bytes begin with its count and these encodings.
///
/// A law: the body is empty, and a caller cites the clauses.
pub fn read_values_are_encoded<A, U: Unit, C: CanObserve<U::Item>, Cdc: Codec<C, A>>()
    ensures value { (step : Step) → OnlyReads (received step Cdc.observation Cdc.encoding) AnyValue
        (sent step Cdc.observation Cdc.encoding) }
    ensures list { (step : Step) (n : ℕ) → OnlyReads (received_list step Cdc.observation
        Cdc.encoding n) (λ xs. length xs ≡ n) (sent_list step Cdc.observation Cdc.encoding) }
    ensures counted { let alphabet = ⟦<U as AlphabetOf<C>>⟧.alphabet in (step : Step) (max : ℕ) →
        OnlyReads (received_bounded step alphabet max Cdc.observation Cdc.encoding)
        (λ xs. length xs ≤ max) (sent_bounded step alphabet max Cdc.observation Cdc.encoding) }
{}

/// If a verifier's step reads `n` bytes, the proof begins with them. If it reads bytes after their count, they are
/// within their maximum, and the proof begins with their count and them.
///
/// A law: the body is empty, and a caller cites the clauses.
pub fn read_bytes_are_encoded<U: Unit, C: CanObserve<U::Item>>()
    ensures fixed { let alphabet = ⟦<U as AlphabetOf<C>>⟧.alphabet in
        (kind : Kind) (label : List ℕ) (n : ℕ) → OnlyReads (received_bytes kind label alphabet n)
        (λ bytes. length bytes ≡ n) (sent_bytes kind label alphabet) }
    ensures counted { let alphabet = ⟦<U as AlphabetOf<C>>⟧.alphabet in
        (label : List ℕ) (max : ℕ) → OnlyReads (received_bytes_bounded label alphabet max)
        (λ bytes. length bytes ≤ max) (sent_bytes_bounded Kind.Message label alphabet max) }
{}

/// If a verifier's step reads a hint, the proof begins with it, after its count if it has one.
///
/// A law: the body is empty, and a caller cites the clauses.
pub fn read_hints_are_encoded<C: Sponge>()
    ensures fixed { (label : List ℕ) (n : ℕ) → OnlyReads {S = C.State} {Symbol = C.Symbol}
        (hint_received label n) (λ bytes. length bytes ≡ n) (hinted label) }
    ensures counted { (label : List ℕ) (max : ℕ) → OnlyReads {S = C.State} {Symbol = C.Symbol}
        (hint_received_bounded label max) (λ bytes. length bytes ≤ max) (hinted_bounded label max) }
{}

/// If a verifier's step reads a witness, the bytes begin with its encoding, whether or not it then passes.
///
/// A law: the body is empty, and a caller cites the clause.
pub fn read_work_is_encoded<C: GrindingChallenger>()
    ensures { EachWork (λ work wire.
        OnlyReads (received_work work wire) AnyValue (sent_work work wire))
        C.Witness.residues C.Witness.bit_length C.before_witness C.observation C.bits_sampling }
{}
