//! A prime field in a transcript: the encoding of its elements, and the observation of a seed.
ghost use Rattle.std.specs.Prelude.{◌≡◌, ℕ, ◌<◌, ◌≤◌, List, ◌++◌, length, take, drop, flat_map, Ok, OnOk, OnErr, IfOk};
ghost use Rattle.std.specs.Prelude.{IfErr};
ghost use Rattle.p3_challenger_core.specs.{Observation.{observed_all, LeavesInCalls}, Sponge.IsFed};
ghost use Rattle.p3_challenger_core.specs.Reading.{IsPrefixCode};
ghost use Rattle.p3_fs_core.specs.{Alphabet.RefusesBytes, Packing.packed_elements, Encoding.IsEncoding, Errors.Decodes};
ghost use Rattle.p3_fs_core.specs.{Scalar.encoding, ScalarLaws.is_encoding};

use crate::big_endian::number_of_bytes;
use crate::packing::observe_packed;
use crate::{TranscriptError, TypeTag};
use p3_challenger_core::{CanObserve, ChallengerError};
use p3_field_core::PrimeField64;

/// A field whose elements stand in a transcript. Each element has one encoding in the proof: its canonical number,
/// highest byte first, in as few bytes as the order needs.
///
/// Every [`PrimeField64`] implements this trait, and no other type can. The Rust crate's `TranscriptField` is open to
/// other fields too.
pub trait TranscriptField: PrimeField64 {
    /// Returns the tag of an algebra over this field, of this degree and with this digest of its identity.
    final fn algebra_tag(degree: usize, basis: [u8; 32]) -> TypeTag
        ensures { result ≡ TypeTag.Algebra Self.residues.order degree basis }
    {
        TypeTag::Algebra {
            modulus: Self::ORDER_U64,
            degree,
            basis,
        }
    }

    /// Observes a byte string as the alphabet `FieldUnit` does: its length, followed by its chunks. The field has
    /// more than 256 elements.
    ///
    /// The errors are [`ChallengerError::TooLong`] where the length is not below the order, with nothing absorbed,
    /// and [`ChallengerError::OutOfMemory`]. The latter leaves a prefix of the elements observed, plus what the
    /// refused observation leaves. The Rust crate panics where the string is too long.
    final fn observe_seed<C: CanObserve<Self>>(
        challenger: &mut C,
        bytes: &[u8],
    ) -> Result<(), ChallengerError>
        requires { 256 < Self.residues.order }
        ensures ok { OnOk result ((Self.residues.order ≤ length bytes.now → ⊥)
            × (C.state challenger.new ≡ observed_all C.observation.observed (C.state challenger.old)
            (packed_elements Self.residues Self.bit_length bytes.now))) }
        ensures err { IfErr result (λ e. RefusesBytes (Self.residues.order ≤ length bytes.now)
            (LeavesInCalls C.observation.observed C.observation.may_leave (C.state challenger.old)
            (packed_elements Self.residues Self.bit_length bytes.now))
            (C.state challenger.old) e (C.state challenger.new)) }
        // What is observed is what the elements feed; exactly so, where the challenger feeds them as a prefix code.
        ensures fed { OnOk result
            (IsFed C.fed (C.state challenger.old) (flat_map C.observation.symbols
            (packed_elements Self.residues Self.bit_length bytes.now)) (C.state challenger.new)) }
        ensures fed_exactly { IsPrefixCode C.observation.symbols → OnOk result
            (C.state challenger.new ≡ C.fed (C.state challenger.old) (flat_map C.observation.symbols
            (packed_elements Self.residues Self.bit_length bytes.now))) }
    {
        if bytes.len() as u64 >= Self::ORDER_U64 {
            return Err(ChallengerError::TooLong);
        }
        observe_packed(challenger, bytes)
    }

    /// Returns the number of bytes of an element in the proof: at most 8, and as few as the order needs.
    final fn wire_len() -> usize
        ensures width { result ≡ (encoding Self.residues Self.bit_length).width }
        ensures most { result ≤ 8 }
    {
        Self::bits().div_ceil(8)
    }

    /// Appends the encoding of an element to `out`.
    ///
    /// The one error is [`TranscriptError::OutOfMemory`], which leaves a prefix of the encoding appended. In the Rust
    /// crate this function returns no error.
    final fn encode(value: &Self, out: &mut Vec<u8>) -> Result<(), TranscriptError>
        ensures ok { OnOk result (out.new.items
            ≡ out.old.items ++ (encoding Self.residues Self.bit_length).wire value.now) }
        ensures err { IfErr result (λ e. e ≡ TranscriptError.OutOfMemory) }
        ensures left { OnErr result ((n : ℕ) × (out.new.items
            ≡ out.old.items ++ take n ((encoding Self.residues Self.bit_length).wire value.now))) }
    {
        let number = value.as_canonical_u64().to_be_bytes();
        out.extend_from_slice(&number[8 - Self::wire_len()..])?;
        Ok(())
    }

    /// Returns the element whose encoding stands at the head of `bytes`, in the first
    /// [`wire_len`](TranscriptField::wire_len) bytes.
    ///
    /// The one error is [`TranscriptError::BadProofShape`]. Its reason is `not enough bytes for a canonical field
    /// encoding` where there are fewer bytes. It is `field encoding outside canonical range` where their number is
    /// not below the order. This call takes no memory.
    final fn decode(bytes: &[u8]) -> Result<Self, TranscriptError>
        ensures exact { Decodes ((encoding Self.residues Self.bit_length).read bytes.now) result }
        ensures found { IfOk result (λ x. bytes.now ≡ (encoding Self.residues Self.bit_length).wire
            x ++ drop (encoding Self.residues Self.bit_length).width bytes.now) }
        ensures only { (x : Self) (rest : List ℕ) →
            bytes.now ≡ (encoding Self.residues Self.bit_length).wire x ++ rest → result ≡ Ok x }
    {
        let width = Self::wire_len();
        if bytes.len() < width {
            return Err(TranscriptError::BadProofShape {
                reason: "not enough bytes for a canonical field encoding",
            });
        }
        let number = number_of_bytes(&bytes[..width]);
        let Some(value) = Self::from_canonical_checked(number) else {
            return Err(TranscriptError::BadProofShape {
                reason: "field encoding outside canonical range",
            });
        };
        Ok(value)
    }

    // Elements are encoded, as a prefix code.
    ghost encodes: { IsEncoding (encoding Self.residues Self.bit_length) };
}

impl<F: PrimeField64> TranscriptField for F {
    ghost encodes = { is_encoding F.residues F.are_residues F.bit_length F.bits_below };
}
