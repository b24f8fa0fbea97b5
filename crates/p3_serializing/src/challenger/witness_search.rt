//! The search for the least witness, by the inner challenger's search for candidates of bytes.
ghost use Rattle.std.specs.Prelude.{◌≡◌, ◌<◌, ◌%◌, ◌^◌};

use crate::{SerializedIn, SerializingChallenger};
use p3_challenger_core::{CanSampleBits, ChallengerError};
use p3_grinding::{ByteCandidates, ByteGrindingChallenger, ReadySearch};
use std::marker::PhantomData;

// The elements of a field as candidates. One passes where so many low bits of the group drawn after it are 0.
#[derive(Drop)]
struct LowBitsZero<F, const BYTES: usize> {
    bits: usize,
    ghost short: { bits < 64 },
    field: PhantomData<F>,
}

impl<F: SerializedIn<BYTES>, const BYTES: usize> ByteCandidates<BYTES, BYTES>
    for LowBitsZero<F, BYTES> {
    ghost use Rattle.p3_serializing.specs.{BytesLaws.bytes_fit, SerializingGrinding.{witness_bytes, low_bits_zero}};

    ghost encoded = { λ _ n. witness_bytes F.residues BYTES n };

    ghost accepted = { λ candidates bytes. low_bits_zero candidates.bits bytes };

    ghost encoded_fit = { bytes_fit BYTES F.at_most_8 };

    ghost drawn_fit = { bytes_fit BYTES F.at_most_8 };

    fn encode(&self, candidate: u64) -> [u8; BYTES] {
        F::from_u64(candidate).to_unique_bytes()
    }

    fn accepts(&self, drawn: &[u8; BYTES]) -> bool {
        low_bits(F::number_of_bytes(drawn), self.bits) == 0
    }
}

impl<
    F: SerializedIn<BYTES>,
    Inner: ByteGrindingChallenger<BYTES, BYTES>,
    const BYTES: usize,
> ReadySearch<F> for SerializingChallenger<F, Inner, BYTES> {
    fn least_when_ready(&mut self, bits: usize) -> Result<F, ChallengerError> {
        let candidates = LowBitsZero::<F, BYTES> {
            bits,
            field: PhantomData,
        };
        match self.inner.find_witness(F::ORDER_U64, &candidates)? {
            Some(candidate) => {
                let witness = F::from_canonical(candidate);
                self.feed_element(witness)?;
                self.sample_bits(bits)?;
                Ok(witness)
            }
            None => Err(ChallengerError::NoWitness),
        }
    }
}

// The low bits of a word.
fn low_bits(word: u64, bits: usize) -> u64
    requires { bits < 64 }
    ensures { result ≡ word % 2 ^ bits }
{
    word & ((1 << bits) - 1)
}
