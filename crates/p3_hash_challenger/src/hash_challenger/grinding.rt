//! Proof of work on bytes: candidates are hashed in batches where one digest is enough to test a candidate.
use super::witness_search::least_in_batches;
use crate::HashChallenger;
use p3_challenger_core::ChallengerError;
use p3_grinding::{ByteCandidates, ByteGrindingChallenger, CanCopy, find_witness_plainly};
use p3_symmetric::CryptographicHasher;

impl<T: Copy, H: CryptographicHasher<T, [T; OUT_LEN]>, const OUT_LEN: usize> CanCopy
    for HashChallenger<T, H, OUT_LEN> {
    ghost copies_may_fail = { Unit {0} };

    fn copy(&self) -> Result<Self, ChallengerError> {
        self.clone()
    }

    fn copy_from(&mut self, other: &Self) -> Result<(), ChallengerError> {
        if other.digest.is_none() {
            self.input_buffer.clear();
            self.input_buffer
                .extend_from_slice(other.input_buffer.as_slice())?;
        }
        self.digest = other.digest;
        self.outputs_left = other.outputs_left;
        self.hasher = other.hasher;
        Ok(())
    }
}

impl<
    H: CryptographicHasher<u8, [u8; OUT_LEN]>,
    const OUT_LEN: usize,
    const W: usize,
    const S: usize,
> ByteGrindingChallenger<W, S> for HashChallenger<u8, H, OUT_LEN> {
    ghost use Rattle.p3_challenger_core.specs.SymbolLaws.{one_symbol_each};

    fn find_witness<K: ByteCandidates<W, S>>(
        &self,
        num_candidates: u64,
        candidates: &K,
    ) -> Result<Option<u64>, ChallengerError> {
        // A candidate of no bytes flushes nothing, and more bytes than a digest has take another hash.
        if W == 0 || S > OUT_LEN {
            return find_witness_plainly(self, num_candidates, candidates);
        }
        least_in_batches(self, num_candidates, candidates)
    }

    ghost bytes_prefix_free = { λ x y a b _ _ same. one_symbol_each x y a b same };
}
