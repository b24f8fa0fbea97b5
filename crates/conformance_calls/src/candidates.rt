// Candidates that are tried on a challenger of bytes.
use anyhow::{Result, bail};
use conformance_tokens::tokens::parse_row;
use p3_grinding::{ByteCandidates, ByteGrindingChallenger};
use p3_hash_challenger::HashChallenger;
use p3_symmetric::CryptographicHasher;
use std::alloc::Global;

/// A search for the least candidate that passes.
#[derive(Clone, Copy)]
pub struct Search {
    // How many bytes a candidate is encoded as: the low ones of its number, the lowest first.
    encoded: u64,
    // How many bytes are drawn after a candidate.
    drawn: u64,
    // How many candidates are tried.
    count: u64,
    // A candidate passes where the first of the drawn bytes, masked by this one ..
    mask: u8,
    // .. is this one.
    value: u8,
}

impl Search {
    /// Reads `W S n mask value`: the bytes of a candidate, the drawn bytes, how many candidates, the mask and what
    /// is to be left.
    pub fn parse(alloc: Global, words: &str) -> Result<Search> {
        match parse_row(alloc, words)?.as_slice() {
            [encoded, drawn, count, mask, value] => {
                let (mask, value) = (u8::try_from(*mask)?, u8::try_from(*value)?);
                Ok(Search {
                    encoded: *encoded,
                    drawn: *drawn,
                    count: *count,
                    mask,
                    value,
                })
            }
            _ => bail!("no search"),
        }
    }
}

/// The least candidate that passes, or `none`.
pub fn least_candidate<H: CryptographicHasher<u8, [u8; 32]>>(
    alloc: Global,
    challenger: &HashChallenger<u8, H, 32>,
    search: Search,
) -> Result<String> {
    match (search.encoded, search.drawn) {
        (0, 1) => find_on_hash::<H, Listed, 0, 1>(alloc, challenger, Listed, search),
        (0, 33) => find_on_hash::<H, Listed, 0, 33>(alloc, challenger, Listed, search),
        (1, 1) => find_on_hash::<H, Listed, 1, 1>(alloc, challenger, Listed, search),
        (1, 32) => find_on_hash::<H, Listed, 1, 32>(alloc, challenger, Listed, search),
        (1, 33) => find_on_hash::<H, Listed, 1, 33>(alloc, challenger, Listed, search),
        (4, 4) => find_on_hash::<H, Listed, 4, 4>(alloc, challenger, Listed, search),
        (8, 8) => find_on_hash::<H, Listed, 8, 8>(alloc, challenger, Listed, search),
        _ => bail!("other counts of bytes"),
    }
}

fn find_on_hash<
    H: CryptographicHasher<u8, [u8; 32]>,
    K: Counts<W, S>,
    const W: usize,
    const S: usize,
>(
    alloc: Global,
    challenger: &HashChallenger<u8, H, 32>,
    counts: K,
    search: Search,
) -> Result<String> {
    find::<K, _, W, S>(alloc, challenger, counts, search)
}

fn find<K: Counts<W, S>, C: ByteGrindingChallenger<W, S>, const W: usize, const S: usize>(
    alloc: Global,
    challenger: &C,
    counts: K,
    search: Search,
) -> Result<String> {
    let candidates = LowBytes {
        counts,
        mask: search.mask,
        value: search.value,
    };
    match challenger.find_witness(search.count, &candidates)? {
        Some(candidate) => Ok(candidate.to_string(alloc)?),
        None => Ok(String::from_str(alloc, "none")?),
    }
}

// The candidates of a search.
#[derive(Drop)]
struct LowBytes<K> {
    counts: K,
    mask: u8,
    value: u8,
}

// How many bytes a candidate is encoded as, and how many are drawn after one.
trait Counts<const W: usize, const S: usize>: Copy {
    ghost use Rattle.std.specs.Prelude.{◌<◌, ◌≤◌, ◌^◌};

    ghost encoded_short: { W ≤ 8 };

    ghost encoded_fit: { W < 2 ^ 63 };

    ghost some_drawn: { 0 < S };

    ghost drawn_fit: { S < 2 ^ 63 };
}

// The counts that the files have.
#[derive(Clone, Copy)]
struct Listed;

impl<K: Counts<W, S>, const W: usize, const S: usize> ByteCandidates<W, S> for LowBytes<K> {
    ghost use Rattle.std.specs.{Prelude.{take, nat_eq, bit_and, slice_index}, Int.{to_le_bytes, w64}};

    ghost encoded = { λ _ candidate. take W (to_le_bytes w64 candidate) };

    ghost accepted = { λ c drawn. nat_eq (bit_and (slice_index drawn 0) c.mask) c.value };

    ghost encoded_fit = { K.encoded_fit };

    ghost drawn_fit = { K.drawn_fit };

    fn encode(&self, candidate: u64) -> [u8; W] {
        let mut bytes = [0; W];
        bytes.copy_from_slice(&candidate.to_le_bytes()[..W]);
        bytes
    }

    fn accepts(&self, drawn: &[u8; S]) -> bool {
        drawn[0] & self.mask == self.value
    }
}

impl Counts<0, 1> for Listed {
    ghost use Rattle.std.proofs.Common.{lit<, lit≤};

    ghost encoded_short = { lit≤ tt };

    ghost encoded_fit = { lit< tt };

    ghost some_drawn = { lit< tt };

    ghost drawn_fit = { lit< tt };
}

impl Counts<0, 33> for Listed {
    ghost use Rattle.std.proofs.Common.{lit<, lit≤};

    ghost encoded_short = { lit≤ tt };

    ghost encoded_fit = { lit< tt };

    ghost some_drawn = { lit< tt };

    ghost drawn_fit = { lit< tt };
}

impl Counts<1, 1> for Listed {
    ghost use Rattle.std.proofs.Common.{lit<, lit≤};

    ghost encoded_short = { lit≤ tt };

    ghost encoded_fit = { lit< tt };

    ghost some_drawn = { lit< tt };

    ghost drawn_fit = { lit< tt };
}

impl Counts<1, 32> for Listed {
    ghost use Rattle.std.proofs.Common.{lit<, lit≤};

    ghost encoded_short = { lit≤ tt };

    ghost encoded_fit = { lit< tt };

    ghost some_drawn = { lit< tt };

    ghost drawn_fit = { lit< tt };
}

impl Counts<1, 33> for Listed {
    ghost use Rattle.std.proofs.Common.{lit<, lit≤};

    ghost encoded_short = { lit≤ tt };

    ghost encoded_fit = { lit< tt };

    ghost some_drawn = { lit< tt };

    ghost drawn_fit = { lit< tt };
}

impl Counts<4, 4> for Listed {
    ghost use Rattle.std.proofs.Common.{lit<, lit≤};

    ghost encoded_short = { lit≤ tt };

    ghost encoded_fit = { lit< tt };

    ghost some_drawn = { lit< tt };

    ghost drawn_fit = { lit< tt };
}

impl Counts<8, 8> for Listed {
    ghost use Rattle.std.proofs.Common.{lit<, lit≤};

    ghost encoded_short = { lit≤ tt };

    ghost encoded_fit = { lit< tt };

    ghost some_drawn = { lit< tt };

    ghost drawn_fit = { lit< tt };
}
