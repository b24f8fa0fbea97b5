// What becomes of a proof between the prover and the verifier.
use anyhow::{Result, bail};
use conformance_tokens::tokens::split_first;
use std::alloc::Global;

/// A change of a proof.
#[derive(Drop)]
pub enum Change {
    /// None.
    Nothing,
    /// `narg HEX`: these bytes stand in its place.
    Whole(Vec<u8>),
    /// `flip INDEX MASK`: the bits of the mask turn over, in the byte at this index modulo the number of bytes.
    Flip(usize, u8),
    /// `cut N`: so many bytes fewer at the end.
    Cut(usize),
    /// `more HEX`: these bytes more at the end.
    More(Vec<u8>),
}

impl Change {
    /// Reads a change.
    pub fn parse(alloc: Global, name: &str, tokens: &str) -> Result<Change> {
        match name {
            "flip" => {
                let (index, mask) = split_first(tokens)?;
                Ok(Change::Flip(index.parse()?, mask.parse()?))
            }
            "narg" => Ok(Change::Whole(hex::decode(alloc, tokens)?)),
            "cut" => Ok(Change::Cut(tokens.parse()?)),
            "more" => Ok(Change::More(hex::decode(alloc, tokens)?)),
            _ => bail!("an unknown change"),
        }
    }

    /// Changes the proof.
    pub fn apply(&self, proof: &mut Vec<u8>) -> Result<()> {
        match self {
            Change::Nothing => {}
            Change::Whole(bytes) => {
                proof.clear();
                proof.extend_from_slice(bytes.as_slice())?;
            }
            Change::Flip(_, _) if proof.is_empty() => {}
            Change::Flip(index, mask) => {
                let place = *index % proof.len();
                proof[place] ^= *mask;
            }
            Change::Cut(count) => {
                let left = proof.len().saturating_sub(*count);
                proof.truncate(left);
            }
            Change::More(bytes) => proof.extend_from_slice(bytes.as_slice())?,
        }
        Ok(())
    }
}
