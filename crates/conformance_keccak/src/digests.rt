// Digests against those of a file.
use anyhow::{Context, Result, ensure};
use p3_symmetric::DigestHasher;
use std::alloc::Global;

// A line of the file: how long its message is, what makes it, and its digest in hexadecimal digits.
#[derive(Clone, Copy)]
struct Row<'a> {
    length: usize,
    seed: u32,
    digest: &'a str,
}

impl<'a> Row<'a> {
    fn parse(text: &'a str) -> Result<Row<'a>> {
        let (length, rest) = text.split_once(' ').context("no seed")?;
        let (seed, digest) = rest.split_once(' ').context("no digest")?;
        Ok(Row {
            length: length.parse()?,
            seed: seed.parse()?,
            digest,
        })
    }

    // The message, by the rule that the head of the file states.
    fn message(&self, alloc: Global) -> Result<Vec<u8>> {
        let mut state = self.seed;
        let mut message = Vec::with_capacity(alloc, self.length)?;
        for _ in 0..self.length {
            state = state.wrapping_mul(1664525).wrapping_add(1013904223);
            let [highest, ..] = state.to_be_bytes();
            message.push(highest)?;
        }
        Ok(message)
    }
}

/// Compares each digest of a file with that of a hash function, and counts them. The error names the first line that
/// differs, or that is no such line.
pub fn compare<D: DigestHasher>(alloc: Global, text: &str) -> Result<usize> {
    let mut count = 0usize;
    for line in text.lines() {
        if line.starts_with('#') {
            continue;
        }
        agrees::<D>(alloc, line).context(line)?;
        count = count.saturating_add(1);
    }
    Ok(count)
}

fn agrees<D: DigestHasher>(alloc: Global, line: &str) -> Result<()> {
    let row = Row::parse(line)?;
    let digest = D::digest(row.message(alloc)?.as_slice());
    let digits = hex::encode(alloc, digest)?;
    ensure!(digits.as_str() == row.digest, "the digest is {digits}");
    Ok(())
}
