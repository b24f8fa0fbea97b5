//! Digests from a table, and from a hash function for texts that the table does not have.
ghost use Rattle.std.specs.Prelude.{◌≡◌, ◌⊎◌, ℕ, List, map};
ghost use Rattle.p3_digest_table.specs.Tables.{found, digest_by, line_of, IsGiven};
ghost use Rattle.p3_digest_table.specs.TableLaws.{digest_by-is_digest};

use crate::{DigestTable, KnownDigest};
use p3_symmetric::DigestHasher;
use std::marker::PhantomData;

/// A hash function of bytes, determined by its type alone. The digest of a text is that of the table `T` if the table
/// has one, and else that of the hash function `H`. A digest takes no memory.
///
/// It serves texts that another program writes differently and whose digests there are known: the digests of the
/// identities of algebras. Two texts share a digest only if `H` maps both to one, or if this digest is one of the
/// table's ([`shared_digests`]). So a table does no harm if its digests are distinct, and none of them is the digest
/// under `H` of another hashed text.
///
/// Not in the Rust crate.
pub struct TabledHasher<T, H>(PhantomData<(T, H)>);

impl<T: DigestTable, H: DigestHasher> DigestHasher for TabledHasher<T, H> {
    ghost digest_of = { λ message. digest_by T.lines (H.digest_of message) message };

    ghost digests = { λ message. digest_by-is_digest T.lines (H.digest_of message) message T.digests (H.digests message) };

    fn digest(message: &[u8]) -> [u8; 32]
        ensures { result ≡ digest_by T.lines (H.digest_of message.now) message.now }
    {
        match find(T::lines(), message) {
            Some(digest) => digest,
            None => H::digest(message),
        }
    }
}

/// Two texts may share a digest by a table and a hash function. Then they share one under the hash function alone, or
/// their digest is one of the table's.
///
/// A law: the body is empty, and a caller cites the clause.
pub fn shared_digests<T: DigestTable, H: DigestHasher>()
    ensures { (a b : List ℕ) → digest_by T.lines (H.digest_of a) a ≡ digest_by T.lines (H.digest_of b) b →
        (H.digest_of a ≡ H.digest_of b) ⊎ IsGiven T.lines (digest_by T.lines (H.digest_of a) a) }
{}

// The digest that the first line with a text gives it.
fn find(lines: &[KnownDigest], text: &[u8]) -> Option<[u8; 32]>
    ensures { result ≡ found (map line_of lines.now) text.now }
{
    'lines: for line in lines {
        if line.text == text {
            return Some(line.digest);
        }
    }
    None
}
