//! A hash function of bytes with a table of digests before it. A text in the table has the digest given there, and
//! any other text that of another hash function.
//!
//! So a program can use the digests that another one gives to the identities of algebras, where their texts differ.
#![tactic(auto)]

mod digest_table;
mod known_digest;
mod tabled_hasher;

pub use digest_table::DigestTable;
pub use known_digest::KnownDigest;
pub use tabled_hasher::{TabledHasher, shared_digests};
