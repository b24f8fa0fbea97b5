//! Hash functions of bytes for both challengers and patterns.

use p3_symmetric::{CryptographicHasher, DigestHasher};

/// A hash function of bytes to 32 bytes that serves both a challenger and patterns.
pub trait ByteHasher: CryptographicHasher<u8, [u8; 32]> + DigestHasher {}

impl<H: CryptographicHasher<u8, [u8; 32]> + DigestHasher> ByteHasher for H {}
