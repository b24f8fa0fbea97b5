//! The prime fields whose elements are numbers of a fixed number of bytes.
ghost use Rattle.std.{specs.Prelude.{◌≡◌, ◌≤◌, ◌^◌}, proofs.Common.lit≤};
ghost use Rattle.p3_serializing.specs.{Bytes.{bytes_of, number_of}, BytesLaws.{fits_4, fits_8}};

use p3_field_core::{PrimeField32, PrimeField64};

/// A prime field whose elements are numbers of `BYTES` bytes.
///
/// Every [`PrimeField32`] is such a field of 4 bytes, and every [`PrimeField64`] one of 8.
///
/// Not in the Rust crate, where each of two structs requires a field of its width.
pub trait SerializedIn<const BYTES: usize>: PrimeField64 {
    /// Returns the bytes of the element's unique number, lowest first.
    fn to_unique_bytes(&self) -> [u8; BYTES]
        ensures { result ≡ bytes_of BYTES (Self.residues.number self.now) };

    /// Returns the number that the bytes encode, lowest first.
    fn number_of_bytes(bytes: &[u8; BYTES]) -> u64
        ensures { result ≡ number_of bytes.now };

    // Each number below the order has that many bytes.
    ghost order_fits: { Self.residues.order ≤ 256 ^ BYTES };

    ghost at_most_8: { BYTES ≤ 8 };
}

impl<F: PrimeField32> SerializedIn<4> for F {
    ghost at_most_8 = { lit≤ tt };

    ghost order_fits = { fits_4 F.residues.order F.fits_u32 };

    fn to_unique_bytes(&self) -> [u8; 4] {
        self.to_unique_u32().to_le_bytes()
    }

    fn number_of_bytes(bytes: &[u8; 4]) -> u64 {
        u64::from(u32::from_le_bytes(*bytes))
    }
}

impl<F: PrimeField64> SerializedIn<8> for F {
    ghost at_most_8 = { lit≤ tt };

    ghost order_fits = { fits_8 F.residues.order F.fits_u64 };

    fn to_unique_bytes(&self) -> [u8; 8] {
        self.to_unique_u64().to_le_bytes()
    }

    fn number_of_bytes(bytes: &[u8; 8]) -> u64 {
        u64::from_le_bytes(*bytes)
    }
}
