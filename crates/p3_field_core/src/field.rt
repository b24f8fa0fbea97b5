//! Fields, and prime fields whose elements are numbers of at most 64 or 32 bits.
ghost use Rattle.std.specs.Prelude.{◌≡◌, ℕ, ◌+◌, ◌*◌, ◌^◌, ◌<◌, ◌≤◌, Option, Some, None};
ghost use Rattle.p3_field_core.specs.Sizes.{IsSmall};

use crate::PrimeCharacteristicRing;

/// A field: a ring of residues modulo a prime. The default element is 0.
///
/// Corresponds to `p3-field`'s `Field`.
pub trait Field: PrimeCharacteristicRing + Default {
    // How many bits the order takes.
    ghost bit_length: { ℕ };

    /// Returns the bit length of the order.
    fn bits() -> usize
        ensures { result ≡ bit_length };

    // It is the least count of bits that the order fits in.
    ghost bits_below: { Self.residues.order < 2 ^ bit_length };

    ghost bits_least: { 2 ^ bit_length ≤ 2 * Self.residues.order };

    // An element takes little room, so that arrays of any usual length of them can be lent as slices.
    ghost is_small: { IsSmall Self.row };

    // The default element is 0.
    ghost default_law: { (x : Self) → Self.is_default x → x ≡ Self.residues.of 0 };
}

/// A field of prime order.
///
/// Corresponds to `p3-field`'s `PrimeField`.
pub trait PrimeField: Field {
    /// Returns the order of the field.
    fn order() -> u128
        ensures { result ≡ Self.residues.order };
}

/// A prime field whose order is below `2^64`.
///
/// Corresponds to `p3-field`'s `PrimeField64`.
pub trait PrimeField64: PrimeField {
    /// The order of the field.
    const ORDER_U64: u64;

    ghost ORDER_U64: { ℕ };

    /// Returns the element with this canonical number, which is below the order.
    ///
    /// The argument has 64 bits, even for a field of 32 bits.
    fn from_canonical(value: u64) -> Self
        requires { value < Self.residues.order }
        ensures { result ≡ Self.residues.of value };

    /// Returns the element with this canonical number, or `None` where the number is not below the
    /// order.
    fn from_canonical_checked(value: u64) -> Option<Self>
        ensures canonical { value < Self.residues.order → result ≡ Some (Self.residues.of value) }
        ensures other { Self.residues.order ≤ value → result ≡ None }
    {
        if value < Self::ORDER_U64 {
            Some(Self::from_canonical(value))
        } else {
            None
        }
    }

    /// Returns the canonical number, which is below the order.
    fn as_canonical_u64(&self) -> u64
        ensures { result ≡ Self.residues.number self.now };

    /// Returns a number that identifies the element: the canonical one.
    fn to_unique_u64(&self) -> u64
        ensures { result ≡ Self.residues.number self.now }
    {
        self.as_canonical_u64()
    }

    ghost order_u64_is: { ORDER_U64 ≡ Self.residues.order };

    ghost fits_u64: { Self.residues.order < 2 ^ 64 };
}

/// A prime field whose order is below `2^32`.
///
/// Corresponds to `p3-field`'s `PrimeField32`.
pub trait PrimeField32: PrimeField64 {
    /// The order of the field.
    const ORDER_U32: u32;

    ghost ORDER_U32: { ℕ };

    /// Returns the element with this canonical number, which is below the order.
    ///
    /// The method of [`PrimeField64`] with the shorter name takes 64 bits.
    fn from_canonical_u32(value: u32) -> Self
        requires { value < Self.residues.order }
        ensures { result ≡ Self.residues.of value }
    {
        Self::from_canonical(u64::from(value))
    }

    /// Returns the element with this canonical number, or `None` where the number is not below the
    /// order.
    ///
    /// The method of [`PrimeField64`] with the shorter name takes 64 bits.
    fn from_canonical_u32_checked(value: u32) -> Option<Self>
        ensures canonical { value < Self.residues.order → result ≡ Some (Self.residues.of value) }
        ensures other { Self.residues.order ≤ value → result ≡ None }
    {
        Self::from_canonical_checked(u64::from(value))
    }

    /// Returns the canonical number, which is below the order.
    fn as_canonical_u32(&self) -> u32
        ensures { result ≡ Self.residues.number self.now };

    /// Returns a number that identifies the element: the canonical one.
    fn to_unique_u32(&self) -> u32
        ensures { result ≡ Self.residues.number self.now }
    {
        self.as_canonical_u32()
    }

    ghost order_u32_is: { ORDER_U32 ≡ Self.residues.order };

    ghost fits_u32: { Self.residues.order < 2 ^ 32 };
}
