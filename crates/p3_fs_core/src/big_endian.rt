//! Numbers as bytes, highest first.
ghost use Rattle.std.specs.Prelude.{◌≡◌, ◌-◌, ◌≤◌, ◌++◌, length, replicate};
ghost use Rattle.p3_fs_core.specs.BigEndian.{big_endian, in_bytes};

// The lowest `width` bytes of a number in the first places, with zeros after.
pub(crate) fn leading_bytes(number: u64, width: usize) -> [u8; 8]
    requires { width ≤ 8 }
    ensures { result ≡ in_bytes width number ++ replicate (8 - width) 0 }
{
    let bytes = number.to_be_bytes();
    let mut leading = [0; 8];
    leading[..width].copy_from_slice(&bytes[8 - width..]);
    leading
}

// The number that at most 8 bytes are.
pub(crate) fn number_of_bytes(bytes: &[u8]) -> u64
    requires { length bytes.now ≤ 8 }
    ensures { result ≡ big_endian bytes.now }
{
    let mut padded = [0; 8];
    padded[8 - bytes.len()..].copy_from_slice(bytes);
    u64::from_be_bytes(padded)
}
