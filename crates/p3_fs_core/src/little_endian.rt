//! Numbers as bytes, lowest first.
ghost use Rattle.std.specs.Prelude.{◌≡◌, ◌≤◌, length};
ghost use Rattle.p3_fs_core.specs.Packing.{little_endian};

// The number that at most 8 bytes are.
pub(crate) fn number_of_chunk(bytes: &[u8]) -> u64
    requires { length bytes.now ≤ 8 }
    ensures { result ≡ little_endian bytes.now }
{
    let mut number = 0u64;
    for i in 0..bytes.len() {
        number = number * 256 + u64::from(bytes[bytes.len() - 1 - i]);
    }
    number
}
