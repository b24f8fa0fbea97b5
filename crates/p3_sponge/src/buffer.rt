//! The buffer of pending values.
ghost use Rattle.std.specs.Prelude.{◌≡◌, ◌≤◌, ◌+◌, ◌++◌, length, take, drop};

/// Writes values into a buffer after its first `start` places. All other places stay the same. Not in the Rust
/// crate.
///
/// Condition: the buffer has room for them.
pub fn write_after<T: Copy>(buffer: &mut [T], start: usize, values: &[T])
    requires { start + length values.now ≤ length buffer.old }
    ensures front { take (start + length values.now) buffer.new
        ≡ take start buffer.old ++ values.now }
    ensures whole { buffer.new
        ≡ take start buffer.old ++ values.now ++ drop (start + length values.now) buffer.old }
{
    buffer[start..start + values.len()].copy_from_slice(values);
}
