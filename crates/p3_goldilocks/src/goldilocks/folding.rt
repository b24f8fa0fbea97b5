//! Reduction of a product of 128 bits without division: modulo the order, 2^64 is 2^32 - 1, and 2^96 is -1.
ghost use Rattle.std.specs.Prelude.{◌≡◌, ◌+◌, ◌*◌, ◌%◌, ◌^◌, ◌<◌};
ghost use Rattle.p3_goldilocks.specs.GoldilocksResidues.{order};

use super::ORDER;

// What a number of 128 bits leaves modulo the order.
pub(crate) fn folded(value: u128) -> u64
    ensures { result ≡ value % order }
{
    let low = (value & 0xffff_ffff_ffff_ffff) as u64;
    let upper = (value >> 64) as u64;
    folded_parts(low, upper & 0xffff_ffff, upper >> 32)
}

// The same of the parts of a number: modulo the order 2^64 is 2^32 - 1, and 2^96 is -1.
fn folded_parts(low: u64, middle: u64, high: u64) -> u64
    requires middle_fits { middle < 2 ^ 32 }
    requires high_fits { high < 2 ^ 32 }
    ensures { result ≡ (low + 2 ^ 64 * middle + 2 ^ 96 * high) % order }
{
    let lowered = if low < high {
        low + (ORDER - high)
    } else {
        low - high
    };
    reduced_sum(lowered, middle * 0xffff_ffff)
}

// The sum modulo the order, where it is below twice that. With 2^32 - 1 added it carries into bit 64 exactly where the order
// is to be taken off. Compilers make a comparison there one in vectors, which costs more than it saves.
#[inline(always)]
fn reduced_sum(x: u64, y: u64) -> u64
    requires { x + y < 2 * order }
    ensures { result ≡ (x + y) % order }
{
    let sum = u128::from(x) + u128::from(y);
    let excess = ((sum + 0xffff_ffff) >> 64) as u64;
    let low = (sum & 0xffff_ffff_ffff_ffff) as u64;
    low.wrapping_add(excess * 0xffff_ffff)
}
