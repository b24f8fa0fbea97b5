//! The least number of bits that can number a given number of values.
ghost use Rattle.std.specs.Prelude.{ℕ, ◌^◌, ◌≤◌};

/// Returns the least `k` for which `2^k` is at least `n`.
///
/// `n` is at least 1. `p3-util`'s `log2_ceil_u64`.
pub fn log2_ceil_u64(n: u64) -> u64
    requires { 1 ≤ n }
    ensures enough { n ≤ 2 ^ result }
    ensures least { (k : ℕ) → n ≤ 2 ^ k → result ≤ k }
{
    u64::from(u64::BITS - (n - 1).leading_zeros())
}
