//! Elements of Goldilocks as numbers of 64 bits that need not be below the order: each stands for the element that it is
//! modulo the order. So a result is brought back to 64 bits, and not below the order.
ghost use Rattle.std.specs.Prelude.{◌≡◌, ◌<◌, ◌+◌, ◌*◌, ◌%◌, ◌^◌};
ghost use Rattle.p3_field_core.specs.Residues.{sum_of, product_of, power_of};
ghost use Rattle.p3_goldilocks.specs.GoldilocksResidues.{order, residues};
ghost use Rattle.p3_poseidon2.specs.Layers.{IsDegree};

use p3_field_core::PrimeField64;
use p3_goldilocks::Goldilocks;

// The order of the field.
const ORDER: u64 = Goldilocks::ORDER_U64;

// A number with one below the order added, in 64 bits. A carry of 2^64 is 2^32 - 1 modulo the order, and with that added the
// sum carries no more.
#[inline(always)]
fn with_carry(x: u64, y: u64) -> u64
    requires { y < order }
    ensures { result % order ≡ (x + y) % order }
{
    let (sum, is_over) = x.overflowing_add(y);
    if is_over { sum + 0xffff_ffff } else { sum }
}

// A number less one of 32 bits.
#[inline(always)]
fn lowered(low: u64, high: u64) -> u64
    requires { high < 2 ^ 32 }
    ensures { (result + high) % order ≡ low % order }
{
    if low < high {
        lowered_below_zero(low, high)
    } else {
        low - high
    }
}

// The same where the difference is below 0, which of numbers at random one in 2^33 is. It is called, so that a compiler makes
// a branch of it, and no choice of one of two numbers, for which each product would wait.
#[cold]
#[inline(never)]
fn lowered_below_zero(low: u64, high: u64) -> u64
    requires below { low < high }
    requires small { high < 2 ^ 32 }
    ensures { result + high ≡ low + order }
{
    low + (ORDER - high)
}

// What a number of 128 bits is modulo the order, where 2^64 is 2^32 - 1, and 2^96 is -1.
#[inline(always)]
pub(crate) fn folded(value: u128) -> u64
    ensures { result % order ≡ value % order }
{
    let low = (value & 0xffff_ffff_ffff_ffff) as u64;
    let upper = (value >> 64) as u64;
    folded_parts(low, upper & 0xffff_ffff, upper >> 32)
}

// The same of the parts of a number.
#[inline(always)]
fn folded_parts(low: u64, middle: u64, high: u64) -> u64
    requires middle_fits { middle < 2 ^ 32 }
    requires high_fits { high < 2 ^ 32 }
    ensures { result % order ≡ (low + 2 ^ 64 * middle + 2 ^ 96 * high) % order }
{
    with_carry(lowered(low, high), middle * 0xffff_ffff)
}

// The same of a number below 2^96, whose highest part is 0.
#[inline(always)]
pub(crate) fn folded_sum(value: u128) -> u64
    requires { value < 2 ^ 96 }
    ensures { result % order ≡ value % order }
{
    let low = (value & 0xffff_ffff_ffff_ffff) as u64;
    let upper = (value >> 64) as u64;
    with_carry(low, upper * 0xffff_ffff)
}

// A number with an element added.
#[inline(always)]
pub(crate) fn plus(x: u64, constant: Goldilocks) -> u64
    ensures { residues.of result ≡ sum_of residues (residues.of x) constant }
{
    with_carry(x, constant.as_canonical_u64())
}

// The product.
#[inline(always)]
fn product(x: u64, y: u64) -> u64
    ensures { residues.of result ≡ product_of residues (residues.of x) (residues.of y) }
{
    folded(u128::from(x) * u128::from(y))
}

// The power.
#[inline(always)]
pub(crate) fn power<const DEGREE: u64>(x: u64) -> u64
    requires { IsDegree DEGREE }
    ensures { residues.of result ≡ power_of residues (residues.of x) DEGREE }
{
    let square = product(x, x);
    let cube = product(square, x);
    if DEGREE == 3 {
        cube
    } else {
        // The fourth power does not wait for the cube, as the sixth would.
        let fourth = product(square, square);
        product(cube, fourth)
    }
}
