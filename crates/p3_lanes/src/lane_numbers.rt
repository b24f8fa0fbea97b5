//! Sums, differences and products modulo an order, of numbers side by side in lanes of 32 bits.
ghost use Rattle.std.specs.Prelude.{◌≡◌, ℕ, ◌+◌, ◌-◌, ◌*◌, ◌/◌, ◌%◌, ◌^◌, ◌<◌, ◌≤◌, true, slice_index};

use std::simd::Simd;

// The largest order of which 32 bits hold each number below twice the order.
const LARGEST_OF_SHORT_SUMS: u32 = 1 << 31;

// How many lanes a vector has at most.
const MOST_LANES: usize = 64;

// A power of two that no product of two numbers of 31 bits reaches.
const ABOVE_PRODUCTS: u64 = 1 << 62;

// The sums modulo an order.
#[inline(always)]
pub(crate) fn lane_sums<const N: usize>(
    x: Simd<u32, N>,
    y: Simd<u32, N>,
    order: u32,
) -> Simd<u32, N>
    requires left { (l : ℕ) → l < N → slice_index x l < order }
    requires right { (l : ℕ) → l < N → slice_index y l < order }
    ensures { (l : ℕ) → l < N →
        slice_index result l ≡ (slice_index x.entry l + slice_index y.entry l) % order }
{
    if order <= LARGEST_OF_SHORT_SUMS {
        reduced_once(x + y, order)
    } else {
        long_sums(x, y, order)
    }
}

// What numbers below twice an order are modulo the order: the less of the number and the number with the order taken off,
// which wraps where the number is below the order.
#[inline(always)]
fn reduced_once<const N: usize>(x: Simd<u32, N>, order: u32) -> Simd<u32, N>
    requires { (l : ℕ) → l < N → slice_index x l < 2 * order }
    ensures { (l : ℕ) → l < N → slice_index result l ≡ slice_index x.entry l % order }
{
    x.simd_min(x - Simd::splat(order))
}

// The sums modulo an order: the plain sum where it is below the order, and else the order less.
// No lane wraps, also where the order is above 2^31.
#[inline(always)]
fn long_sums<const N: usize>(x: Simd<u32, N>, y: Simd<u32, N>, order: u32) -> Simd<u32, N>
    requires left { (l : ℕ) → l < N → slice_index x l < order }
    requires right { (l : ℕ) → l < N → slice_index y l < order }
    ensures { (l : ℕ) → l < N →
        slice_index result l ≡ (slice_index x.entry l + slice_index y.entry l) % order }
{
    let room = Simd::splat(order) - y;
    x.simd_lt(room).select(x + y, x - room)
}

// The differences modulo an order.
#[inline(always)]
pub(crate) fn lane_differences<const N: usize>(
    x: Simd<u32, N>,
    y: Simd<u32, N>,
    order: u32,
) -> Simd<u32, N>
    requires left { (l : ℕ) → l < N → slice_index x l < order }
    requires right { (l : ℕ) → l < N → slice_index y l < order }
    ensures { (l : ℕ) → l < N →
        slice_index result l ≡ (slice_index x.entry l + (order - slice_index y.entry l)) % order }
{
    x.simd_lt(y).select(x + (Simd::splat(order) - y), x - y)
}

// The products modulo an order.
#[inline(always)]
pub(crate) fn lane_products<const N: usize>(x: [u32; N], y: [u32; N], order: u32) -> [u32; N]
    requires left { (l : ℕ) → l < N → slice_index x l < order }
    requires right { (l : ℕ) → l < N → slice_index y l < order }
    ensures { (l : ℕ) → l < N →
        slice_index result l ≡ slice_index x.entry l * slice_index y.entry l % order }
{
    if N <= MOST_LANES && has_short_quotients(order) {
        reduced_products(Simd::from_array(x), Simd::from_array(y), order).to_array()
    } else {
        single_products(x, y, order)
    }
}

// Whether each quotient of a product by an order, from the rounded reciprocal of the order, is exact or one too small. It is
// a constant where the order is one.
#[inline(always)]
fn has_short_quotients(order: u32) -> bool
    ensures small { result ≡ true → order ≤ 2 ^ 31 }
    ensures short { result ≡ true → 2 ^ 30 + 2 ^ 62 % order ≤ order }
{
    if order == 0 || order > LARGEST_OF_SHORT_SUMS {
        return false;
    }
    let order = u64::from(order);
    (1 << 30) + ABOVE_PRODUCTS % order <= order
}

// The products modulo an order, of all lanes at once: what is left of each when the rounded quotient is taken off, which is
// below twice the order.
#[inline(always)]
fn reduced_products<const N: usize>(x: Simd<u32, N>, y: Simd<u32, N>, order: u32) -> Simd<u32, N>
    requires room { N * 8 < 2 ^ 63 }
    requires small { order ≤ 2 ^ 31 }
    requires short { 2 ^ 30 + 2 ^ 62 % order ≤ order }
    requires left { (l : ℕ) → l < N → slice_index x l < order }
    requires right { (l : ℕ) → l < N → slice_index y l < order }
    ensures { (l : ℕ) → l < N →
        slice_index result l ≡ slice_index x.entry l * slice_index y.entry l % order }
{
    let products = whole_products(widened(x), widened(y));
    let quotients = rounded_quotients(products, ABOVE_PRODUCTS / u64::from(order));
    let rests = without_multiples(low_halves(products), quotients, order);
    reduced_once(rests, order)
}

// The quotients by an order of numbers of 62 bits, from the reciprocal of the order, rounded down, as a part of 2^62. They are
// exact or one too small where the order `has_short_quotients`.
#[inline(always)]
fn rounded_quotients<const N: usize>(x: Simd<u64, N>, reciprocal: u64) -> Simd<u32, N>
    requires reciprocal { reciprocal ≤ 2 ^ 32 }
    requires numbers { (l : ℕ) → l < N → slice_index x l < 2 ^ 62 }
    ensures { (l : ℕ) → l < N →
        slice_index result l ≡ slice_index x.entry l / 2 ^ 30 * reciprocal / 2 ^ 32 }
{
    // By way of 32 bits, so that a compiler sees a product of numbers of 32 bits, for which there is an instruction.
    let high = widened(low_halves(shifted_right(x, 30)));
    let products = whole_products(high, Simd::splat(reciprocal));
    low_halves(shifted_right(products, 32))
}

// The numbers less multiples of an order, modulo 2^32.
#[inline(always)]
fn without_multiples<const N: usize>(
    x: Simd<u32, N>,
    counts: Simd<u32, N>,
    order: u32,
) -> Simd<u32, N>
    ensures { (l : ℕ) → l < N → slice_index result l
        ≡ (slice_index x.entry l + (2 ^ 32 - slice_index counts.entry l * order % 2 ^ 32)) % 2 ^ 32 }
{
    x - counts * Simd::splat(order)
}

// The products of numbers whose products 64 bits hold.
#[inline(always)]
fn whole_products<const N: usize>(x: Simd<u64, N>, y: Simd<u64, N>) -> Simd<u64, N>
    requires { (l : ℕ) → l < N → slice_index x l * slice_index y l < 2 ^ 64 }
    ensures { (l : ℕ) → l < N →
        slice_index result l ≡ slice_index x.entry l * slice_index y.entry l }
{
    x * y
}

#[inline(always)]
fn widened<const N: usize>(x: Simd<u32, N>) -> Simd<u64, N>
    ensures { (l : ℕ) → l < N → slice_index result l ≡ slice_index x.entry l }
{
    x.cast::<u64>()
}

#[inline(always)]
fn low_halves<const N: usize>(x: Simd<u64, N>) -> Simd<u32, N>
    ensures { (l : ℕ) → l < N → slice_index result l ≡ slice_index x.entry l % 2 ^ 32 }
{
    (x & Simd::splat(0xffff_ffff)).cast::<u32>()
}

#[inline(always)]
fn shifted_right<const N: usize>(x: Simd<u64, N>, bits: u64) -> Simd<u64, N>
    requires { bits < 64 }
    ensures { (l : ℕ) → l < N → slice_index result l ≡ slice_index x.entry l / 2 ^ bits }
{
    x >> Simd::splat(bits)
}

// The products modulo an order, one lane after the other.
#[inline(always)]
fn single_products<const N: usize>(x: [u32; N], y: [u32; N], order: u32) -> [u32; N]
    requires left { (l : ℕ) → l < N → slice_index x l < order }
    requires right { (l : ℕ) → l < N → slice_index y l < order }
    ensures { (l : ℕ) → l < N →
        slice_index result l ≡ slice_index x.entry l * slice_index y.entry l % order }
{
    let mut products = x;
    'lanes: for l in 0..N {
        products[l] = product(x[l], y[l], order);
    }
    products
}

// The product modulo an order.
#[inline(always)]
fn product(x: u32, y: u32, order: u32) -> u32
    requires { 0 < order }
    ensures { result ≡ x * y % order }
{
    (u64::from(x) * u64::from(y) % u64::from(order)) as u32
}
