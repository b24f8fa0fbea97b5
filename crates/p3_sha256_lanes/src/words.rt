// Four words side by side, and in each lane the operations and functions of FIPS 180-4 (3.2 and 4.1.2).
ghost use Rattle.std.specs.Prelude.{◌≡◌, ◌-◌, ◌*◌, ◌/◌, ◌%◌, ◌^◌, ◌<◌, ℕ, slice_index};
ghost use Rattle.std.specs.Prelude.{bit_and, bit_or, bit_xor};
ghost use Rattle.std.specs.Int.{w32, bit_not, rotate_right};
ghost use Rattle.sha2.specs.Sha256.{add32, ch, maj, big_sigma0, big_sigma1, small_sigma0, small_sigma1};

use std::simd::u32x4;

// A word in each of four lanes.
pub(crate) type Words = u32x4;

// The sum modulo 2^32.
#[inline(always)]
pub(crate) fn sum(x: Words, y: Words) -> Words
    ensures { (lane : ℕ) → lane < 4 →
        slice_index result lane ≡ add32 (slice_index x lane) (slice_index y lane) }
{
    x + y
}

#[inline(always)]
fn xor(x: Words, y: Words) -> Words
    ensures { (lane : ℕ) → lane < 4 →
        slice_index result lane ≡ bit_xor (slice_index x lane) (slice_index y lane) }
{
    x ^ y
}

#[inline(always)]
fn and(x: Words, y: Words) -> Words
    ensures { (lane : ℕ) → lane < 4 →
        slice_index result lane ≡ bit_and (slice_index x lane) (slice_index y lane) }
{
    x & y
}

#[inline(always)]
fn or(x: Words, y: Words) -> Words
    ensures { (lane : ℕ) → lane < 4 →
        slice_index result lane ≡ bit_or (slice_index x lane) (slice_index y lane) }
{
    x | y
}

#[inline(always)]
fn shifted_right(x: Words, bits: u32) -> Words
    requires { bits < 32 }
    ensures { (lane : ℕ) → lane < 4 →
        slice_index result lane ≡ slice_index x lane / 2 ^ bits }
{
    x >> Words::splat(bits)
}

#[inline(always)]
fn shifted_left(x: Words, bits: u32) -> Words
    requires { bits < 32 }
    ensures { (lane : ℕ) → lane < 4 →
        slice_index result lane ≡ slice_index x lane * 2 ^ bits % 2 ^ 32 }
{
    x << Words::splat(bits)
}

#[inline(always)]
fn rotated_right(x: Words, bits: u32) -> Words
    requires low { 0 < bits }
    requires high { bits < 32 }
    ensures { (lane : ℕ) → lane < 4 →
        slice_index result lane ≡ rotate_right w32 (slice_index x lane) bits }
{
    or(shifted_right(x, bits), shifted_left(x, 32 - bits))
}

// One operation fewer than the standard's form.
#[inline(always)]
pub(crate) fn ch(x: Words, y: Words, z: Words) -> Words
    ensures { (lane : ℕ) → lane < 4 →
        slice_index result lane ≡ ch (slice_index x lane) (slice_index y lane) (slice_index z lane) }
{
    xor(z, and(x, xor(y, z)))
}

// A round's `x ^ y` is the next round's `y ^ z`, so it is computed once.
#[inline(always)]
pub(crate) fn maj(x: Words, y: Words, z: Words) -> Words
    ensures { (lane : ℕ) → lane < 4 →
        slice_index result lane ≡ maj (slice_index x lane) (slice_index y lane) (slice_index z lane) }
{
    xor(y, and(xor(x, y), xor(y, z)))
}

#[inline(always)]
pub(crate) fn big_sigma0(x: Words) -> Words
    ensures { (lane : ℕ) → lane < 4 →
        slice_index result lane ≡ big_sigma0 (slice_index x lane) }
{
    xor(
        xor(rotated_right(x, 2), rotated_right(x, 13)),
        rotated_right(x, 22),
    )
}

#[inline(always)]
pub(crate) fn big_sigma1(x: Words) -> Words
    ensures { (lane : ℕ) → lane < 4 →
        slice_index result lane ≡ big_sigma1 (slice_index x lane) }
{
    xor(
        xor(rotated_right(x, 6), rotated_right(x, 11)),
        rotated_right(x, 25),
    )
}

#[inline(always)]
pub(crate) fn small_sigma0(x: Words) -> Words
    ensures { (lane : ℕ) → lane < 4 →
        slice_index result lane ≡ small_sigma0 (slice_index x lane) }
{
    xor(
        xor(rotated_right(x, 7), rotated_right(x, 18)),
        shifted_right(x, 3),
    )
}

#[inline(always)]
pub(crate) fn small_sigma1(x: Words) -> Words
    ensures { (lane : ℕ) → lane < 4 →
        slice_index result lane ≡ small_sigma1 (slice_index x lane) }
{
    xor(
        xor(rotated_right(x, 17), rotated_right(x, 19)),
        shifted_right(x, 10),
    )
}
