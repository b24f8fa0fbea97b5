//! Laws of every bridge.
ghost use Rattle.std.specs.Prelude.{◌≡◌, ℕ, ◌^◌, ◌%◌, ◌<◌, ◌≤◌, ◌↔◌, List, length, slice_index_or};
ghost use Rattle.p3_field_bridge.specs.Bridges.{packed, digit_of};

use crate::FieldBridge;
use p3_field_core::PrimeField64;

/// Packing is injective, where the order of `F` is below that of `PF`. Equally many elements, no more than are packed
/// into one, are determined by the element that they are packed into.
///
/// A law: the body is empty, and a caller cites the clause.
pub fn packing_is_injective<F: PrimeField64, PF: PrimeField64, B: FieldBridge<F, PF>>()
    ensures { F.residues.order < PF.residues.order → (xs ys : List F) → length xs ≡ length ys →
        length xs ≤ B.ABSORB_COUNT → packed F.residues PF.residues B.RADIX_BITS xs
        ≡ packed F.residues PF.residues B.RADIX_BITS ys → xs ≡ ys }
{}

/// The first digits of two elements are the same exactly where their canonical numbers have the same remainder. The
/// modulus is the order to the number of digits. So elements whose numbers are below that power are
/// determined by these digits.
///
/// A law: the body is empty, and a caller cites the clauses.
pub fn digits_tell_elements<F: PrimeField64, PF: PrimeField64>()
    ensures same { (x y : PF) (count : ℕ) → ((i : ℕ) → i < count →
        digit_of F.residues PF.residues x i ≡ digit_of F.residues PF.residues y i)
        ↔ (PF.residues.number x % F.residues.order ^ count
        ≡ PF.residues.number y % F.residues.order ^ count) }
    ensures apart { (x y : PF) (count : ℕ) → PF.residues.number x < F.residues.order ^ count →
        PF.residues.number y < F.residues.order ^ count → ((i : ℕ) → i < count →
        digit_of F.residues PF.residues x i ≡ digit_of F.residues PF.residues y i) → x ≡ y }
{}

/// Digits are arbitrary, where the order of `F` is below that of `PF`. Any elements of `F`, no more than the digits
/// drawn from one element, are the first digits of some element of `PF`.
///
/// A law: the body is empty, and a caller cites the clause.
pub fn digits_are_any<F: PrimeField64, PF: PrimeField64, B: FieldBridge<F, PF>>()
    ensures { F.residues.order < PF.residues.order → (xs : List F) → length xs ≤ B.SQUEEZE_COUNT →
        (x : PF) × ((i : ℕ) (d : F) → i < length xs →
        digit_of F.residues PF.residues x i ≡ slice_index_or xs i d) }
{}
