//! The prime field of order 2^64 - 2^32 + 1, whose elements are stored as their numbers below the
//! order.
ghost use Rattle.std.{specs.{Prelude.{◌<◌, ◌≡◌, Some, refl, codes}, Ordering.nat_cmp}, proofs.Common.{lit<, lit≤}};
ghost use Rattle.p3_field_core.specs.Residues.{sum_of, difference_of, product_of};
ghost use Rattle.std.specs.Hash as fed;

mod folding;

use folding::folded;
use p3_field_core::{
    AlgebraIdentity, Field, Named, PrimeCharacteristicRing, PrimeField, PrimeField64, ScalarField,
    UniformSamplingField,
};
use std::hash::Hash;
use std::ops::{Add, Mul, Sub};

/// An element of the prime field of order 2^64 - 2^32 + 1, stored as its canonical number.
///
/// The number is below the order, by an invariant of the type, so equal elements have equal
/// numbers.
///
/// The field of the Rust crate `p3-goldilocks`.
#[derive(Clone, Copy, Debug, PartialEq, Eq, PartialOrd, Ord, Hash)]
pub struct Goldilocks {
    value: u64,
    ghost canonical: { value < 18446744069414584321 },
}

// The order of the field.
const ORDER: u64 = 18446744069414584321;

impl Goldilocks {
    ghost use Rattle.p3_goldilocks.specs.GoldilocksResidues.{residues};

    // The element that a number is modulo the order, which is below the order with one subtraction.
    fn reduced(value: u64) -> Goldilocks
        ensures { result ≡ residues.of value }
    {
        let value = if value < ORDER { value } else { value - ORDER };
        Goldilocks { value }
    }
}

impl Goldilocks {
    ghost use Rattle.p3_goldilocks.specs.GoldilocksResidues.{number};

    /// Elements are ordered and hashed as their canonical numbers are.
    ///
    /// A law: the body is empty, and a caller cites the clauses.
    pub fn ordered_and_hashed_by_numbers()
        ensures order { (x y : Goldilocks) →
            ⟦<Goldilocks as Ord>⟧.cmp x y ≡ nat_cmp (number x) (number y) }
        ensures partial { (x y : Goldilocks) →
            ⟦<Goldilocks as PartialOrd>⟧.partial_cmp x y ≡ Some (nat_cmp (number x) (number y)) }
        ensures hash { (x : Goldilocks) → ⟦<Goldilocks as Hash>⟧.hash_input x ≡ fed.u64 (number x) }
    {}
}

impl Default for Goldilocks {
    ghost use Rattle.p3_goldilocks.specs.GoldilocksResidues.{residues};

    ghost is_default = { λ x. x ≡ residues.of 0 };

    fn default() -> Goldilocks {
        Goldilocks::ZERO
    }
}

impl Add for Goldilocks {
    ghost use Rattle.p3_goldilocks.specs.GoldilocksResidues.{residues};

    type Output = Goldilocks;

    ghost add_gives = { λ x y r. r ≡ sum_of residues x y };

    fn add(self, rhs: Goldilocks) -> Goldilocks {
        // `self` less what `rhs` lacks of the order; where that borrows, the order is added back. Written with a comparison
        // first, a sum took longer.
        let (left, is_below) = self.value.overflowing_sub(ORDER - rhs.value);
        Goldilocks {
            value: if is_below {
                left.wrapping_add(ORDER)
            } else {
                left
            },
        }
    }
}

impl Sub for Goldilocks {
    ghost use Rattle.p3_goldilocks.specs.GoldilocksResidues.{residues};

    type Output = Goldilocks;

    ghost sub_gives = { λ x y r. r ≡ difference_of residues x y };

    fn sub(self, rhs: Goldilocks) -> Goldilocks {
        let value = if self.value < rhs.value {
            self.value + (ORDER - rhs.value)
        } else {
            self.value - rhs.value
        };
        Goldilocks { value }
    }
}

impl Mul for Goldilocks {
    ghost use Rattle.p3_goldilocks.specs.GoldilocksResidues.{residues};

    type Output = Goldilocks;

    ghost mul_gives = { λ x y r. r ≡ product_of residues x y };

    fn mul(self, rhs: Goldilocks) -> Goldilocks {
        Goldilocks {
            value: folded(u128::from(self.value) * u128::from(rhs.value)),
        }
    }
}

impl PrimeCharacteristicRing for Goldilocks {
    ghost use Rattle.p3_goldilocks.specs.GoldilocksResidues as goldilocks;
    ghost use Rattle.p3_goldilocks.specs.GoldilocksLaws as laws;

    const ZERO: Goldilocks = Goldilocks { value: 0 };

    ghost ZERO = { goldilocks.residues.of 0 };

    const ONE: Goldilocks = Goldilocks { value: 1 };

    ghost ONE = { goldilocks.residues.of 1 };

    const NEG_ONE: Goldilocks = Goldilocks {
        value: 18446744069414584320,
    };

    ghost NEG_ONE = { goldilocks.residues.of 18446744069414584320 };

    ghost residues = { goldilocks.residues };

    ghost are_residues = { laws.laws };

    ghost eq_law = { laws.compared-by-numbers };

    ghost zero_is = { refl };

    ghost one_is = { refl };

    ghost neg_one_is = { refl };

    ghost number_zero = { refl };

    ghost number_one = { refl };

    ghost number_neg_one = { refl };

    ghost can_add_law = { λ _ _. tt };

    ghost add_law = { λ _ _ _ given. given };

    ghost can_sub_law = { λ _ _. tt };

    ghost sub_law = { λ _ _ _ given. given };

    ghost can_mul_law = { λ _ _. tt };

    ghost mul_law = { λ _ _ _ given. given };

    fn from_u8(value: u8) -> Goldilocks {
        Goldilocks::reduced(u64::from(value))
    }

    fn from_u16(value: u16) -> Goldilocks {
        Goldilocks::reduced(u64::from(value))
    }

    fn from_u32(value: u32) -> Goldilocks {
        Goldilocks::reduced(u64::from(value))
    }

    fn from_u64(value: u64) -> Goldilocks {
        Goldilocks::reduced(value)
    }
}

impl Field for Goldilocks {
    ghost bit_length = { 64 };

    ghost bits_below = { lit< tt };

    ghost bits_least = { lit≤ tt };

    ghost is_small = { lit≤ tt };

    ghost default_law = { λ _ given. given };

    fn bits() -> usize {
        64
    }
}

impl PrimeField for Goldilocks {
    fn order() -> u128 {
        18446744069414584321
    }
}

impl PrimeField64 for Goldilocks {
    const ORDER_U64: u64 = ORDER;

    ghost ORDER_U64 = { 18446744069414584321 };

    ghost order_u64_is = { refl };

    ghost fits_u64 = { lit< tt };

    fn from_canonical(value: u64) -> Goldilocks {
        Goldilocks { value }
    }

    fn as_canonical_u64(&self) -> u64 {
        self.value
    }
}

impl UniformSamplingField for Goldilocks {
    const MAX_SINGLE_SAMPLE_BITS: usize = 32;

    ghost MAX_SINGLE_SAMPLE_BITS = { 32 };

    ghost max_single_within = { lit≤ tt };
}

impl Named for Goldilocks {
    const NAME: &'static str = "Goldilocks";

    ghost name_bytes = { codes "Goldilocks" };

    fn type_name() -> &'static str {
        Self::NAME
    }
}

impl AlgebraIdentity<Goldilocks> for Goldilocks {
    ghost identity = { codes "prime:18446744069414584321" };

    fn algebra_id() -> &'static [u8] {
        b"prime:18446744069414584321"
    }
}

impl ScalarField for Goldilocks {
    ghost one_coefficient = { refl };

    ghost own_coefficient = { λ _. refl };
}
