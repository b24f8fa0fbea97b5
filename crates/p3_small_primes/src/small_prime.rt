//! The prime fields whose order is below 2^32: one type of elements, each stored as its number.
ghost use Rattle.std.specs.{Prelude.{◌<◌, ℕ, List, ◌≡◌, ◌*◌, ◌^◌, ◌≤◌, Some, ◌-◌, refl}, Ordering.nat_cmp};
ghost use Rattle.std.proofs.Common.{lit≤};
ghost use Rattle.p3_field_core.specs.Residues.{sum_of, difference_of, product_of};
ghost use Rattle.std.specs.Hash as fed;

use p3_field_core::{
    AlgebraIdentity, Field, Named, PrimeCharacteristicRing, PrimeField, PrimeField32, PrimeField64,
    ScalarField, UniformSamplingField,
};
use std::fmt;
use std::hash::Hash;
use std::ops::{Add, Mul, Sub};

/// An element of the prime field of order `ORDER`, stored as its canonical number.
///
/// The number is below the order, by an invariant of the type, so equal elements have equal numbers.
///
/// `ORDER` is that of a field with an `impl` of [`SmallOrder`]; no order is proved prime. Not in the Rust crate,
/// where each field is a crate.
#[derive(Clone, Copy, PartialEq, Eq, PartialOrd, Ord, Hash)]
pub struct SmallPrime<const ORDER: u32> {
    value: u32,
    ghost canonical: { value < ORDER },
}

// The largest order of which 32 bits hold each sum of two numbers below it.
const LARGEST_OF_SHORT_SUMS: u32 = 1 << 31;

/// The order of a prime field: the facts that [`SmallPrime`] of this order needs, and the texts that name the field.
/// An order and an `impl` of this trait make a field with everything that the other fields have.
///
/// Not in the Rust crate.
pub trait SmallOrder<const ORDER: u32> {
    ghost use Rattle.p3_small_primes.specs.PrimeIdentities.{prime_identity};

    // There are a 0 and a 1.
    ghost above_one: { 1 < ORDER };

    ghost fits_u32: { ORDER < 2 ^ 32 };

    // How many bits the order takes: the least count of bits that it fits in.
    ghost bit_length: { ℕ };

    ghost bits_below: { ORDER < 2 ^ bit_length };

    ghost bits_least: { 2 ^ bit_length ≤ 2 * ORDER };

    /// Returns the bit length of the order.
    fn order_bits() -> usize
        ensures { result ≡ bit_length };

    /// The greatest number of uniform bits drawn from one element. Its power of two is at most the order.
    const SINGLE_SAMPLE_BITS: usize;

    ghost SINGLE_SAMPLE_BITS: { ℕ };

    ghost single_sample_within: { 2 ^ SINGLE_SAMPLE_BITS ≤ ORDER };

    /// The name of the field.
    const FIELD_NAME: &'static str;

    // The bytes of the name.
    ghost field_name_bytes: { List ℕ };

    /// Returns the name of the field, for code whose contract speaks of its bytes.
    fn name_of_field() -> &'static str
        ensures { result.now ≡ field_name_bytes };

    // The bytes of the identity.
    ghost field_identity_bytes: { List ℕ };

    /// Returns the identity of the field: `prime:` and the order in decimal digits.
    fn field_identity() -> &'static [u8]
        ensures bytes { result.now ≡ field_identity_bytes }
        ensures of_order { result.now ≡ prime_identity ORDER };
}

impl<const ORDER: u32> SmallPrime<ORDER>
where
    Self: SmallOrder<ORDER>,
{
    ghost use Rattle.p3_small_primes.specs.SmallPrimes.{element};

    // The element that a number is modulo the order.
    fn reduced(value: u64) -> Self
        ensures { result ≡ element ORDER ⟦<Self as SmallOrder<ORDER>>⟧.above_one value }
    {
        let value = (value % u64::from(ORDER)) as u32;
        SmallPrime { value }
    }

    // The element that a number below twice the order is modulo the order.
    fn reduced_once(value: u32) -> Self
        requires { value < 2 * ORDER }
        ensures { result ≡ element ORDER ⟦<Self as SmallOrder<ORDER>>⟧.above_one value }
    {
        let value = if value < ORDER { value } else { value - ORDER };
        SmallPrime { value }
    }

    // The same of a number that 32 bits may not hold.
    fn reduced_once_wide(value: u64) -> Self
        requires { value < 2 * ORDER }
        ensures { result ≡ element ORDER ⟦<Self as SmallOrder<ORDER>>⟧.above_one value }
    {
        let order = u64::from(ORDER);
        let value = if value < order { value } else { value - order };
        SmallPrime {
            value: value as u32,
        }
    }
}

impl<const ORDER: u32> SmallPrime<ORDER> {
    ghost use Rattle.p3_small_primes.specs.SmallPrimes.{number};

    /// Elements are ordered and hashed as their canonical numbers are.
    ///
    /// A law: the body is empty, and a caller cites the clauses.
    pub fn ordered_and_hashed_by_numbers()
        ensures order { (x y : SmallPrime ORDER) →
            ⟦<SmallPrime<ORDER> as Ord>⟧.cmp x y ≡ nat_cmp (number x) (number y) }
        ensures partial { (x y : SmallPrime ORDER) →
            ⟦<SmallPrime<ORDER> as PartialOrd>⟧.partial_cmp x y
            ≡ Some (nat_cmp (number x) (number y)) }
        ensures hash { (x : SmallPrime ORDER) →
            ⟦<SmallPrime<ORDER> as Hash>⟧.hash_input x ≡ fed.u32 (number x) }
    {}
}

impl<const ORDER: u32> fmt::Debug for SmallPrime<ORDER>
where
    Self: Named,
{
    fn fmt<W: fmt::Write>(&self, f: &mut fmt::Formatter<W>) -> fmt::Result {
        f.debug_struct(Self::type_name())
            .field("value", &self.value)
            .finish()
    }
}

impl<const ORDER: u32> Default for SmallPrime<ORDER>
where
    Self: SmallOrder<ORDER>,
{
    ghost use Rattle.p3_small_primes.specs.SmallPrimes.{element};

    ghost is_default = { λ x. x ≡ element ORDER ⟦<Self as SmallOrder<ORDER>>⟧.above_one 0 };

    fn default() -> Self {
        Self::ZERO
    }
}

impl<const ORDER: u32> Add for SmallPrime<ORDER>
where
    Self: SmallOrder<ORDER>,
{
    ghost use Rattle.p3_small_primes.specs.SmallPrimes.{residues_below};

    type Output = Self;

    ghost add_gives = { λ x y r. r ≡ sum_of (residues_below ORDER ⟦<Self as SmallOrder<ORDER>>⟧.above_one) x y };

    fn add(self, rhs: Self) -> Self {
        // The order is a constant, so of this test nothing is left when the program runs.
        if ORDER <= LARGEST_OF_SHORT_SUMS {
            Self::reduced_once(self.value + rhs.value)
        } else {
            Self::reduced_once_wide(u64::from(self.value) + u64::from(rhs.value))
        }
    }
}

impl<const ORDER: u32> Sub for SmallPrime<ORDER>
where
    Self: SmallOrder<ORDER>,
{
    ghost use Rattle.p3_small_primes.specs.SmallPrimes.{residues_below};

    type Output = Self;

    ghost sub_gives = { λ x y r. r ≡ difference_of (residues_below ORDER ⟦<Self as SmallOrder<ORDER>>⟧.above_one) x y };

    fn sub(self, rhs: Self) -> Self {
        let value = if self.value < rhs.value {
            self.value + (ORDER - rhs.value)
        } else {
            self.value - rhs.value
        };
        SmallPrime { value }
    }
}

impl<const ORDER: u32> Mul for SmallPrime<ORDER>
where
    Self: SmallOrder<ORDER>,
{
    ghost use Rattle.p3_small_primes.specs.SmallPrimes.{residues_below};

    type Output = Self;

    ghost mul_gives = { λ x y r. r ≡ product_of (residues_below ORDER ⟦<Self as SmallOrder<ORDER>>⟧.above_one) x y };

    fn mul(self, rhs: Self) -> Self {
        Self::reduced(u64::from(self.value) * u64::from(rhs.value))
    }
}

impl<const ORDER: u32> PrimeCharacteristicRing for SmallPrime<ORDER>
where
    Self: SmallOrder<ORDER>,
{
    ghost use Rattle.p3_small_primes.specs.SmallPrimes as small;
    ghost use Rattle.p3_small_primes.specs.SmallPrimeLaws as laws;

    const ZERO: Self = SmallPrime { value: 0 };

    ghost ZERO = { small.element ORDER ⟦<Self as SmallOrder<ORDER>>⟧.above_one 0 };

    const ONE: Self = SmallPrime { value: 1 };

    ghost ONE = { small.element ORDER ⟦<Self as SmallOrder<ORDER>>⟧.above_one 1 };

    const NEG_ONE: Self = SmallPrime { value: ORDER - 1 };

    ghost NEG_ONE = { small.element ORDER ⟦<Self as SmallOrder<ORDER>>⟧.above_one (ORDER - 1) };

    ghost residues = { small.residues_below ORDER ⟦<Self as SmallOrder<ORDER>>⟧.above_one };

    ghost are_residues = { laws.laws ORDER ⟦<Self as SmallOrder<ORDER>>⟧.above_one };

    ghost eq_law = { laws.compared-by-numbers };

    ghost zero_is = { refl };

    ghost one_is = { refl };

    ghost neg_one_is = { refl };

    ghost number_zero = { laws.zero-canonical ⟦<Self as SmallOrder<ORDER>>⟧.above_one };

    ghost number_one = { laws.one-canonical ⟦<Self as SmallOrder<ORDER>>⟧.above_one };

    ghost number_neg_one = { laws.last-canonical ⟦<Self as SmallOrder<ORDER>>⟧.above_one };

    ghost can_add_law = { λ _ _. tt };

    ghost add_law = { λ _ _ _ given. given };

    ghost can_sub_law = { λ _ _. tt };

    ghost sub_law = { λ _ _ _ given. given };

    ghost can_mul_law = { λ _ _. tt };

    ghost mul_law = { λ _ _ _ given. given };

    fn from_u8(value: u8) -> Self {
        Self::reduced(u64::from(value))
    }

    fn from_u16(value: u16) -> Self {
        Self::reduced(u64::from(value))
    }

    fn from_u32(value: u32) -> Self {
        Self::reduced(u64::from(value))
    }

    fn from_u64(value: u64) -> Self {
        Self::reduced(value)
    }
}

impl<const ORDER: u32> Field for SmallPrime<ORDER>
where
    Self: SmallOrder<ORDER>,
{
    ghost bit_length = { ⟦<Self as SmallOrder<ORDER>>⟧.bit_length };

    ghost bits_below = { ⟦<Self as SmallOrder<ORDER>>⟧.bits_below };

    ghost bits_least = { ⟦<Self as SmallOrder<ORDER>>⟧.bits_least };

    ghost is_small = { lit≤ tt };

    ghost default_law = { λ _ given. given };

    fn bits() -> usize {
        Self::order_bits()
    }
}

impl<const ORDER: u32> PrimeField for SmallPrime<ORDER>
where
    Self: SmallOrder<ORDER>,
{
    fn order() -> u128 {
        u128::from(ORDER)
    }
}

impl<const ORDER: u32> PrimeField64 for SmallPrime<ORDER>
where
    Self: SmallOrder<ORDER>,
{
    ghost use Rattle.p3_small_primes.specs.SmallPrimeLaws as laws;

    const ORDER_U64: u64 = ORDER as u64;

    ghost ORDER_U64 = { ORDER };

    ghost order_u64_is = { refl };

    ghost fits_u64 = { laws.fits_64 ⟦<Self as SmallOrder<ORDER>>⟧.fits_u32 };

    fn from_canonical(value: u64) -> Self {
        SmallPrime {
            value: value as u32,
        }
    }

    fn as_canonical_u64(&self) -> u64 {
        u64::from(self.value)
    }
}

impl<const ORDER: u32> PrimeField32 for SmallPrime<ORDER>
where
    Self: SmallOrder<ORDER>,
{
    const ORDER_U32: u32 = ORDER;

    ghost ORDER_U32 = { ORDER };

    ghost order_u32_is = { refl };

    ghost fits_u32 = { ⟦<Self as SmallOrder<ORDER>>⟧.fits_u32 };

    fn as_canonical_u32(&self) -> u32 {
        self.value
    }
}

impl<const ORDER: u32> UniformSamplingField for SmallPrime<ORDER>
where
    Self: SmallOrder<ORDER>,
{
    const MAX_SINGLE_SAMPLE_BITS: usize = Self::SINGLE_SAMPLE_BITS;

    ghost MAX_SINGLE_SAMPLE_BITS = { ⟦<Self as SmallOrder<ORDER>>⟧.SINGLE_SAMPLE_BITS };

    ghost max_single_within = { ⟦<Self as SmallOrder<ORDER>>⟧.single_sample_within };
}

impl<const ORDER: u32> Named for SmallPrime<ORDER>
where
    Self: SmallOrder<ORDER>,
{
    const NAME: &'static str = Self::FIELD_NAME;

    ghost name_bytes = { ⟦<Self as SmallOrder<ORDER>>⟧.field_name_bytes };

    fn type_name() -> &'static str {
        Self::name_of_field()
    }
}

impl<const ORDER: u32> AlgebraIdentity<SmallPrime<ORDER>> for SmallPrime<ORDER>
where
    Self: SmallOrder<ORDER>,
{
    ghost identity = { ⟦<Self as SmallOrder<ORDER>>⟧.field_identity_bytes };

    fn algebra_id() -> &'static [u8] {
        Self::field_identity()
    }
}

impl<const ORDER: u32> ScalarField for SmallPrime<ORDER>
where
    Self: SmallOrder<ORDER>,
{
    ghost one_coefficient = { refl };

    ghost own_coefficient = { λ _. refl };
}
