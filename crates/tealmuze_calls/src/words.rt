//! Scalars, elements of the extension and digests, by their numbers.
ghost use Rattle.std.specs.Prelude.{◌≡◌, ℕ, ◌<◌, ◌≤◌, ◌^◌, List, length, map, flat_map, IfOk, IfErr, IfSome, IfNone};
ghost use Rattle.std.specs.Prelude.{OnOk};
ghost use Rattle.std.specs.List.{All};
ghost use Rattle.tealmuze_calls.specs.DigestLaws.{small_prime-one, goldilocks-one};
ghost use Rattle.tealmuze_calls.specs.{Errors.IsDueTo, Readings.AreSoMany};

use crate::unanswered::Unanswered;
use p3_field::{BabyBear, BasedVectorSpace, Goldilocks, PrimeCharacteristicRing, PrimeField64};
use std::alloc::Global;

/// What a digest has so many of.
pub trait Word: Copy {
    // The number that it is encoded as.
    ghost encoded: { Self → ℕ };

    // What is the number of one.
    ghost is_encoded: { ℕ → Type 0 };

    // No two words are encoded alike.
    ghost one: { (word other : Self) → encoded word ≡ encoded other → word ≡ other };

    /// The word of a number, if it is that of one.
    fn of_number(number: u64) -> Option<Self>
        ensures some { IfSome result (λ word. (encoded word ≡ number) × is_encoded number) }
        ensures none { IfNone result (is_encoded number → ⊥) };
}

impl Word for u8 {
    ghost encoded = { λ byte. byte };

    ghost is_encoded = { λ number. number < 256 };

    ghost one = { λ word other same. same };

    fn of_number(number: u64) -> Option<u8> {
        if number < 256 {
            Some(number as u8)
        } else {
            None
        }
    }
}

impl Word for u64 {
    ghost encoded = { λ word. word };

    ghost is_encoded = { λ number. number < 2 ^ 64 };

    ghost one = { λ word other same. same };

    fn of_number(number: u64) -> Option<u64> {
        Some(number)
    }
}

impl Word for BabyBear {
    ghost encoded = { ⟦<BabyBear as PrimeCharacteristicRing>⟧.residues.number };

    ghost is_encoded = { λ number. number < ⟦<BabyBear as PrimeCharacteristicRing>⟧.residues.order };

    ghost one = { small_prime-one };

    fn of_number(number: u64) -> Option<BabyBear> {
        scalar(number)
    }
}

impl Word for Goldilocks {
    ghost encoded = { ⟦<Goldilocks as PrimeCharacteristicRing>⟧.residues.number };

    ghost is_encoded = { λ number. number < ⟦<Goldilocks as PrimeCharacteristicRing>⟧.residues.order };

    ghost one = { goldilocks-one };

    fn of_number(number: u64) -> Option<Goldilocks> {
        scalar(number)
    }
}

/// The scalar of a number below the order.
pub fn scalar<F: PrimeField64>(number: u64) -> Option<F>
    ensures some { IfSome result (λ x. F.residues.number x ≡ number) }
    ensures below { IfSome result (λ x. number < F.residues.order) }
    ensures none { IfNone result (F.residues.order ≤ number) }
{
    F::from_canonical_checked(number)
}

/// The scalars of numbers.
pub fn scalars<F: PrimeField64>(alloc: Global, numbers: &[u64]) -> Result<Vec<F>, Unanswered>
    ensures ok { IfOk result (λ scalars. map F.residues.number scalars.items ≡ numbers.now) }
    ensures err { IfErr result (IsDueTo (All (λ number. number < F.residues.order) numbers.now → ⊥)) }
{
    let mut scalars = Vec::new(alloc);
    for number in numbers {
        match scalar(*number) {
            Some(scalar) => scalars.push(scalar)?,
            None => return Err(Unanswered::Values),
        }
    }
    Ok(scalars)
}

/// The element of the extension whose coefficients have these numbers.
pub fn element<F: PrimeField64, E: BasedVectorSpace<F>>(numbers: &[u64]) -> Option<E>
    ensures some { IfSome result (λ x. map F.residues.number (E.coefficients x) ≡ numbers.now) }
    ensures none { IfNone result (AreSoMany E.DIMENSION (λ number. number < F.residues.order) numbers.now → ⊥) }
{
    if numbers.len() != E::DIMENSION {
        return None;
    }
    let mut element = E::zero();
    for i in 0..E::DIMENSION {
        element = element.with_coefficient(i, scalar(numbers[i])?);
    }
    Some(element)
}

/// The elements of the extension whose coefficients have these numbers, one element after another.
pub fn elements<F: PrimeField64, E: BasedVectorSpace<F>>(
    alloc: Global,
    numbers: &[u64],
) -> Result<Vec<E>, Unanswered>
    ensures ok { IfOk result (λ elements.
        flat_map (λ x. map F.residues.number (E.coefficients x)) elements.items ≡ numbers.now) }
    ensures err { IfErr result (IsDueTo ((elements : List E) →
        flat_map (λ x. map F.residues.number (E.coefficients x)) elements ≡ numbers.now → ⊥)) }
{
    let mut elements = Vec::new(alloc);
    let mut left = numbers;
    while let Some((head, tail)) = left.split_at_checked(E::DIMENSION) {
        match element(head) {
            Some(element) => elements.push(element)?,
            None => return Err(Unanswered::Values),
        }
        left = tail;
    }
    if !left.is_empty() {
        return Err(Unanswered::Values);
    }
    Ok(elements)
}

/// The digest of these words.
pub fn digest<T: Word, const N: usize>(alloc: Global, numbers: &[u64]) -> Result<[T; N], Unanswered>
    ensures ok { IfOk result (λ digest. map T.encoded digest ≡ numbers.now) }
    ensures so_many { OnOk result (AreSoMany N T.is_encoded numbers.now) }
    ensures err { IfErr result (IsDueTo (AreSoMany N T.is_encoded numbers.now → ⊥)) }
{
    let words: Vec<T> = words(alloc, numbers)?;
    match <[T; N]>::try_from(words.as_slice()) {
        Ok(digest) => Ok(digest),
        Err(_) => Err(Unanswered::Values),
    }
}

fn words<T: Word>(alloc: Global, numbers: &[u64]) -> Result<Vec<T>, Unanswered>
    ensures ok { IfOk result (λ words. map T.encoded words.items ≡ numbers.now) }
    ensures each { OnOk result (All T.is_encoded numbers.now) }
    ensures err { IfErr result (IsDueTo (All T.is_encoded numbers.now → ⊥)) }
{
    let mut words = Vec::new(alloc);
    for number in numbers {
        match T::of_number(*number) {
            Some(word) => words.push(word)?,
            None => return Err(Unanswered::Values),
        }
    }
    Ok(words)
}
