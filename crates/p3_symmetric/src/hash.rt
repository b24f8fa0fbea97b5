//! A digest of a fixed number of values, of a hash function over a field.
ghost use Rattle.std.specs.Prelude.{◌≡◌, length};
ghost use Rattle.p3_field_core.specs.Equality.{IsExact};

use std::alloc::AllocError;
use std::convert::AsSlice;
use std::marker::PhantomData;

/// A digest: `N` values of `T`, from a hash function over the field `F`.
///
/// Corresponds to `p3-symmetric`'s `Hash`, made from an array and borrowed as one. It can be copied and compared,
/// and has no other methods.
#[derive_where(Debug, PartialEq, Eq; T)]
pub struct Hash<F, T, const N: usize> {
    value: [T; N],
    pub ghost full: { length value ≡ N },
    #[derive_where(skip)]
    field: PhantomData<F>,
}

impl<F, T: Clone, const N: usize> Clone for Hash<F, T, N> {
    ghost use Rattle.p3_symmetric.specs.Digests.{values_of};

    // As the array of the values is cloned.
    ghost is_clone = { λ x y. ⟦<[T; N] as Clone>⟧.is_clone (values_of x) (values_of y) };

    ghost is_infallible = { λ x. ⟦<[T; N] as Clone>⟧.is_infallible (values_of x) };

    fn clone(&self) -> Result<Self, AllocError> {
        let value = self.value.clone()?;
        Ok(Hash {
            value,
            field: PhantomData,
        })
    }
}

impl<F, T: Copy, const N: usize> Copy for Hash<F, T, N> {}

impl<F, T, const N: usize> Hash<F, T, N> {
    ghost use Rattle.p3_symmetric.specs.Digests.{values_of};

    /// Returns the values of the digest, in order.
    pub fn as_ref(&self) -> &[T; N]
        ensures { result.now ≡ values_of self.now }
    {
        &self.value
    }

    /// Each digest has `N` values, and digests with the same values are equal.
    ///
    /// A law: the body is empty, and a caller cites the clauses.
    pub fn is_its_values()
        ensures places { (digest : Hash F T N) → length (values_of digest) ≡ N }
        ensures same { (x y : Hash F T N) → values_of x ≡ values_of y → x ≡ y }
    {}
}

impl<F, T: PartialEq, const N: usize> Hash<F, T, N> {
    /// Two digests compare equal exactly where their values are the same, if values do.
    ///
    /// A law: the body is empty, and a caller cites the clause.
    pub fn compared_by_values()
        ensures { IsExact T.eq → IsExact ⟦<Hash<F, T, N> as PartialEq>⟧.eq }
    {}
}

impl<F, T, const N: usize> AsSlice<T> for Hash<F, T, N> {
    ghost use Rattle.p3_symmetric.specs.Digests.{values_of};

    ghost items = { values_of };

    fn as_slice(&self) -> &[T] {
        &self.value[..]
    }
}

impl<F, T, const N: usize> From<[T; N]> for Hash<F, T, N> {
    ghost use Rattle.p3_symmetric.specs.Digests.{values_of};

    ghost from_gives = { λ values digest. values_of digest ≡ values };

    fn from(values: [T; N]) -> Hash<F, T, N> {
        Hash {
            value: values,
            field: PhantomData,
        }
    }
}
