//! The roots of a Merkle tree whose top layers are cut off.
ghost use Rattle.std.specs.Prelude.{◌≡◌, List};

use std::convert::AsSlice;
use std::marker::{Model, PhantomData};

/// The top layer of a Merkle tree over the field `F`: a list of roots that are digests `D`.
///
/// Contracts see the list of the roots.
///
/// Corresponds to `p3-symmetric`'s `MerkleCap`, made from a `Vec`. Its roots can be borrowed, and it can be neither
/// copied nor compared.
#[derive_where(Debug; D)]
pub struct MerkleCap<F, D> {
    roots: Vec<D>,
    #[derive_where(skip)]
    field: PhantomData<F>,
}

impl<F, D> Model for MerkleCap<F, D> {
    ghost Value = { List D };

    ghost view = { λ c. c.roots.items };
}

impl<F, D> MerkleCap<F, D> {
    /// Returns a cap of these roots in this order. This call takes no memory.
    pub fn new(roots: Vec<D>) -> Self
        ensures { result ≡ roots.items }
    {
        MerkleCap {
            roots,
            field: PhantomData,
        }
    }

    /// Returns the list of the roots in order.
    pub fn roots(&self) -> &[D]
        ensures { result.now ≡ self.now }
    {
        self.roots.as_slice()
    }
}

impl<F, D> AsSlice<D> for MerkleCap<F, D> {
    ghost items = { λ cap. cap };

    fn as_slice(&self) -> &[D] {
        self.roots()
    }
}

impl<F, D: Drop> Drop for MerkleCap<F, D> {
    fn drop(self) {
        let MerkleCap { roots: _, field: _ } = self;
    }
}
