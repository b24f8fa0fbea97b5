// A permutation that is called, so that no search is compiled for what the permutation does with the cells.
use p3_challenger::LanePermutation;
use p3_field::PackedField;
use p3_symmetric::CryptographicPermutation;

/// A permutation whose code is a function of its own.
#[derive(Clone, Copy)]
pub struct ByCall<P> {
    /// What is called.
    pub permutation: P,
}

impl<T, P: CryptographicPermutation<T>> CryptographicPermutation<T> for ByCall<P> {
    ghost permutation = { λ it. P.permutation it.permutation };

    #[inline(never)]
    fn permute_mut(&self, state: &mut T) {
        self.permutation.permute_mut(state);
    }
}

impl<F: PackedField, P: LanePermutation<F, WIDTH>, const WIDTH: usize> LanePermutation<F, WIDTH>
    for ByCall<P> {
    #[inline(never)]
    fn permute_lanes(&self, state: &mut [F::Packing; WIDTH]) {
        self.permutation.permute_lanes(state);
    }
}
