//! Permutations of arrays.
ghost use Rattle.std.specs.Prelude.{◌≡◌};

/// A permutation of the states of a sponge.
///
/// Corresponds to `p3-symmetric`'s `CryptographicPermutation`, with the in-place method alone. A permutation is `Copy`
/// here. The trait does not require that it is one to one.
pub trait CryptographicPermutation<T>: Copy {
    // What each permutation makes of a state.
    ghost permutation: { Self → T → T };

    /// Permutes a state in place.
    fn permute_mut(&self, state: &mut T)
        ensures { state.new ≡ permutation self.now state.old };
}
