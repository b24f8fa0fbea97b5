//! Hash functions of lists.
ghost use Rattle.std.specs.Prelude.{◌≡◌, ◌<◌, ◌+◌, ◌*◌, ◌/◌, ◌%◌, ℕ, List, Some, length, slice_get, slice_range};

/// The output of a hash function: an array of values of a `Copy` type.
///
/// Not in the Rust crate, where a digest is any type.
pub trait HashOutput: Copy {
    // The value has each of its places.
    ghost is_whole: { Self → Type 0 };
}

impl<T: Copy, const N: usize> HashOutput for [T; N] {
    ghost is_whole = { λ values. length values ≡ N };
}

/// A hash function: it maps a list of values to a digest, and equal lists to equal digests.
///
/// `Out` is the digest, an array of values of a fixed length. Contracts know nothing more of a hasher. They do
/// not say that two lists with one digest are hard to find, or that different lists have different digests.
///
/// Corresponds to `p3-symmetric`'s `CryptographicHasher`, with `hash_slice`, and `hash_many` in addition. A hasher is
/// `Copy` here.
pub trait CryptographicHasher<T, Out: HashOutput>: Copy {
    /// The number of messages, at least 1, that [`hash_many`](CryptographicHasher::hash_many) hashes best at
    /// once.
    ///
    /// Not in the Rust crate.
    const LANES: usize;

    ghost LANES: { ℕ };

    // The digest of a list.
    ghost hash: { Self → List T → Out };

    // Any value: in definitions it stands for a place that a list does not have.
    ghost filler: { T };

    /// Returns the digest of the values, taken as one list. This call takes no memory.
    fn hash_slice(&self, input: &[T]) -> Out
        ensures { result ≡ hash self.now input.now };

    /// Hashes messages of one length that stand one after another: digest `j` is that of message `j`. This call
    /// takes no memory.
    ///
    /// There are as many messages as digests, so the number of values is a multiple of the number of digests.
    /// Without digests there are no values. The default body hashes one message after another.
    ///
    /// Not in the Rust crate.
    fn hash_many(&self, messages: &[T], digests: &mut [Out])
        requires whole { length messages.now % length digests.old ≡ 0 }
        ensures count { length digests.new ≡ length digests.old }
        ensures each_digest { (j : ℕ) → j < length digests.old →
            let each = length messages.now / length digests.old in
            slice_get digests.new j
            ≡ Some (hash self.now (slice_range messages.now (j * each) (j * each + each))) }
    {
        let count = digests.len();
        if count == 0 {
            return;
        }
        let each = messages.len() / count;
        'messages: for j in 0..count {
            let start = j * each;
            digests[j] = self.hash_slice(&messages[start..start + each]);
        }
    }

    // It hashes one message or more at once.
    ghost some_lanes: { 0 < LANES };

    // A digest has each of its places.
    ghost digests: { (hasher : Self) (message : List T) → Out.is_whole (hash hasher message) };
}
