//! Why two fields make no challenger.
ghost use Rattle.std.specs.Prelude.{◌≡◌, ◌↔◌, true};
ghost use Rattle.p3_multi_field.specs.Refusals.{SaySame};

use thiserror::Error;

/// Says why two fields make no multi-field challenger. No challenger is made after either error.
///
/// The Rust crate's `MultiField32ChallengerError` takes the names of fields from the compiler.
#[derive(Clone, Copy, Debug, PartialEq, Eq, Error)]
pub enum MultiField32ChallengerError {
    /// The order of the field of the scalars is not below that of the field of the cells.
    #[error("sampled field `{input_field}` must have smaller order than transcript field `{sponge_field}`")]
    FieldOrderNotIncreasing {
        /// The name of the field of the scalars.
        input_field: &'static str,
        /// The name of the field of the cells.
        sponge_field: &'static str,
    },
    /// The orders are right, but the number of scalars absorbed at once does not fit in a tag of one byte.
    #[error("a full absorb batch contains {batch_len} sampled-field elements, \
         exceeding the u8 length-tag limit of {max}")]
    AbsorbLengthTagOverflow {
        /// The number of scalars that the rate packs, at most 2^64 - 1.
        batch_len: usize,
        /// The greatest tag: 255.
        max: usize,
    },
}

impl MultiField32ChallengerError {
    /// Two errors compare equal exactly where they have the same variant, names and numbers, wherever the names lie.
    ///
    /// A law: the body is empty, and a caller cites the clause.
    #[tactic(auto, using(crate::proofs::ErrorEquality::equal_errors))]
    pub fn compared_by_parts()
        ensures { (a b : MultiField32ChallengerError) →
            (⟦<MultiField32ChallengerError as PartialEq>⟧.eq a b ≡ true ↔ SaySame a b) }
    {}
}
