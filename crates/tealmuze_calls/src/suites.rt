//! The suites that a description can name.
ghost use Rattle.std.specs.Prelude.{◌≡◌, ◌≤◌, ℕ, List, IfOk, IfErr, OnOk};
ghost use Rattle.tealmuze_calls.specs.Errors.{IsDueTo};

use crate::unanswered::Unanswered;
use p3_challenger::Sponge;
use p3_challenger::fs::DomainSeparator;
use p3_challenger::fs::script::Suite;
use std::alloc::Global;

/// How many candidates a draw of an element tries at most.
pub const DRAW_LIMIT: u64 = 1000;

/// What binds a transcript to a script.
pub type SeparatorOf<S> = DomainSeparator<<S as Suite>::Unit, <S as Suite>::Digest>;

/// A suite that a description can name.
pub trait Called: Suite {
    // The state is that of a challenger that observed nothing yet.
    ghost is_fresh: { Self.Challenger.State → Type 0 };

    // The numbers that an opaque value is encoded as.
    ghost opaque_numbers: { Self.Opaque → List ℕ };

    // What are the numbers of one.
    ghost are_opaque: { List ℕ → Type 0 };

    /// A challenger that observed nothing yet.
    fn fresh(alloc: Global) -> Self::Challenger
        ensures { is_fresh (Self.Challenger.state result) };

    /// The opaque value of these numbers.
    fn opaque(alloc: Global, numbers: &[u64]) -> Result<Self::Opaque, Unanswered>
        ensures ok { IfOk result (λ x. opaque_numbers x ≡ numbers.now) }
        ensures are { OnOk result (are_opaque numbers.now) }
        ensures err { IfErr result (IsDueTo (are_opaque numbers.now → ⊥)) };

    // No two opaque values are encoded alike.
    ghost one_opaque: { (x y : Self.Opaque) → opaque_numbers x ≡ opaque_numbers y → x ≡ y };

    // A scalar has few bytes in a proof, and its number few bits.
    ghost few_bytes: { Self.Codec.encoding.width ≤ 64 };

    ghost few_bits: { Self.Field.bit_length ≤ 64 };
}
