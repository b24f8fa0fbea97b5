//! The rules of draws that may be rejected.
ghost use Rattle.std.specs.Prelude.{◌≡◌, true};
ghost use Rattle.p3_driver_core.specs.Rejecting.{Rule};
ghost use Rattle.p3_script.specs.Accepting.{is_new};

/// A rule that selects the candidates that a rejecting draw keeps. Not in the Rust crate, whose drivers take a closure.
pub trait AcceptRule<T> {
    // What it takes, beside the candidates that were kept before.
    ghost rule: { Self → Rule T };

    /// Returns whether the candidate is kept, given those that were kept before it. The result depends on these two
    /// alone.
    fn accepts(&self, candidate: &T, kept: &[T]) -> bool
        ensures { result ≡ rule self.now candidate.now kept.now };
}

/// Keeps every candidate. Not in the Rust crate.
#[derive(Clone, Copy, Debug)]
pub struct AcceptAll;

impl<T> AcceptRule<T> for AcceptAll {
    ghost rule = { λ _ _ _. true };

    fn accepts(&self, _candidate: &T, _kept: &[T]) -> bool {
        true
    }
}

/// Keeps a candidate that differs from all kept before it. Not in the Rust crate.
#[derive(Clone, Copy, Debug)]
pub struct Distinct;

impl<T: PartialEq> AcceptRule<T> for Distinct {
    ghost rule = { λ _ candidate kept. is_new T.eq candidate kept };

    fn accepts(&self, candidate: &T, kept: &[T]) -> bool {
        !kept.contains(candidate)
    }
}
