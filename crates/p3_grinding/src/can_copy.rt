//! A challenger that is copied once, and reset for each candidate without further memory.
ghost use Rattle.std.specs.Prelude.{◌≡◌, OnOk, IfOk, IfErr};
ghost use Rattle.p3_challenger_core.specs.declared.error.ChallengerError.TheVariants.{OutOfMemory};

use p3_challenger_core::{ChallengerError, Sponge};

/// A challenger that can be copied, and set to the state of another one. A search tries its candidates on one copy.
///
/// The Rust crate requires `Clone` instead, which returns no error.
pub trait CanCopy: Sponge + Drop {
    // Memory may be refused for a copy.
    ghost copies_may_fail: { Type 0 };

    /// Returns an equal challenger, which shares nothing with this one.
    ///
    /// The one error is [`ChallengerError::OutOfMemory`].
    fn copy(&self) -> Result<Self, ChallengerError>
        ensures ok { IfOk result (λ c. Self.state c ≡ Self.state self.now) }
        ensures err { IfErr result (λ e. copies_may_fail × (e ≡ OutOfMemory)) };

    /// Makes this challenger equal to the other one. The call takes memory only where this challenger's own does
    /// not suffice.
    ///
    /// The one error is [`ChallengerError::OutOfMemory`], after which the state of this challenger is unspecified.
    fn copy_from(&mut self, other: &Self) -> Result<(), ChallengerError>
        ensures ok { OnOk result (Self.state self.new ≡ Self.state other.now) }
        ensures err { IfErr result (λ e. copies_may_fail × (e ≡ OutOfMemory)) };
}
