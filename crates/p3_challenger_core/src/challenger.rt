//! The promises of every challenger, as traits.
//!
//! [`CanObserve`] takes a value and feeds the challenger its symbols. [`CanSample`] draws a value by the challenger's
//! smallest draws. Contracts describe both on one state, which [`Sponge`] names:
//!
//! ```text
//! observe x:   s  ->  fed s (symbols of x)
//! sample:      s  ->  sampled s, and the state after some number of smallest draws
//! ```
ghost use Rattle.std.specs.Prelude.{◌≡◌, List, [], ◌++◌, Some, OnOk, IfOk, IfErr, ◌<◌, ◌≤◌, ◌^◌, ℕ, length};
ghost use Rattle.p3_challenger_core.specs.Observation.{Observation, IsObservation, observed_all, LeavesInCalls};
ghost use Rattle.p3_challenger_core.specs.{Observation.RefusesObserve, Sampling.{RefusesDraws, RefusesDrawVec}};
ghost use Rattle.p3_challenger_core.specs.Sampling.{Sampling, IsSampling, draws, after_draws, RefusesDraw};

use crate::ChallengerError;
use std::alloc::Global;

/// The view of contracts on a challenger: its state, and the symbols fed to it.
///
/// Not in the Rust crate.
pub trait Sponge {
    /// The challenger's state as contracts see it.
    type State;

    /// The type of one symbol that it absorbs.
    type Symbol;

    // The state of a challenger.
    ghost state: { Self → Self.State };

    // The state after symbols.
    ghost fed: { Self.State → List Self.Symbol → Self.State };

    // The state after one of the smallest draws, which every draw is made of.
    ghost next: { Self.State → Self.State };

    // Feeding nothing changes nothing, and feeding two lists in turn is feeding both as one.
    ghost fed_nothing: { (s : Self.State) → fed s [] ≡ s };

    ghost fed_more: { (s : Self.State) (a b : List Self.Symbol) →
        fed (fed s a) b ≡ fed s (a ++ b) };
}

/// A challenger that observes values of a type.
///
/// Corresponds to the Rust crate's `CanObserve`.
pub trait CanObserve<T>: Sponge {
    // What a value feeds, the state after it, and what is left of a state where it is refused.
    ghost observation: { Observation Self.State Self.Symbol T };

    // What is left of a state where a slice of these values is refused.
    ghost slice_may_leave: { Self.State → List T → Self.State → Type 0 };

    /// Observes a value, on which every later draw depends.
    ///
    /// The one error is [`ChallengerError::OutOfMemory`]. After it a prefix of the value's symbols is fed, possibly
    /// none; each challenger says which.
    fn observe(&mut self, value: T) -> Result<(), ChallengerError>
        ensures ok { OnOk result
            (Self.state self.new ≡ observation.observed (Self.state self.old) value) }
        ensures err { IfErr result (λ e. RefusesObserve
            (observation.may_leave (Self.state self.old) value) e (Self.state self.new)) };

    /// Observes values in order, as [`observe`](CanObserve::observe) of each does. Here each challenger implements it,
    /// for values of any type.
    ///
    /// The one error is [`ChallengerError::OutOfMemory`]. After it a prefix of the values is observed, and a prefix of
    /// the next one's symbols is fed.
    fn observe_slice(&mut self, values: &[T]) -> Result<(), ChallengerError>
        ensures ok { OnOk result (Self.state self.new
            ≡ observed_all observation.observed (Self.state self.old) values.now) }
        ensures err { IfErr result (λ e. RefusesObserve
            (slice_may_leave (Self.state self.old) values.now) e (Self.state self.new)) };

    // What is observed is what is fed, and a refused value has fed a front of it.
    ghost observes: { IsObservation Self.fed observation };

    // A refused slice leaves what its values, observed one by one, may leave: a front of them is observed, and
    // a front of what the next one feeds is fed.
    ghost slice_leaves: { (s : Self.State) (xs : List T) (t : Self.State) →
        slice_may_leave s xs t → LeavesInCalls observation.observed observation.may_leave s xs t };
}

/// A challenger that draws values of a type.
///
/// Corresponds to the Rust crate's `CanSample`. Its `sample_array` is a function here,
/// [`sample_array`](crate::sample_array).
pub trait CanSample<T: Drop>: Sponge {
    // What a draw gives, the state after it, and when it is refused and what it leaves then.
    ghost sampling: { Sampling Self.State T };

    /// Draws a value, which depends on everything observed so far.
    ///
    /// The errors are [`ChallengerError::OutOfMemory`] and [`ChallengerError::DrawLimit`]. After the former some number
    /// of smallest draws is done, possibly none. The latter comes where as many candidates as the challenger's limit
    /// allows were drawn and rejected; they are consumed then.
    fn sample(&mut self) -> Result<T, ChallengerError>
        ensures drawn { IfOk result (λ x. sampling.sampled (Self.state self.old) ≡ Some x) }
        ensures after { OnOk result (Self.state self.new ≡ sampling.after (Self.state self.old)) }
        ensures err { IfErr result
            (λ e. RefusesDraw sampling e (Self.state self.old) (Self.state self.new)) };

    /// Draws a value for each place, in order, as [`sample`](CanSample::sample) of each does.
    ///
    /// The errors are those of `sample`. After an error the draws before the refused one are done, and the contents of
    /// the places are unspecified.
    fn sample_into_slice(&mut self, values: &mut [T]) -> Result<(), ChallengerError>
        ensures drawn { OnOk result
            (draws sampling (length values.old) (Self.state self.old) ≡ Some values.new) }
        ensures after { OnOk result
            (Self.state self.new ≡ after_draws sampling (length values.old) (Self.state self.old)) }
        ensures err { IfErr result (λ e. RefusesDraws
            sampling (length values.old) e (Self.state self.old) (Self.state self.new)) }
    {
        for i in 0..values.len() {
            values[i] = self.sample()?;
        }
        Ok(())
    }

    /// Draws `n` values in order, as [`sample`](CanSample::sample) of each does. Memory for them is allocated first.
    ///
    /// The errors are those of `sample`, and [`ChallengerError::OutOfMemory`] with nothing drawn.
    fn sample_vec(&mut self, alloc: Global, n: usize) -> Result<Vec<T>, ChallengerError>
        ensures drawn { IfOk result
            (λ values. draws sampling n (Self.state self.old) ≡ Some values.items) }
        ensures after { OnOk result
            (Self.state self.new ≡ after_draws sampling n (Self.state self.old)) }
        ensures err { IfErr result
            (λ e. RefusesDrawVec sampling n e (Self.state self.old) (Self.state self.new)) }
    {
        let mut values = Vec::with_capacity(alloc, n)?;
        for _ in 0..n {
            values.push_reserved(self.sample()?);
        }
        Ok(values)
    }

    // A draw that meets the limit gives nothing, and each draw takes some number of the smallest ones.
    ghost samples: { IsSampling Self.next sampling };
}

/// A challenger that ends in a digest of everything observed.
///
/// Corresponds to the Rust crate's `CanFinalizeDigest`.
pub trait CanFinalizeDigest: Sponge {
    /// The type of the final digest.
    type Digest;

    // The digest of a state.
    ghost digest_of: { Self.State → Self.Digest };

    /// Spends the challenger and returns its digest.
    fn finalize(self) -> Self::Digest
        ensures { result ≡ digest_of (Self.state self) };
}

/// A challenger that draws numbers of a given bit width.
///
/// Corresponds to the Rust crate's `CanSampleBits`.
pub trait CanSampleBits<T>: Sponge {
    // The most bits that one draw may ask for.
    ghost most_bits: { ℕ };

    // A draw of so many bits.
    ghost bits_sampling: { ℕ → Sampling Self.State T };

    // The number that a drawn value is.
    ghost number: { T → ℕ };

    /// Returns the greatest number of bits of one draw, below 64. Not in the Rust crate, where too many bits panic.
    fn max_bits() -> usize
        ensures { result ≡ most_bits };

    /// Draws a number of `bits` bits, below `2^bits`. `bits` is at most [`max_bits`](CanSampleBits::max_bits).
    ///
    /// The errors are those of [`CanSample::sample`], with the same state after them.
    fn sample_bits(&mut self, bits: usize) -> Result<T, ChallengerError>
        requires { bits ≤ most_bits }
        ensures drawn { IfOk result
            (λ x. (bits_sampling bits).sampled (Self.state self.old) ≡ Some x) }
        ensures after { OnOk result
            (Self.state self.new ≡ (bits_sampling bits).after (Self.state self.old)) }
        ensures err { IfErr result
            (λ e. RefusesDraw (bits_sampling bits) e (Self.state self.old) (Self.state self.new)) };

    // Each of these draws is made of the smallest ones.
    ghost samples_bits: { (bits : ℕ) → IsSampling Self.next (bits_sampling bits) };

    // Values of one number are one value.
    ghost number_tells: { (x y : T) → number x ≡ number y → x ≡ y };

    // A draw of so many bits is below that power of two.
    ghost bits_below: { (bits : ℕ) (s : Self.State) (x : T) → bits ≤ most_bits →
        (bits_sampling bits).sampled s ≡ Some x → number x < 2 ^ bits };

    ghost most_bits_short: { most_bits < 64 };
}
