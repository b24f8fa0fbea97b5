//! Draws of uniform bits. A drawn value at or above a multiple of 2^bits is rejected, and either replaced by another
//! draw or reported as an error.
ghost use Rattle.std.specs.Prelude.{◌≡◌, ◌^◌, ◌<◌, ◌≤◌, ℕ, Bool, Some};
ghost use Rattle.p3_grinding.specs.UniformDraws.{UniformDraw, IsUniformDraw, DrawsUniformly};

use crate::UniformBitsError;
use p3_challenger_core::CanSampleBits;

/// A challenger that draws uniform bits: it rejects drawn values so that the remaining ones give each value of the bits
/// equally often. `F` is the field of the challenger. This trait does not promise that no value of the bits is
/// favoured; each challenger promises that for its own draws.
///
/// Corresponds to the Rust crate's `CanSampleUniformBits`.
pub trait CanSampleUniformBits<F>: CanSampleBits<usize> {
    // A draw of so many bits; whether another value may be drawn in the place of a rejected one.
    ghost uniform: { Bool → ℕ → UniformDraw Self.State };

    /// Draws a number of `bits` bits, at most [`max_bits`](CanSampleBits::max_bits). `resample`, a const parameter in
    /// the Rust crate, says whether a rejected value is replaced by another draw.
    ///
    /// The errors are those of [`CanSample::sample`](p3_challenger_core::CanSample::sample), and
    /// [`UniformBitsError::Resampling`] if `resample` is false. After the latter the rejected value and those before it
    /// are consumed.
    fn sample_uniform_bits(
        &mut self,
        bits: usize,
        resample: bool,
    ) -> Result<usize, UniformBitsError>
        requires { bits ≤ Self.most_bits }
        ensures { DrawsUniformly
            (uniform resample bits) (Self.state self.old) result (Self.state self.new) };

    // Each of these draws is made of the smallest ones; a value is rejected only where no other is to be drawn.
    ghost draws_uniform: { (resample : Bool) (bits : ℕ) →
        IsUniformDraw Self.next resample (uniform resample bits) };

    // A draw of so many bits is below that power of two.
    ghost uniform_below: { (resample : Bool) (bits : ℕ) (s : Self.State) (x : ℕ) →
        bits ≤ Self.most_bits → (uniform resample bits).draw.sampled s ≡ Some x → x < 2 ^ bits };
}

impl<F, C: CanSampleUniformBits<F>> CanSampleUniformBits<F> for &mut C {
    ghost uniform = { C.uniform };

    ghost draws_uniform = { C.draws_uniform };

    ghost uniform_below = { C.uniform_below };

    fn sample_uniform_bits(
        &mut self,
        bits: usize,
        resample: bool,
    ) -> Result<usize, UniformBitsError> {
        (**self).sample_uniform_bits(bits, resample)
    }
}
