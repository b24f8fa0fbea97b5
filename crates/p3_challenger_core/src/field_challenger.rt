//! Elements of vector spaces over a challenger's field, which are observed and drawn by their coefficients, coefficient
//! 0 first.
ghost use Rattle.std.specs.Prelude.{◌≡◌, ◌-◌, ◌∷◌, Some, OnOk, IfOk, IfErr, replicate};
ghost use Rattle.p3_challenger_core.specs.Observation.{observed_all, each_as, in_slice, RefusesObserve, RefusesValue};
ghost use Rattle.p3_challenger_core.specs.Sampling.{draws, after_draws, RefusesDraws};

use crate::{CanObserve, CanSample, CanSampleBits, ChallengerError};
use p3_field_core::{Algebra, BasedVectorSpace, Field};

/// A challenger of the elements of a field, and of the vector spaces over it.
///
/// Corresponds to the Rust crate's `FieldChallenger`, which is also `Sync`.
pub trait FieldChallenger<F: Field>: CanObserve<F> + CanSample<F> + CanSampleBits<usize> {
    /// Observes the coefficients of an element, in the order of the basis.
    ///
    /// The one error is [`ChallengerError::OutOfMemory`]. It leaves what [`observe_slice`](CanObserve::observe_slice)
    /// of the coefficients leaves.
    fn observe_algebra_element<A: BasedVectorSpace<F>>(
        &mut self,
        element: A,
    ) -> Result<(), ChallengerError>
        ensures ok { OnOk result (Self.state self.new ≡ observed_all Self.observation.observed
            (Self.state self.old) (A.coefficients element)) }
        ensures err { IfErr result (λ e. RefusesObserve (Self.slice_may_leave
            (Self.state self.old) (A.coefficients element)) e (Self.state self.new)) }
    {
        self.observe_slice(element.as_basis_coefficients_slice())
    }

    /// Observes elements in order, as [`observe_algebra_element`](FieldChallenger::observe_algebra_element) of each
    /// does.
    ///
    /// The one error is [`ChallengerError::OutOfMemory`]. After it the elements before the refused one are observed,
    /// plus what the refused observation leaves.
    fn observe_algebra_slice<A: BasedVectorSpace<F>>(
        &mut self,
        elements: &[A],
    ) -> Result<(), ChallengerError>
        ensures ok { OnOk result (Self.state self.new ≡ (each_as A.coefficients (in_slice
            Self.observation Self.slice_may_leave)).observed (Self.state self.old) elements.now) }
        ensures err { IfErr result (λ e. RefusesValue
            (each_as A.coefficients (in_slice Self.observation Self.slice_may_leave)) elements.now e
            (Self.state self.old) (Self.state self.new)) }
    {
        for i in 0..elements.len() {
            self.observe_algebra_element(elements[i])?;
        }
        Ok(())
    }

    /// Draws the coefficients of an element, coefficient 0 first.
    ///
    /// The errors are those of [`CanSample::sample`]. After an error the draws before the refused one are done.
    fn sample_algebra_element<A: BasedVectorSpace<F>>(&mut self) -> Result<A, ChallengerError>
        ensures drawn { IfOk result (λ element.
            draws Self.sampling A.DIMENSION (Self.state self.old) ≡ Some (A.coefficients element)) }
        ensures after { OnOk result
            (Self.state self.new ≡ after_draws Self.sampling A.DIMENSION (Self.state self.old)) }
        ensures err { IfErr result (λ e. RefusesDraws
            Self.sampling A.DIMENSION e (Self.state self.old) (Self.state self.new)) }
    {
        let mut element = A::zero();
        for i in 0..A::DIMENSION {
            element = element.with_coefficient(i, self.sample()?);
        }
        Ok(element)
    }

    /// Observes a value of the field as an element of an algebra: the value is coefficient 0, and the others are zeros.
    ///
    /// The one error is [`ChallengerError::OutOfMemory`]. It leaves what [`observe_slice`](CanObserve::observe_slice)
    /// of the coefficients leaves.
    fn observe_base_as_algebra_element<A: Algebra<F>>(
        &mut self,
        value: F,
    ) -> Result<(), ChallengerError>
        ensures ok { OnOk result (Self.state self.new ≡ observed_all Self.observation.observed
            (Self.state self.old) (value ∷ replicate (A.DIMENSION - 1) (F.residues.of 0))) }
        ensures err { IfErr result (λ e. RefusesObserve (Self.slice_may_leave (Self.state self.old)
            (value ∷ replicate (A.DIMENSION - 1) (F.residues.of 0))) e (Self.state self.new)) }
    {
        self.observe_algebra_element(A::from(value))
    }
}
