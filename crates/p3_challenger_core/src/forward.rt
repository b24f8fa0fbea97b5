//! A reference to a challenger is a challenger: it forwards each call.

use crate::{CanObserve, CanSample, CanSampleBits, ChallengerError, FieldChallenger, Sponge};
use p3_field_core::Field;
use std::alloc::Global;

impl<C: Sponge> Sponge for &mut C {
    type State = C::State;

    type Symbol = C::Symbol;

    ghost state = { λ c. C.state c.now };

    ghost fed = { C.fed };

    ghost next = { C.next };

    ghost fed_nothing = { C.fed_nothing };

    ghost fed_more = { C.fed_more };
}

impl<T, C: CanObserve<T>> CanObserve<T> for &mut C {
    ghost observation = { C.observation };

    ghost slice_may_leave = { C.slice_may_leave };

    ghost observes = { C.observes };

    ghost slice_leaves = { C.slice_leaves };

    fn observe(&mut self, value: T) -> Result<(), ChallengerError> {
        (**self).observe(value)
    }

    fn observe_slice(&mut self, values: &[T]) -> Result<(), ChallengerError> {
        (**self).observe_slice(values)
    }
}

impl<T: Drop, C: CanSample<T>> CanSample<T> for &mut C {
    ghost sampling = { C.sampling };

    ghost samples = { C.samples };

    fn sample(&mut self) -> Result<T, ChallengerError> {
        (**self).sample()
    }

    fn sample_into_slice(&mut self, values: &mut [T]) -> Result<(), ChallengerError> {
        (**self).sample_into_slice(values)
    }

    fn sample_vec(&mut self, alloc: Global, n: usize) -> Result<Vec<T>, ChallengerError> {
        (**self).sample_vec(alloc, n)
    }
}

impl<T, C: CanSampleBits<T>> CanSampleBits<T> for &mut C {
    ghost most_bits = { C.most_bits };

    ghost bits_sampling = { C.bits_sampling };

    ghost number = { C.number };

    ghost samples_bits = { C.samples_bits };

    ghost number_tells = { C.number_tells };

    ghost bits_below = { C.bits_below };

    ghost most_bits_short = { C.most_bits_short };

    fn max_bits() -> usize {
        C::max_bits()
    }

    fn sample_bits(&mut self, bits: usize) -> Result<T, ChallengerError> {
        (**self).sample_bits(bits)
    }
}

impl<F: Field, C: FieldChallenger<F>> FieldChallenger<F> for &mut C {}
