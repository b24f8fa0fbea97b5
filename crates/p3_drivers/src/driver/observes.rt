//! The steps by which both sides observe values that the proof does not carry.
ghost use Rattle.std.specs.Prelude.{◌≡◌, ◌≤◌, length, IfOk, vec_len};
ghost use Rattle.p3_driver_core.specs.{Bound.{bound_value, bound_values}, Transcripts.opaque_step};
ghost use Rattle.p3_drivers.specs.Drivers.{Keeps};
ghost use Rattle.p3_fs_core.specs.declared.step.{Kind.TheVariants.Message, Length.TheVariants.{Bounded, Fixed, Scalar}};
ghost use Rattle.p3_driver_core.specs.Meanings as meaning;

use crate::DriverState;
use crate::tape::Tape;
use p3_challenger_core::{CanObserve, Sponge};
use p3_codecs::{AlphabetOf, Codec, ExtensionFieldCodec, ScalarCodec, Unit};
use p3_driver_core::{TranscriptBound, bind_all, observe_count, observe_values};
use p3_field_core::{AlgebraIdentity, Named};
use p3_fs_core::{
    Declared, Hierarchy, Interaction, Kind, Label, Length, TranscriptError, TranscriptField,
};
use p3_symmetric::DigestHasher;

impl<C: Sponge, U, D: DigestHasher, P: Tape> DriverState<C, U, D, P> {
    /// Observes one element of an extension that the proof does not carry.
    pub fn observe_extension<
        F: TranscriptField,
        EF: AlgebraIdentity<F> + Named,
        Cdc: ScalarCodec<C, F>,
    >(&mut self, label: Label, value: &EF) -> Result<TranscriptBound<EF>, TranscriptError>
        ensures { Keeps C.state P.bytes
            (meaning.observed (⟦<EF as Declared<F, D>>⟧.step Message label.now Scalar)
            ⟦<ExtensionFieldCodec<F, EF, Cdc> as Codec<C, EF>>⟧.observation value.now)
            self.old bound_value result self.new }
    {
        self.observe_element::<F, EF, ExtensionFieldCodec<F, EF, Cdc>>(Kind::Message, label, value)
    }

    /// Observes a value that the proof does not carry, in the challenger's own way.
    ///
    /// Condition: clones of the value equal the value. The Rust crate does not require this.
    pub fn observe_opaque<T: Clone>(
        &mut self,
        label: Label,
        value: T,
    ) -> Result<TranscriptBound<T>, TranscriptError>
    where
        C: CanObserve<T>,
        requires { (copy : T) → T.is_clone value copy → copy ≡ value }
        ensures { Keeps C.state P.bytes (meaning.observed (opaque_step Message label.now Scalar)
            C.observation value) self.old bound_value result self.new }
    {
        self.steps.take(Interaction::opaque(
            Hierarchy::Atomic,
            Kind::Message,
            label,
            Length::Scalar,
        ))?;
        let copy = value.clone()?;
        self.challenger.observe(copy)?;
        Ok(self.steps.bind(value))
    }

    // Observes one element of an algebra.
    pub(super) fn observe_element<
        F: TranscriptField,
        A: AlgebraIdentity<F> + Named,
        Cdc: Codec<C, A>,
    >(&mut self, kind: Kind, label: Label, value: &A) -> Result<TranscriptBound<A>, TranscriptError>
        ensures { Keeps C.state P.bytes (meaning.observed (⟦<A as Declared<F, D>>⟧.step
            kind label.now Scalar) Cdc.observation value.now) self.old bound_value result self.new }
    {
        self.steps
            .take_algebra::<F, A>(kind, label, Length::Scalar)?;
        Cdc::observe(&mut self.challenger, value)?;
        Ok(self.steps.bind(*value))
    }

    // Observes a list of so many elements of an algebra as the step says.
    pub(super) fn observe_list<F: TranscriptField, A: AlgebraIdentity<F> + Named, Cdc: Codec<C, A>>(
        &mut self,
        kind: Kind,
        label: Label,
        values: &[A],
    ) -> Result<Vec<TranscriptBound<A>>, TranscriptError>
        ensures exact { Keeps C.state P.bytes (meaning.observed_list
            (⟦<A as Declared<F, D>>⟧.step kind label.now (Fixed (length values.now)))
            Cdc.observation values.now) self.old bound_values result self.new }
        ensures count { IfOk result (λ bounds. vec_len bounds ≡ length values.now) }
    {
        self.steps
            .take_algebra::<F, A>(kind, label, Length::Fixed(values.len()))?;
        let bounds = bind_all(self.alloc, values)?;
        observe_values::<A, C, Cdc>(&mut self.challenger, values)?;
        self.steps.done();
        Ok(bounds)
    }
}

impl<U: Unit, C: CanObserve<U::Item>, D: DigestHasher, P: Tape> DriverState<C, U, D, P> {
    // Observes a list of at most `max` elements of an algebra, after its count.
    //
    // Conditions: `U` is an alphabet, and there are at most `max` values.
    pub(super) fn observe_counted<
        F: TranscriptField,
        A: AlgebraIdentity<F> + Named,
        Cdc: Codec<C, A>,
    >(
        &mut self,
        kind: Kind,
        label: Label,
        values: &[A],
        max: usize,
    ) -> Result<Vec<TranscriptBound<A>>, TranscriptError>
        requires alphabet { U.is_alphabet }
        requires within { length values.now ≤ max }
        ensures exact { Keeps C.state P.bytes
            (meaning.observed_bounded (⟦<A as Declared<F, D>>⟧.step kind label.now (Bounded max))
            ⟦<U as AlphabetOf<C>>⟧.alphabet max Cdc.observation values.now)
            self.old bound_values result self.new }
        ensures count { IfOk result (λ bounds. vec_len bounds ≡ length values.now) }
    {
        self.steps
            .take_algebra::<F, A>(kind, label, Length::Bounded(max))?;
        let bounds = bind_all(self.alloc, values)?;
        observe_count::<U, C>(&mut self.challenger, values.len(), max)?;
        observe_values::<A, C, Cdc>(&mut self.challenger, values)?;
        self.steps.done();
        Ok(bounds)
    }
}
