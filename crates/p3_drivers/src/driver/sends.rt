//! The prover's steps that write into the proof, and those that observe values known to both sides.
ghost use Rattle.std.specs.Prelude.{◌≡◌, ◌≤◌, length, IfOk, vec_len};
ghost use Rattle.p3_driver_core.specs.Bound.{bound_value, bound_values};
ghost use Rattle.p3_driver_core.specs.Meanings as meaning;
ghost use Rattle.p3_driver_core.specs.{Driving.KeepsOrRefuses, Proving.{WritesWithin, KeepsWithin}};
ghost use Rattle.p3_drivers.specs.Drivers.{proving_of, AddsOrRefuses};
ghost use Rattle.p3_fs_core.specs.declared.step.Kind.TheVariants.{Message, Public, Salt};
ghost use Rattle.p3_fs_core.specs.declared.step.Length.TheVariants.{Bounded, Fixed, Scalar};

use crate::ProverState;
use crate::writing::{write_bytes, write_counted_bytes, write_counted_values, write_values};
use p3_challenger_core::{CanObserve, Sponge};
use p3_codecs::{AlphabetOf, Codec, ExtensionFieldCodec, ScalarCodec, Unit};
use p3_driver_core::{TranscriptBound, bind_all, counted, observe_values};
use p3_field_core::{AlgebraIdentity, Named, ScalarField};
use p3_fs_core::{Declared, Kind, Label, Length, TranscriptError, TranscriptField};
use p3_symmetric::DigestHasher;

impl<U: Unit, C: CanObserve<U::Item>, D: DigestHasher> ProverState<C, U, D> {
    /// Observes at most `max` elements of an extension that the proof does not carry, after their count.
    ///
    /// A longer list is refused with [`PatternError::OverCap`](p3_fs_core::PatternError::OverCap), and nothing is
    /// done. Condition: `U` is an alphabet.
    pub fn observe_extensions_bounded<
        F: TranscriptField,
        EF: AlgebraIdentity<F> + Named,
        Cdc: ScalarCodec<C, F>,
    >(
        &mut self,
        label: Label,
        values: &[EF],
        max: usize,
    ) -> Result<Vec<TranscriptBound<EF>>, TranscriptError>
        requires { U.is_alphabet }
        ensures exact { KeepsWithin (length values.now) max
            (meaning.observed_bounded (⟦<EF as Declared<F, D>>⟧.step Message label.now
            (Bounded max)) ⟦<U as AlphabetOf<C>>⟧.alphabet max
            ⟦<ExtensionFieldCodec<F, EF, Cdc> as Codec<C, EF>>⟧.observation values.now)
            (proving_of C.state self.old) bound_values result (proving_of C.state self.new) }
        ensures count { IfOk result (λ bounds. vec_len bounds ≡ length values.now) }
    {
        self.steps.within(values.len(), max)?;
        self.observe_counted::<F, EF, ExtensionFieldCodec<F, EF, Cdc>>(
            Kind::Message,
            label,
            values,
            max,
        )
    }

    /// Observes at most `max` scalars that both sides know, after their count.
    ///
    /// A longer list is refused with [`PatternError::OverCap`](p3_fs_core::PatternError::OverCap), and nothing is
    /// done. Condition: `U` is an alphabet. Not in the Rust crate.
    pub fn add_public_scalars_bounded<F: ScalarField, Cdc: Codec<C, F>>(
        &mut self,
        label: Label,
        values: &[F],
        max: usize,
    ) -> Result<Vec<TranscriptBound<F>>, TranscriptError>
        requires { U.is_alphabet }
        ensures exact { KeepsWithin (length values.now) max
            (meaning.observed_bounded (⟦<F as Declared<F, D>>⟧.step Public label.now (Bounded max))
            ⟦<U as AlphabetOf<C>>⟧.alphabet max Cdc.observation values.now)
            (proving_of C.state self.old) bound_values result (proving_of C.state self.new) }
        ensures count { IfOk result (λ bounds. vec_len bounds ≡ length values.now) }
    {
        let count = values.len();
        self.steps.within(count, max)?;
        self.observe_counted::<F, F, Cdc>(Kind::Public, label, values, max)
    }

    /// Sends bytes that hide what is sent later.
    ///
    /// Condition: `U` is an alphabet. Bytes that are too long for the alphabet are refused with
    /// [`ChallengerError::TooLong`](p3_challenger_core::ChallengerError::TooLong), and none of them is absorbed.
    pub fn add_salt(&mut self, label: Label, bytes: &[u8]) -> Result<(), TranscriptError>
        requires { U.is_alphabet }
        ensures { AddsOrRefuses C.state (meaning.sent_bytes Salt label.now
            ⟦<U as AlphabetOf<C>>⟧.alphabet bytes.now) self.old (λ _. bytes.now) result self.new }
    {
        self.send_bytes(Kind::Salt, label, bytes)
    }

    /// Sends bytes, as many as the step says.
    ///
    /// Condition: `U` is an alphabet. Bytes that are too long for the alphabet are refused with
    /// [`ChallengerError::TooLong`](p3_challenger_core::ChallengerError::TooLong), and none of them is absorbed.
    pub fn add_bytes(&mut self, label: Label, bytes: &[u8]) -> Result<(), TranscriptError>
        requires { U.is_alphabet }
        ensures { AddsOrRefuses C.state (meaning.sent_bytes Message label.now
            ⟦<U as AlphabetOf<C>>⟧.alphabet bytes.now) self.old (λ _. bytes.now) result self.new }
    {
        self.send_bytes(Kind::Message, label, bytes)
    }

    /// Sends at most `max` bytes, after their count.
    ///
    /// More bytes are refused with [`PatternError::OverCap`](p3_fs_core::PatternError::OverCap), and nothing is
    /// done. Condition: `U` is an alphabet. Bytes that are too long for the alphabet are refused with
    /// [`ChallengerError::TooLong`](p3_challenger_core::ChallengerError::TooLong), after their count is absorbed.
    pub fn add_bytes_bounded(
        &mut self,
        label: Label,
        bytes: &[u8],
        max: usize,
    ) -> Result<(), TranscriptError>
        requires { U.is_alphabet }
        ensures { WritesWithin (length bytes.now) max (meaning.sent_bytes_bounded
            Message label.now ⟦<U as AlphabetOf<C>>⟧.alphabet max bytes.now)
            (proving_of C.state self.old) (λ _. bytes.now) result (proving_of C.state self.new) }
    {
        self.steps.within(bytes.len(), max)?;
        self.send_counted_bytes(label, bytes, max)
    }

    /// Sends at most `max` scalars, after their count.
    ///
    /// More scalars are refused with [`PatternError::OverCap`](p3_fs_core::PatternError::OverCap), and nothing is
    /// done. Condition: `U` is an alphabet.
    pub fn add_scalars_bounded<F: ScalarField, Cdc: Codec<C, F>>(
        &mut self,
        label: Label,
        values: &[F],
        max: usize,
    ) -> Result<Vec<TranscriptBound<F>>, TranscriptError>
        requires { U.is_alphabet }
        ensures exact { WritesWithin (length values.now) max
            (meaning.sent_bounded (⟦<F as Declared<F, D>>⟧.step Message label.now (Bounded max))
            ⟦<U as AlphabetOf<C>>⟧.alphabet max Cdc.observation Cdc.encoding values.now)
            (proving_of C.state self.old) bound_values result (proving_of C.state self.new) }
        ensures count { IfOk result (λ bounds. vec_len bounds ≡ length values.now) }
    {
        self.steps.within(values.len(), max)?;
        self.send_counted::<F, Cdc>(label, values, max)
    }

    // Sends bytes in a step of the kind.
    #[tactic(auto, using(crate::proofs::Pieces::unwritten))]
    fn send_bytes(&mut self, kind: Kind, label: Label, bytes: &[u8]) -> Result<(), TranscriptError>
        requires { U.is_alphabet }
        ensures { AddsOrRefuses C.state (meaning.sent_bytes kind label.now
            ⟦<U as AlphabetOf<C>>⟧.alphabet bytes.now) self.old (λ _. bytes.now) result self.new }
    {
        self.steps
            .take_bytes(kind, label, Length::Fixed(bytes.len()))?;
        U::observe_bytes(&mut self.challenger, bytes)?;
        write_bytes(&mut self.tape.narg, bytes)?;
        self.steps.done();
        Ok(())
    }

    // Sends bytes after their count.
    #[tactic(auto, using(crate::proofs::Pieces::unwritten))]
    fn send_counted_bytes(
        &mut self,
        label: Label,
        bytes: &[u8],
        max: usize,
    ) -> Result<(), TranscriptError>
        requires alphabet { U.is_alphabet }
        requires within { length bytes.now ≤ max }
        ensures { AddsOrRefuses C.state (meaning.sent_bytes_bounded Message label.now
            ⟦<U as AlphabetOf<C>>⟧.alphabet max bytes.now)
            self.old (λ _. bytes.now) result self.new }
    {
        self.steps
            .take_bytes(Kind::Message, label, Length::Bounded(max))?;
        let (prefix, width) = counted(bytes.len(), max);
        U::observe_bytes(&mut self.challenger, &prefix[..width])?;
        U::observe_bytes(&mut self.challenger, bytes)?;
        write_counted_bytes(&mut self.tape.narg, &prefix[..width], bytes)?;
        self.steps.done();
        Ok(())
    }

    // Sends scalars after their count.
    #[tactic(auto, using(crate::proofs::Pieces::unwritten))]
    fn send_counted<F: ScalarField, Cdc: Codec<C, F>>(
        &mut self,
        label: Label,
        values: &[F],
        max: usize,
    ) -> Result<Vec<TranscriptBound<F>>, TranscriptError>
        requires alphabet { U.is_alphabet }
        requires within { length values.now ≤ max }
        ensures exact { AddsOrRefuses C.state
            (meaning.sent_bounded (⟦<F as Declared<F, D>>⟧.step Message label.now (Bounded max))
            ⟦<U as AlphabetOf<C>>⟧.alphabet max Cdc.observation Cdc.encoding values.now)
            self.old bound_values result self.new }
        ensures count { IfOk result (λ bounds. vec_len bounds ≡ length values.now) }
    {
        self.steps
            .take_algebra::<F, F>(Kind::Message, label, Length::Bounded(max))?;
        let bounds = bind_all(self.alloc, values)?;
        let (count, width) = counted(values.len(), max);
        U::observe_bytes(&mut self.challenger, &count[..width])?;
        observe_values::<F, C, Cdc>(&mut self.challenger, values)?;
        write_counted_values::<F, C, Cdc>(&mut self.tape.narg, &count[..width], values)?;
        self.steps.done();
        Ok(bounds)
    }
}

impl<C: Sponge, U, D: DigestHasher> ProverState<C, U, D> {
    /// Observes a scalar that both sides know.
    pub fn add_public_scalar<F: ScalarField, Cdc: Codec<C, F>>(
        &mut self,
        label: Label,
        value: &F,
    ) -> Result<TranscriptBound<F>, TranscriptError>
        ensures { KeepsOrRefuses (meaning.observed
            (⟦<F as Declared<F, D>>⟧.step Public label.now Scalar) Cdc.observation value.now)
            (proving_of C.state self.old) bound_value result (proving_of C.state self.new) }
    {
        self.observe_element::<F, F, Cdc>(Kind::Public, label, value)
    }

    /// Observes a list of scalars that both sides know, of the length that the step says.
    pub fn add_public_scalars<F: ScalarField, Cdc: Codec<C, F>>(
        &mut self,
        label: Label,
        values: &[F],
    ) -> Result<Vec<TranscriptBound<F>>, TranscriptError>
        ensures exact { KeepsOrRefuses (meaning.observed_list (⟦<F as Declared<F, D>>⟧.step
            Public label.now (Fixed (length values.now))) Cdc.observation values.now)
            (proving_of C.state self.old) bound_values result (proving_of C.state self.new) }
        ensures count { IfOk result (λ bounds. vec_len bounds ≡ length values.now) }
    {
        self.observe_list::<F, F, Cdc>(Kind::Public, label, values)
    }

    /// Observes a list of elements of an extension that the proof does not carry, of the length that the step says.
    pub fn observe_extensions<
        F: TranscriptField,
        EF: AlgebraIdentity<F> + Named,
        Cdc: ScalarCodec<C, F>,
    >(&mut self, label: Label, values: &[EF]) -> Result<Vec<TranscriptBound<EF>>, TranscriptError>
        ensures exact { KeepsOrRefuses (meaning.observed_list
            (⟦<EF as Declared<F, D>>⟧.step Message label.now (Fixed (length values.now)))
            ⟦<ExtensionFieldCodec<F, EF, Cdc> as Codec<C, EF>>⟧.observation values.now)
            (proving_of C.state self.old) bound_values result (proving_of C.state self.new) }
        ensures count { IfOk result (λ bounds. vec_len bounds ≡ length values.now) }
    {
        self.observe_list::<F, EF, ExtensionFieldCodec<F, EF, Cdc>>(Kind::Message, label, values)
    }

    /// Sends one scalar.
    pub fn add_scalar<F: ScalarField, Cdc: Codec<C, F>>(
        &mut self,
        label: Label,
        value: &F,
    ) -> Result<TranscriptBound<F>, TranscriptError>
        ensures { AddsOrRefuses C.state
            (meaning.sent (⟦<F as Declared<F, D>>⟧.step Message label.now Scalar) Cdc.observation
            Cdc.encoding value.now) self.old bound_value result self.new }
    {
        self.send::<F, F, Cdc>(label, value)
    }

    /// Sends scalars, as many as the step says.
    #[tactic(auto, using(crate::proofs::Pieces::unwritten))]
    pub fn add_scalars<F: ScalarField, Cdc: Codec<C, F>>(
        &mut self,
        label: Label,
        values: &[F],
    ) -> Result<Vec<TranscriptBound<F>>, TranscriptError>
        ensures exact { AddsOrRefuses C.state (meaning.sent_list (⟦<F as Declared<F, D>>⟧.step
            Message label.now (Fixed (length values.now))) Cdc.observation Cdc.encoding values.now)
            self.old bound_values result self.new }
        ensures count { IfOk result (λ bounds. vec_len bounds ≡ length values.now) }
    {
        self.steps
            .take_algebra::<F, F>(Kind::Message, label, Length::Fixed(values.len()))?;
        let bounds = bind_all(self.alloc, values)?;
        observe_values::<F, C, Cdc>(&mut self.challenger, values)?;
        write_values::<F, C, Cdc>(&mut self.tape.narg, values)?;
        self.steps.done();
        Ok(bounds)
    }

    /// Sends one element of an extension, by its coefficients.
    pub fn add_extension<
        F: TranscriptField,
        EF: AlgebraIdentity<F> + Named,
        Cdc: ScalarCodec<C, F>,
    >(&mut self, label: Label, value: &EF) -> Result<TranscriptBound<EF>, TranscriptError>
        ensures { let codec = ⟦<ExtensionFieldCodec<F, EF, Cdc> as Codec<C, EF>>⟧ in AddsOrRefuses
            C.state (meaning.sent (⟦<EF as Declared<F, D>>⟧.step Message label.now Scalar)
            codec.observation codec.encoding value.now) self.old bound_value result self.new }
    {
        self.send::<F, EF, ExtensionFieldCodec<F, EF, Cdc>>(label, value)
    }

    /// Sends bytes that the challenger does not observe, as many as the step says.
    pub fn add_hint(&mut self, label: Label, bytes: &[u8]) -> Result<(), TranscriptError>
        ensures { AddsOrRefuses C.state (meaning.hinted {Symbol = C.Symbol} label.now bytes.now)
            self.old (λ _. bytes.now) result self.new }
    {
        self.steps
            .take_bytes(Kind::Hint, label, Length::Fixed(bytes.len()))?;
        write_bytes(&mut self.tape.narg, bytes)?;
        self.steps.done();
        Ok(())
    }

    /// Sends at most `max` bytes that the challenger does not observe, after their count.
    ///
    /// More bytes are refused with [`PatternError::OverCap`](p3_fs_core::PatternError::OverCap), and nothing is
    /// done.
    pub fn add_hint_bounded(
        &mut self,
        label: Label,
        bytes: &[u8],
        max: usize,
    ) -> Result<(), TranscriptError>
        ensures { WritesWithin (length bytes.now) max
            (meaning.hinted_bounded {Symbol = C.Symbol} label.now max bytes.now)
            (proving_of C.state self.old) (λ _. bytes.now) result (proving_of C.state self.new) }
    {
        self.steps.within(bytes.len(), max)?;
        self.steps
            .take_bytes(Kind::Hint, label, Length::Bounded(max))?;
        let (prefix, width) = counted(bytes.len(), max);
        write_counted_bytes(&mut self.tape.narg, &prefix[..width], bytes)?;
        self.steps.done();
        Ok(())
    }

    // Sends one element of an algebra.
    #[tactic(auto, using(crate::proofs::Pieces::unwritten))]
    fn send<F: TranscriptField, A: AlgebraIdentity<F> + Named, Cdc: Codec<C, A>>(
        &mut self,
        label: Label,
        value: &A,
    ) -> Result<TranscriptBound<A>, TranscriptError>
        ensures { AddsOrRefuses C.state
            (meaning.sent (⟦<A as Declared<F, D>>⟧.step Message label.now Scalar) Cdc.observation
            Cdc.encoding value.now) self.old bound_value result self.new }
    {
        self.steps
            .take_algebra::<F, A>(Kind::Message, label, Length::Scalar)?;
        Cdc::observe(&mut self.challenger, value)?;
        Cdc::encode(value, &mut self.tape.narg)?;
        Ok(self.steps.bind(*value))
    }
}
