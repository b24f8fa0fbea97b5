//! The verifier's steps that read the proof, and those that observe values known to both sides.
ghost use Rattle.std.specs.Prelude.{◌≡◌, ◌≤◌, ◌↔◌, ◌*◌, IsTrue, length, IfOk, IfErr, vec_len};
ghost use Rattle.p3_challenger_core.specs.Observation.{observed_all};
ghost use Rattle.p3_driver_core.specs.{Bound.{bound_value, bound_values}, Reads.{AnswersRead, AnswersList}};
ghost use Rattle.p3_driver_core.specs.{Driving.KeepsOrRefuses, Verifying.{CarriesAsRecorded, CarriesWithin}};
ghost use Rattle.p3_drivers.specs.Drivers.{verifying_of, ReadsOrRefuses};
ghost use Rattle.p3_fs_core.specs.declared.step.{Kind.TheVariants.{Message, Public, Salt}, Length.TheVariants.Bounded};
ghost use Rattle.p3_fs_core.specs.declared.step.Length.TheVariants.{Fixed, Scalar};
ghost use Rattle.p3_driver_core.specs.Reads as reads;
ghost use Rattle.p3_driver_core.specs.Meanings as meaning;

use crate::VerifierState;
use p3_challenger_core::{CanObserve, Sponge};
use p3_codecs::{AlphabetOf, Codec, ExtensionFieldCodec, ScalarCodec, Unit};
use p3_driver_core::{TranscriptBound, bind, observe_count};
use p3_field_core::{AlgebraIdentity, Named, ScalarField};
use p3_fs_core::{
    Declared, Kind, Label, Length, TranscriptError, TranscriptField, bound_byte_width,
    decode_len_be,
};
use p3_symmetric::DigestHasher;

impl<'a, U: Unit, C: CanObserve<U::Item>, D: DigestHasher> VerifierState<'a, C, U, D> {
    /// Observes at most `max` elements of an extension that the proof does not carry, after their count.
    ///
    /// A longer list is refused with [`TranscriptError::BadProofShape`] and `list length exceeds the recorded maximum`.
    /// This holds whatever the next step is, unless a step was refused before. Nothing is absorbed then. Condition: `U`
    /// is an alphabet.
    pub fn observe_extensions_bounded<
        F: TranscriptField,
        EF: AlgebraIdentity<F> + Named,
        Cdc: ScalarCodec<C, F>,
    >(
        &mut self,
        label: Label,
        values: &[EF],
        max: usize,
    ) -> Result<Vec<TranscriptBound<EF>>, TranscriptError>
        requires { U.is_alphabet }
        ensures exact { CarriesWithin (length values.now) max
            (meaning.observed_bounded (⟦<EF as Declared<F, D>>⟧.step Message label.now
            (Bounded max)) ⟦<U as AlphabetOf<C>>⟧.alphabet max
            ⟦<ExtensionFieldCodec<F, EF, Cdc> as Codec<C, EF>>⟧.observation values.now)
            (verifying_of C.state self.old) bound_values result (verifying_of C.state self.new) }
        ensures count { IfOk result (λ bounds. vec_len bounds ≡ length values.now) }
    {
        self.steps.carried_within(values.len(), max)?;
        self.observe_counted::<F, EF, ExtensionFieldCodec<F, EF, Cdc>>(
            Kind::Message,
            label,
            values,
            max,
        )
    }

    /// Observes at most `max` scalars that both sides know, after their count.
    ///
    /// A longer list is refused with [`TranscriptError::BadProofShape`] and `list length exceeds the recorded maximum`.
    /// This holds whatever the next step is, unless a step was refused before. Nothing is absorbed then. Condition: `U`
    /// is an alphabet. Not in the Rust crate.
    pub fn observe_public_scalars_bounded<F: ScalarField, Cdc: Codec<C, F>>(
        &mut self,
        label: Label,
        values: &[F],
        max: usize,
    ) -> Result<Vec<TranscriptBound<F>>, TranscriptError>
        requires { U.is_alphabet }
        ensures exact { CarriesWithin (length values.now) max
            (meaning.observed_bounded (⟦<F as Declared<F, D>>⟧.step Public label.now (Bounded max))
            ⟦<U as AlphabetOf<C>>⟧.alphabet max Cdc.observation values.now)
            (verifying_of C.state self.old) bound_values result (verifying_of C.state self.new) }
        ensures count { IfOk result (λ bounds. vec_len bounds ≡ length values.now) }
    {
        let count = values.len();
        self.steps.carried_within(count, max)?;
        self.observe_counted::<F, F, Cdc>(Kind::Public, label, values, max)
    }

    /// Reads `len` bytes that hide what was sent later, and lends them.
    ///
    /// Condition: `U` is an alphabet. Bytes that are too long for the alphabet are refused with
    /// [`ChallengerError::TooLong`](p3_challenger_core::ChallengerError::TooLong), and none of them is absorbed.
    pub fn next_salt(&mut self, label: Label, len: usize) -> Result<&'a [u8], TranscriptError>
        requires { U.is_alphabet }
        ensures exact { ReadsOrRefuses C.state (reads.received_bytes Salt label.now
            ⟦<U as AlphabetOf<C>>⟧.alphabet len) self.old (λ b. b.now) result self.new }
        ensures count { IfOk result (λ bytes. length bytes.now ≡ len) }
    {
        self.receive_bytes(Kind::Salt, label, len)
    }

    /// Reads `len` bytes, and lends them.
    ///
    /// Condition: `U` is an alphabet. Bytes that are too long for the alphabet are refused with
    /// [`ChallengerError::TooLong`](p3_challenger_core::ChallengerError::TooLong), and none of them is absorbed.
    pub fn next_bytes(&mut self, label: Label, len: usize) -> Result<&'a [u8], TranscriptError>
        requires { U.is_alphabet }
        ensures exact { ReadsOrRefuses C.state (reads.received_bytes Message label.now
            ⟦<U as AlphabetOf<C>>⟧.alphabet len) self.old (λ b. b.now) result self.new }
        ensures count { IfOk result (λ bytes. length bytes.now ≡ len) }
    {
        self.receive_bytes(Kind::Message, label, len)
    }

    /// Reads at most `max` bytes, after their count, and lends them.
    ///
    /// Nothing is absorbed until all the bytes are there. A refused count is consumed: one above `max`, or one larger
    /// than the number of bytes left.
    ///
    /// Condition: `U` is an alphabet. Bytes that are too long for the alphabet are refused with
    /// [`ChallengerError::TooLong`](p3_challenger_core::ChallengerError::TooLong), after their count is absorbed.
    pub fn next_bytes_bounded(
        &mut self,
        label: Label,
        max: usize,
    ) -> Result<&'a [u8], TranscriptError>
        requires { U.is_alphabet }
        ensures exact { ReadsOrRefuses C.state (reads.received_bytes_bounded label.now
            ⟦<U as AlphabetOf<C>>⟧.alphabet max) self.old (λ b. b.now) result self.new }
        ensures count { IfOk result (λ bytes. length bytes.now ≤ max) }
    {
        self.steps
            .take_bytes(Kind::Message, label, Length::Bounded(max))?;
        let bytes = self.read_counted(max, "message length exceeds declared maximum")?;
        observe_count::<U, C>(&mut self.challenger, bytes.len(), max)?;
        U::observe_bytes(&mut self.challenger, bytes)?;
        self.steps.done();
        Ok(bytes)
    }

    /// Reads at most `max` scalars, after their count.
    ///
    /// A count above `max` is consumed. The count is absorbed before any scalar is read. If the scalars' encodings take
    /// more bytes than are left, the step is refused before any scalar is read. If a scalar's bytes are invalid, the
    /// scalars before it are absorbed.
    ///
    /// Condition: `U` is an alphabet.
    pub fn next_scalars_bounded<F: ScalarField, Cdc: Codec<C, F>>(
        &mut self,
        label: Label,
        max: usize,
    ) -> Result<Vec<TranscriptBound<F>>, TranscriptError>
        requires { U.is_alphabet }
        ensures exact { ReadsOrRefuses C.state
            (reads.received_bounded (⟦<F as Declared<F, D>>⟧.step Message label.now (Bounded max))
            ⟦<U as AlphabetOf<C>>⟧.alphabet max Cdc.observation Cdc.encoding)
            self.old bound_values result self.new }
        ensures count { IfOk result (λ bounds. vec_len bounds ≤ max) }
    {
        self.steps
            .take_algebra::<F, F>(Kind::Message, label, Length::Bounded(max))?;
        let count = self.read_count(max, "message length exceeds declared maximum")?;
        observe_count::<U, C>(&mut self.challenger, count, max)?;
        let bounds = self.receive_values::<F, Cdc>(count)?;
        self.steps.done();
        Ok(bounds)
    }

    // Reads bytes in a step of the kind.
    fn receive_bytes(
        &mut self,
        kind: Kind,
        label: Label,
        len: usize,
    ) -> Result<&'a [u8], TranscriptError>
        requires { U.is_alphabet }
        ensures exact { ReadsOrRefuses C.state (reads.received_bytes kind label.now
            ⟦<U as AlphabetOf<C>>⟧.alphabet len) self.old (λ b. b.now) result self.new }
        ensures count { IfOk result (λ bytes. length bytes.now ≡ len) }
    {
        self.steps.take_bytes(kind, label, Length::Fixed(len))?;
        let bytes = self.read_bytes(len)?;
        U::observe_bytes(&mut self.challenger, bytes)?;
        self.steps.done();
        Ok(bytes)
    }
}

impl<'a, C: Sponge, U, D: DigestHasher> VerifierState<'a, C, U, D> {
    /// Observes a scalar that both sides know.
    pub fn observe_public_scalar<F: ScalarField, Cdc: Codec<C, F>>(
        &mut self,
        label: Label,
        value: &F,
    ) -> Result<TranscriptBound<F>, TranscriptError>
        ensures { KeepsOrRefuses (meaning.observed
            (⟦<F as Declared<F, D>>⟧.step Public label.now Scalar) Cdc.observation value.now)
            (verifying_of C.state self.old) bound_value result (verifying_of C.state self.new) }
    {
        self.observe_element::<F, F, Cdc>(Kind::Public, label, value)
    }

    /// Observes a list of scalars that both sides know, of the length that the step says.
    pub fn observe_public_scalars<F: ScalarField, Cdc: Codec<C, F>>(
        &mut self,
        label: Label,
        values: &[F],
    ) -> Result<Vec<TranscriptBound<F>>, TranscriptError>
        ensures exact { KeepsOrRefuses (meaning.observed_list (⟦<F as Declared<F, D>>⟧.step
            Public label.now (Fixed (length values.now))) Cdc.observation values.now)
            (verifying_of C.state self.old) bound_values result (verifying_of C.state self.new) }
        ensures count { IfOk result (λ bounds. vec_len bounds ≡ length values.now) }
    {
        self.observe_list::<F, F, Cdc>(Kind::Public, label, values)
    }

    /// Observes a list of elements of an extension that the proof does not carry, of the length that the step says.
    ///
    /// Where the next step has a list of another length, the list is refused with [`TranscriptError::BadProofShape`]
    /// and `list length differs from the recorded shape`. This holds whatever that step is, unless a step was refused
    /// before. Nothing is absorbed then.
    pub fn observe_extensions<
        F: TranscriptField,
        EF: AlgebraIdentity<F> + Named,
        Cdc: ScalarCodec<C, F>,
    >(&mut self, label: Label, values: &[EF]) -> Result<Vec<TranscriptBound<EF>>, TranscriptError>
        ensures exact { CarriesAsRecorded (length values.now) (meaning.observed_list
            (⟦<EF as Declared<F, D>>⟧.step Message label.now (Fixed (length values.now)))
            ⟦<ExtensionFieldCodec<F, EF, Cdc> as Codec<C, EF>>⟧.observation values.now)
            (verifying_of C.state self.old) bound_values result (verifying_of C.state self.new) }
        ensures count { IfOk result (λ bounds. vec_len bounds ≡ length values.now) }
    {
        self.steps.carried_as_recorded(values.len())?;
        self.observe_list::<F, EF, ExtensionFieldCodec<F, EF, Cdc>>(Kind::Message, label, values)
    }

    /// Reads one scalar.
    pub fn next_scalar<F: ScalarField, Cdc: Codec<C, F>>(
        &mut self,
        label: Label,
    ) -> Result<TranscriptBound<F>, TranscriptError>
        ensures { ReadsOrRefuses C.state (reads.received (⟦<F as Declared<F, D>>⟧.step Message
            label.now Scalar) Cdc.observation Cdc.encoding) self.old bound_value result self.new }
    {
        self.receive::<F, F, Cdc>(label)
    }

    /// Reads `n` scalars.
    ///
    /// If their encodings take more bytes than are left, the step is refused before any scalar is read. If a scalar's
    /// bytes are invalid, the scalars before it are absorbed.
    pub fn next_scalars<F: ScalarField, Cdc: Codec<C, F>>(
        &mut self,
        label: Label,
        n: usize,
    ) -> Result<Vec<TranscriptBound<F>>, TranscriptError>
        ensures exact { ReadsOrRefuses C.state
            (reads.received_list (⟦<F as Declared<F, D>>⟧.step Message label.now (Fixed n))
            Cdc.observation Cdc.encoding n) self.old bound_values result self.new }
        ensures count { IfOk result (λ bounds. vec_len bounds ≡ n) }
    {
        self.steps
            .take_algebra::<F, F>(Kind::Message, label, Length::Fixed(n))?;
        let bounds = self.receive_values::<F, Cdc>(n)?;
        self.steps.done();
        Ok(bounds)
    }

    /// Reads one element of an extension, by its coefficients.
    pub fn next_extension<
        F: TranscriptField,
        EF: AlgebraIdentity<F> + Named,
        Cdc: ScalarCodec<C, F>,
    >(&mut self, label: Label) -> Result<TranscriptBound<EF>, TranscriptError>
        ensures { let codec = ⟦<ExtensionFieldCodec<F, EF, Cdc> as Codec<C, EF>>⟧ in ReadsOrRefuses
            C.state (reads.received (⟦<EF as Declared<F, D>>⟧.step Message label.now Scalar)
            codec.observation codec.encoding) self.old bound_value result self.new }
    {
        self.receive::<F, EF, ExtensionFieldCodec<F, EF, Cdc>>(label)
    }

    /// Reads `len` bytes that the challenger does not observe, and lends them. This call takes no memory.
    pub fn next_hint(&mut self, label: Label, len: usize) -> Result<&'a [u8], TranscriptError>
        ensures exact { ReadsOrRefuses C.state (reads.hint_received {Symbol = C.Symbol} label.now
            len) self.old (λ b. b.now) result self.new }
        ensures no_memory { IfErr result (λ e. e ≡ TranscriptError.OutOfMemory → ⊥) }
        ensures count { IfOk result (λ bytes. length bytes.now ≡ len) }
    {
        self.steps
            .take_bytes(Kind::Hint, label, Length::Fixed(len))?;
        let bytes = self.read_bytes(len)?;
        self.steps.done();
        Ok(bytes)
    }

    /// Reads at most `max` bytes that the challenger does not observe, after their count, and lends them. This call
    /// takes no memory.
    ///
    /// A refused count is consumed: one above `max`, or one larger than the number of bytes left.
    pub fn next_hint_bounded(
        &mut self,
        label: Label,
        max: usize,
    ) -> Result<&'a [u8], TranscriptError>
        ensures exact { ReadsOrRefuses C.state (reads.hint_received_bounded {Symbol = C.Symbol}
            label.now max) self.old (λ b. b.now) result self.new }
        ensures no_memory { IfErr result (λ e. e ≡ TranscriptError.OutOfMemory → ⊥) }
        ensures count { IfOk result (λ bytes. length bytes.now ≤ max) }
    {
        self.steps
            .take_bytes(Kind::Hint, label, Length::Bounded(max))?;
        let bytes = self.read_counted(max, "hint length exceeds declared maximum")?;
        self.steps.done();
        Ok(bytes)
    }

    // Reads one element of an algebra.
    fn receive<F: TranscriptField, A: AlgebraIdentity<F> + Named, Cdc: Codec<C, A>>(
        &mut self,
        label: Label,
    ) -> Result<TranscriptBound<A>, TranscriptError>
        ensures { ReadsOrRefuses C.state (reads.received (⟦<A as Declared<F, D>>⟧.step Message
            label.now Scalar) Cdc.observation Cdc.encoding) self.old bound_value result self.new }
    {
        self.steps
            .take_algebra::<F, A>(Kind::Message, label, Length::Scalar)?;
        let value = self.read_value::<A, Cdc>()?;
        Cdc::observe(&mut self.challenger, &value)?;
        Ok(self.steps.bind(value))
    }

    // Reads so many values, and observes each before it reads the next one. Where their encodings take more bytes than
    // are left, none is read, and no memory is asked for.
    fn receive_values<A: Copy, Cdc: Codec<C, A>>(
        &mut self,
        n: usize,
    ) -> Result<Vec<TranscriptBound<A>>, TranscriptError>
        ensures read { AnswersList (reads.read_values Cdc.encoding Cdc.observation.observed n
            self.old.tape.bytes.now) (observed_all Cdc.observation.observed)
            (reads.LeavesValues Cdc.encoding Cdc.observation n self.old.tape.bytes.now) bound_values
            (C.state self.old.challenger) result self.new.tape.bytes.now
            (C.state self.new.challenger) }
        ensures steps { self.new.steps ≡ self.old.steps }
        ensures count { IfOk result (λ bounds. vec_len bounds ≡ n) }
    {
        if !holds(self.tape.bytes.len(), n, Cdc::wire_len()) {
            return Err(TranscriptError::BadProofShape {
                reason: "step declares more values than the wire holds",
            });
        }
        let mut bounds = Vec::with_capacity(self.alloc, n)?;
        for _ in 0..n {
            let value = self.read_value::<A, Cdc>()?;
            Cdc::observe(&mut self.challenger, &value)?;
            bounds.push_reserved(bind(value));
        }
        Ok(bounds)
    }

    // Reads so many bytes. Where there are fewer, none is passed.
    pub(super) fn read_bytes(&mut self, len: usize) -> Result<&'a [u8], TranscriptError>
        ensures read { AnswersRead (reads.read_bytes {S = C.State} len self.old.tape.bytes.now)
            (λ bytes. bytes.now) result self.new.tape.bytes.now }
        ensures steps { self.new.steps ≡ self.old.steps }
        ensures challenger { self.new.challenger ≡ self.old.challenger }
        ensures count { IfOk result (λ bytes. length bytes.now ≡ len) }
    {
        let unread = self.tape.bytes;
        if unread.len() < len {
            return Err(TranscriptError::BadProofShape {
                reason: "NARG ended before all expected bytes were read",
            });
        }
        self.tape.bytes = &unread[len..];
        Ok(&unread[..len])
    }

    // Reads a value.
    fn read_value<A, Cdc: Codec<C, A>>(&mut self) -> Result<A, TranscriptError>
        ensures read { AnswersRead (reads.read_value {S = C.State} Cdc.encoding
            self.old.tape.bytes.now) (λ x. x) result self.new.tape.bytes.now }
        ensures steps { self.new.steps ≡ self.old.steps }
        ensures challenger { self.new.challenger ≡ self.old.challenger }
    {
        let bytes = self.read_bytes(Cdc::wire_len())?;
        Cdc::decode(bytes)
    }

    // Reads a count of at most so many. A greater one is refused with this reason, and is passed.
    fn read_count(&mut self, max: usize, over: &'static str) -> Result<usize, TranscriptError>
        ensures read { AnswersRead (reads.read_count {S = C.State} over.now max
            self.old.tape.bytes.now) (λ n. n) result self.new.tape.bytes.now }
        ensures within { IfOk result (λ n. n ≤ max) }
        ensures steps { self.new.steps ≡ self.old.steps }
        ensures challenger { self.new.challenger ≡ self.old.challenger }
    {
        let width = bound_byte_width(max);
        let bytes = self.read_bytes(width)?;
        let count = decode_len_be(bytes, width);
        if count > max {
            return Err(TranscriptError::BadProofShape { reason: over });
        }
        Ok(count)
    }

    // Reads at most so many bytes after their count. A greater count is refused with this reason.
    fn read_counted(&mut self, max: usize, over: &'static str) -> Result<&'a [u8], TranscriptError>
        ensures read { AnswersRead (reads.read_counted_bytes {S = C.State} over.now max
            self.old.tape.bytes.now) (λ bytes. bytes.now) result self.new.tape.bytes.now }
        ensures within { IfOk result (λ bytes. length bytes.now ≤ max) }
        ensures steps { self.new.steps ≡ self.old.steps }
        ensures challenger { self.new.challenger ≡ self.old.challenger }
    {
        let count = self.read_count(max, over)?;
        self.read_bytes(count)
    }
}

// So many bytes are enough for so many values.
fn holds(len: usize, n: usize, width: usize) -> bool
    ensures { IsTrue result ↔ n * width ≤ len }
{
    match n.checked_mul(width) {
        None => false,
        Some(total) => total <= len,
    }
}
