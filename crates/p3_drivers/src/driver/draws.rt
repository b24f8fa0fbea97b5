//! The steps that draw challenges, which leave the proof unchanged.
ghost use Rattle.std.specs.Prelude.{◌≡◌, ◌≤◌, ℕ, true, IfErr, IfOk, vec_len};
ghost use Rattle.p3_driver_core.specs.Bound.{bound_value, bound_values};
ghost use Rattle.p3_driver_core.specs.Meanings as meaning;
ghost use Rattle.p3_driver_core.specs.Rejecting.{Rule, Computes, ComputesOfValues, drawn_rejecting};
ghost use Rattle.p3_driver_core.specs.Transcripts.{PlaysOrRefuses, KeepsOrder, bits_step, uniform_bits_step};
ghost use Rattle.p3_drivers.specs.Drivers.{driving_of, played_by, Keeps};
ghost use Rattle.p3_fs_core.specs.declared.step.{Kind.TheVariants.Challenge, Length.TheVariants.{Fixed, Scalar}};

use crate::DriverState;
use crate::tape::Tape;
use p3_challenger_core::{CanSampleBits, Sponge};
use p3_codecs::{Codec, ExtensionFieldCodec, ScalarCodec};
use p3_driver_core::{
    TranscriptBound, draw_accepted, draw_accepted_numbers, draw_numbers, draw_uniform_numbers,
    draw_values,
};
use p3_field_core::{AlgebraIdentity, Named, ScalarField};
use p3_fs_core::{
    Declared, Hierarchy, Interaction, Kind, Label, Length, TranscriptError, TranscriptField,
};
use p3_grinding::CanSampleUniformBits;
use p3_symmetric::DigestHasher;

impl<C: Sponge, U, D: DigestHasher, P: Tape> DriverState<C, U, D, P> {
    /// Draws one scalar.
    ///
    /// Condition: the codec has at least [`MIN_CHALLENGE_SECURITY_BITS`](p3_codecs::MIN_CHALLENGE_SECURITY_BITS) bits
    /// of security.
    pub fn challenge_scalar<F: ScalarField, Cdc: Codec<C, F>>(
        &mut self,
        label: Label,
    ) -> Result<TranscriptBound<F>, TranscriptError>
        requires { 128 ≤ Cdc.SECURITY_BITS }
        ensures { Keeps C.state P.bytes (meaning.drawn {Symbol = C.Symbol}
            (⟦<F as Declared<F, D>>⟧.step Challenge label.now Scalar) Cdc.sampling)
            self.old bound_value result self.new }
    {
        self.draw::<F, F, Cdc>(label)
    }

    /// Draws `n` scalars.
    ///
    /// Condition: the codec has at least [`MIN_CHALLENGE_SECURITY_BITS`](p3_codecs::MIN_CHALLENGE_SECURITY_BITS) bits
    /// of security.
    pub fn challenge_scalars<F: ScalarField, Cdc: Codec<C, F>>(
        &mut self,
        label: Label,
        n: usize,
    ) -> Result<Vec<TranscriptBound<F>>, TranscriptError>
        requires { 128 ≤ Cdc.SECURITY_BITS }
        ensures exact { Keeps C.state P.bytes (meaning.drawn_list {Symbol = C.Symbol}
            (⟦<F as Declared<F, D>>⟧.step Challenge label.now (Fixed n)) Cdc.sampling n)
            self.old bound_values result self.new }
        ensures count { IfOk result (λ bounds. vec_len bounds ≡ n) }
    {
        self.draw_list::<F, F, Cdc>(label, n)
    }

    /// Draws one element of an extension, coefficient 0 first.
    ///
    /// Condition: the codec has at least [`MIN_CHALLENGE_SECURITY_BITS`](p3_codecs::MIN_CHALLENGE_SECURITY_BITS) bits
    /// of security.
    pub fn challenge_extension<
        F: TranscriptField,
        EF: AlgebraIdentity<F> + Named,
        Cdc: ScalarCodec<C, F>,
    >(&mut self, label: Label) -> Result<TranscriptBound<EF>, TranscriptError>
        requires { 128 ≤ Cdc.SECURITY_BITS }
        ensures { Keeps C.state P.bytes (meaning.drawn {Symbol = C.Symbol}
            (⟦<EF as Declared<F, D>>⟧.step Challenge label.now Scalar)
            ⟦<ExtensionFieldCodec<F, EF, Cdc> as Codec<C, EF>>⟧.sampling)
            self.old bound_value result self.new }
    {
        self.draw::<F, EF, ExtensionFieldCodec<F, EF, Cdc>>(label)
    }

    /// Draws `n` elements of an extension.
    ///
    /// Condition: the codec has at least [`MIN_CHALLENGE_SECURITY_BITS`](p3_codecs::MIN_CHALLENGE_SECURITY_BITS) bits
    /// of security.
    pub fn challenge_extensions<
        F: TranscriptField,
        EF: AlgebraIdentity<F> + Named,
        Cdc: ScalarCodec<C, F>,
    >(&mut self, label: Label, n: usize) -> Result<Vec<TranscriptBound<EF>>, TranscriptError>
        requires { 128 ≤ Cdc.SECURITY_BITS }
        ensures exact { Keeps C.state P.bytes (meaning.drawn_list {Symbol = C.Symbol}
            (⟦<EF as Declared<F, D>>⟧.step Challenge label.now (Fixed n))
            ⟦<ExtensionFieldCodec<F, EF, Cdc> as Codec<C, EF>>⟧.sampling n)
            self.old bound_values result self.new }
        ensures count { IfOk result (λ bounds. vec_len bounds ≡ n) }
    {
        self.draw_list::<F, EF, ExtensionFieldCodec<F, EF, Cdc>>(label, n)
    }

    /// Draws elements of an extension until the rule `accept` has accepted `n`, and returns these in order.
    ///
    /// The rule is called for each candidate, with those kept before it. The step is refused with
    /// [`ChallengerError::DrawLimit`](p3_challenger_core::ChallengerError::DrawLimit) right after the rule has refused
    /// `limit` candidates in a row. They are counted from the last kept one or the start. The same error comes where
    /// the challenger meets its own draw limit. In both cases what was drawn is consumed. To keep none, nothing is
    /// drawn. The Rust crate has no limit.
    ///
    /// Conditions: the rule may be called at any time, and the codec has at least
    /// [`MIN_CHALLENGE_SECURITY_BITS`](p3_codecs::MIN_CHALLENGE_SECURITY_BITS) bits of security.
    ///
    /// The contract says what is drawn, kept and returned for a rule that is a function of its arguments. For any other
    /// rule it says only this. The bytes of the proof stay the same. Only where the step is the next one are `n` values
    /// returned; where it is not, nothing is drawn. A refused step is the last one.
    pub fn challenge_extensions_rejecting<
        F: TranscriptField,
        EF: AlgebraIdentity<F> + Named,
        Cdc: ScalarCodec<C, F>,
        R: Fn(&EF, &[EF]) -> bool,
    >(
        &mut self,
        label: Label,
        n: usize,
        accept: &R,
        limit: u64,
    ) -> Result<Vec<TranscriptBound<EF>>, TranscriptError>
        requires secure { 128 ≤ Cdc.SECURITY_BITS }
        requires callable { R.IsAlwaysCallable accept.now }
        ensures played { (rule : Rule EF) → Computes R.Fn accept.now rule → PlaysOrRefuses
            (drawn_rejecting {Symbol = C.Symbol} (⟦<EF as Declared<F, D>>⟧.step Challenge label.now
            (Fixed n)) ⟦<ExtensionFieldCodec<F, EF, Cdc> as Codec<C, EF>>⟧.sampling rule limit n)
            (played_by C.state self.old) bound_values result (played_by C.state self.new) }
        ensures bytes { (driving_of C.state P.bytes self.new).bytes
            ≡ (driving_of C.state P.bytes self.old).bytes }
        ensures order { KeepsOrder (⟦<EF as Declared<F, D>>⟧.step Challenge label.now (Fixed n))
            (played_by C.state self.old) result (played_by C.state self.new) }
        ensures spent { IfErr result (λ _. (played_by C.state self.new).playing.finished ≡ true) }
        ensures count { IfOk result (λ bounds. vec_len bounds ≡ n) }
    {
        self.draw_rejecting::<F, EF, ExtensionFieldCodec<F, EF, Cdc>, R>(label, n, accept, limit)
    }

    /// Draws `n` numbers of `width` bits.
    ///
    /// Condition: `width` is at most [`max_bits`](CanSampleBits::max_bits).
    pub fn challenge_bits(
        &mut self,
        label: Label,
        width: usize,
        n: usize,
    ) -> Result<Vec<TranscriptBound<usize>>, TranscriptError>
    where
        C: CanSampleBits<usize>,
        requires { width ≤ C.most_bits }
        ensures exact { Keeps C.state P.bytes (meaning.drawn_list {Symbol = C.Symbol}
            (bits_step label.now width (Fixed n)) (C.bits_sampling width) n)
            self.old bound_values result self.new }
        ensures count { IfOk result (λ bounds. vec_len bounds ≡ n) }
    {
        self.steps.take(Interaction::bits(
            Hierarchy::Atomic,
            Kind::Challenge,
            label,
            width,
            Length::Fixed(n),
        ))?;
        let bounds = draw_numbers(&mut self.challenger, self.alloc, width, n)?;
        self.steps.done();
        Ok(bounds)
    }

    /// Draws `n` numbers of `width` uniform bits. A rejected value is replaced by another draw.
    ///
    /// Condition: `width` is at most [`max_bits`](p3_challenger_core::CanSampleBits::max_bits).
    pub fn challenge_uniform_bits<F>(
        &mut self,
        label: Label,
        width: usize,
        n: usize,
    ) -> Result<Vec<TranscriptBound<usize>>, TranscriptError>
    where
        C: CanSampleUniformBits<F>,
        requires { width ≤ C.most_bits }
        ensures exact { Keeps C.state P.bytes (meaning.drawn_list {Symbol = C.Symbol}
            (uniform_bits_step label.now width (Fixed n)) (C.uniform true width).draw n)
            self.old bound_values result self.new }
        ensures count { IfOk result (λ bounds. vec_len bounds ≡ n) }
    {
        self.steps
            .take_uniform_bits(label, width, Length::Fixed(n))?;
        let bounds = draw_uniform_numbers::<F, C>(&mut self.challenger, self.alloc, width, n)?;
        self.steps.done();
        Ok(bounds)
    }

    /// Draws numbers of `width` uniform bits until the rule `accept` has accepted `n`, and returns these in order. A
    /// value that the challenger rejects is replaced by another draw before the rule is called.
    ///
    /// The rule is called for each number, with those kept before it. The step is refused with
    /// [`ChallengerError::DrawLimit`](p3_challenger_core::ChallengerError::DrawLimit) right after the rule has refused
    /// `limit` numbers in a row. They are counted from the last kept one or the start. The same error comes where the
    /// challenger meets its own draw limit. In both cases what was drawn is consumed. To keep none, nothing is drawn.
    /// The Rust crate has no limit.
    ///
    /// Conditions: the rule may be called at any time, and `width` is at most
    /// [`max_bits`](p3_challenger_core::CanSampleBits::max_bits).
    ///
    /// The contract says what is drawn, kept and returned for a rule that is a function of its arguments. For any other
    /// rule it says only this. The bytes of the proof stay the same. Only where the step is the next one are `n` values
    /// returned; where it is not, nothing is drawn. A refused step is the last one.
    pub fn challenge_uniform_bits_rejecting<F, R: Fn(usize, &[usize]) -> bool>(
        &mut self,
        label: Label,
        width: usize,
        n: usize,
        accept: &R,
        limit: u64,
    ) -> Result<Vec<TranscriptBound<usize>>, TranscriptError>
    where
        C: CanSampleUniformBits<F>,
        requires within { width ≤ C.most_bits }
        requires callable { R.IsAlwaysCallable accept.now }
        ensures played { (rule : Rule ℕ) → ComputesOfValues R.Fn accept.now rule →
            PlaysOrRefuses (drawn_rejecting {Symbol = C.Symbol}
            (uniform_bits_step label.now width (Fixed n)) (C.uniform true width).draw rule limit n)
            (played_by C.state self.old) bound_values result (played_by C.state self.new) }
        ensures bytes { (driving_of C.state P.bytes self.new).bytes
            ≡ (driving_of C.state P.bytes self.old).bytes }
        ensures order { KeepsOrder (uniform_bits_step label.now width (Fixed n))
            (played_by C.state self.old) result (played_by C.state self.new) }
        ensures spent { IfErr result (λ _. (played_by C.state self.new).playing.finished ≡ true) }
        ensures count { IfOk result (λ bounds. vec_len bounds ≡ n) }
    {
        self.steps
            .take_uniform_bits(label, width, Length::Fixed(n))?;
        let bounds = draw_accepted_numbers::<F, C, R>(
            &mut self.challenger,
            self.alloc,
            width,
            n,
            accept,
            limit,
        )?;
        self.steps.done();
        Ok(bounds)
    }

    // Draws one element of an algebra.
    //
    // Condition: the codec has at least [`MIN_CHALLENGE_SECURITY_BITS`](p3_codecs::MIN_CHALLENGE_SECURITY_BITS) of
    // security.
    fn draw<F: TranscriptField, A: AlgebraIdentity<F> + Named, Cdc: Codec<C, A>>(
        &mut self,
        label: Label,
    ) -> Result<TranscriptBound<A>, TranscriptError>
        requires { 128 ≤ Cdc.SECURITY_BITS }
        ensures { Keeps C.state P.bytes (meaning.drawn {Symbol = C.Symbol}
            (⟦<A as Declared<F, D>>⟧.step Challenge label.now Scalar) Cdc.sampling)
            self.old bound_value result self.new }
    {
        self.steps
            .take_algebra::<F, A>(Kind::Challenge, label, Length::Scalar)?;
        let value = Cdc::sample(&mut self.challenger)?;
        Ok(self.steps.bind(value))
    }

    // Draws so many elements of an algebra.
    //
    // Condition: the codec has at least [`MIN_CHALLENGE_SECURITY_BITS`](p3_codecs::MIN_CHALLENGE_SECURITY_BITS) of
    // security.
    fn draw_list<F: TranscriptField, A: AlgebraIdentity<F> + Named, Cdc: Codec<C, A>>(
        &mut self,
        label: Label,
        n: usize,
    ) -> Result<Vec<TranscriptBound<A>>, TranscriptError>
        requires { 128 ≤ Cdc.SECURITY_BITS }
        ensures exact { Keeps C.state P.bytes (meaning.drawn_list {Symbol = C.Symbol}
            (⟦<A as Declared<F, D>>⟧.step Challenge label.now (Fixed n)) Cdc.sampling n)
            self.old bound_values result self.new }
        ensures count { IfOk result (λ bounds. vec_len bounds ≡ n) }
    {
        self.steps
            .take_algebra::<F, A>(Kind::Challenge, label, Length::Fixed(n))?;
        let bounds = draw_values::<A, C, Cdc>(&mut self.challenger, self.alloc, n)?;
        self.steps.done();
        Ok(bounds)
    }

    // Draws elements of an algebra until the rule `accept` has taken `n`, which refuses fewer than `limit` in a row.
    fn draw_rejecting<
        F: TranscriptField,
        A: AlgebraIdentity<F> + Named,
        Cdc: Codec<C, A>,
        R: Fn(&A, &[A]) -> bool,
    >(
        &mut self,
        label: Label,
        n: usize,
        accept: &R,
        limit: u64,
    ) -> Result<Vec<TranscriptBound<A>>, TranscriptError>
        requires secure { 128 ≤ Cdc.SECURITY_BITS }
        requires callable { R.IsAlwaysCallable accept.now }
        ensures played { (rule : Rule A) → Computes R.Fn accept.now rule →
            PlaysOrRefuses (drawn_rejecting {Symbol = C.Symbol}
            (⟦<A as Declared<F, D>>⟧.step Challenge label.now (Fixed n)) Cdc.sampling rule limit n)
            (played_by C.state self.old) bound_values result (played_by C.state self.new) }
        ensures bytes { (driving_of C.state P.bytes self.new).bytes
            ≡ (driving_of C.state P.bytes self.old).bytes }
        ensures order { KeepsOrder (⟦<A as Declared<F, D>>⟧.step Challenge label.now (Fixed n))
            (played_by C.state self.old) result (played_by C.state self.new) }
        ensures spent { IfErr result (λ _. (played_by C.state self.new).playing.finished ≡ true) }
        ensures count { IfOk result (λ bounds. vec_len bounds ≡ n) }
    {
        self.steps
            .take_algebra::<F, A>(Kind::Challenge, label, Length::Fixed(n))?;
        let bounds = draw_accepted::<A, C, Cdc, R>(
            &mut self.challenger,
            self.alloc,
            n,
            accept,
            limit,
        )?;
        self.steps.done();
        Ok(bounds)
    }
}
