//! The steps that a prover and a verifier play by the same methods, for code that plays either side.
ghost use Rattle.std.specs.Prelude.{◌≡◌, ◌≤◌, ℕ, true, List, IsOk, IfOk, IfErr, vec_len};
ghost use Rattle.p3_fs_core.specs.{Steps.marker_of, declared.step.Kind.TheVariants.{Challenge, Message, Protocol}};
ghost use Rattle.p3_fs_core.specs.declared.step.Length.TheVariants.{Fixed, Scalar};
ghost use Rattle.p3_driver_core.specs.{Bound.{bound_value, bound_values}, Rejecting.{Rule, Computes, drawn_rejecting}};
ghost use Rattle.p3_driver_core.specs.Transcripts.{uniform_bits_step, Transcript, PlaysOrRefuses, KeepsOrder, IsNext};
ghost use Rattle.p3_driver_core.specs.Transcripts.{halted, opaque_step};
ghost use Rattle.p3_driver_core.specs.Meanings as meaning;

use crate::TranscriptBound;
use p3_challenger_core::{CanObserve, Sponge};
use p3_codecs::{Codec, ExtensionFieldCodec, ScalarCodec};
use p3_field_core::{AlgebraIdentity, Named};
use p3_fs_core::{Declared, Hierarchy, Kind, Label, TranscriptError, TranscriptField};
use p3_grinding::CanSampleUniformBits;
use p3_symmetric::DigestHasher;

/// Marks the two drivers. The trait is internal, so that no type of a user plays steps. In the Rust crate it is
/// private.
pub trait Driver {}

/// The steps that a prover and a verifier play by the same methods: those without bytes in the proof.
///
/// Code over this trait plays either side. Each method is the driver's own of the same name, with the same result, the
/// same errors, and the same state after them.
///
/// Corresponds to the Rust crate's `SymmetricSteps`.
pub trait SymmetricSteps: Driver {
    /// The challenger that the driver observes into and draws from.
    type Challenger: Sponge;

    /// The hash function for the digests of algebras.
    type Digest: DigestHasher;

    // Its challenger, and its pattern as it is played.
    ghost transcript: { Self → Transcript Self.Challenger.State };

    // The bytes of the proof that were written, or that are left to read.
    ghost bytes: { Self → List ℕ };

    /// Ends the play, as a refused step does. The challenger and the bytes stay as they are.
    ///
    /// Not in the Rust crate.
    fn halt(&mut self)
        ensures transcript { transcript self.new ≡ halted (transcript self.old) }
        ensures bytes { bytes self.new ≡ bytes self.old };

    /// Opens a container that may hold steps of any kind. This call takes no memory.
    fn begin_protocol<T: Named>(&mut self, label: Label) -> Result<(), TranscriptError>
        ensures played { PlaysOrRefuses (meaning.marked {Symbol = Self.Challenger.Symbol}
            (marker_of Hierarchy.Begin Protocol label.now T.name_bytes))
            (transcript self.old) (λ _. tt {0}) result (transcript self.new) }
        ensures bytes { bytes self.new ≡ bytes self.old }
        ensures only { IsNext (transcript self.old).playing
            (marker_of Hierarchy.Begin Protocol label.now T.name_bytes) → IsOk result };

    /// Closes a container that may hold steps of any kind. This call takes no memory.
    fn end_protocol<T: Named>(&mut self, label: Label) -> Result<(), TranscriptError>
        ensures played { PlaysOrRefuses (meaning.marked {Symbol = Self.Challenger.Symbol}
            (marker_of Hierarchy.End Protocol label.now T.name_bytes))
            (transcript self.old) (λ _. tt {0}) result (transcript self.new) }
        ensures bytes { bytes self.new ≡ bytes self.old }
        ensures only { IsNext (transcript self.old).playing
            (marker_of Hierarchy.End Protocol label.now T.name_bytes) → IsOk result };

    /// Observes a value in the challenger's own way.
    ///
    /// Condition: clones of the value equal the value. The Rust crate does not require this.
    fn observe_opaque<T: Clone>(
        &mut self,
        label: Label,
        value: T,
    ) -> Result<TranscriptBound<T>, TranscriptError>
    where
        Self::Challenger: CanObserve<T>,
        requires { (copy : T) → T.is_clone value copy → copy ≡ value }
        ensures played { PlaysOrRefuses (meaning.observed
            (opaque_step Message label.now Scalar) Self.Challenger.observation value)
            (transcript self.old) bound_value result (transcript self.new) }
        ensures bytes { bytes self.new ≡ bytes self.old };

    /// Observes one element of an extension that the proof does not carry.
    fn observe_extension<
        F: TranscriptField,
        EF: AlgebraIdentity<F> + Named,
        Cdc: ScalarCodec<Self::Challenger, F>,
    >(&mut self, label: Label, value: &EF) -> Result<TranscriptBound<EF>, TranscriptError>
        ensures played { PlaysOrRefuses
            (meaning.observed (⟦<EF as Declared<F, Self::Digest>>⟧.step Message label.now Scalar)
            ⟦<ExtensionFieldCodec<F, EF, Cdc> as Codec<Self::Challenger, EF>>⟧.observation
            value.now) (transcript self.old) bound_value result (transcript self.new) }
        ensures bytes { bytes self.new ≡ bytes self.old };

    /// Draws one element of an extension, coefficient 0 first.
    ///
    /// Condition: the codec has at least [`MIN_CHALLENGE_SECURITY_BITS`](p3_codecs::MIN_CHALLENGE_SECURITY_BITS) bits
    /// of security.
    fn challenge_extension<
        F: TranscriptField,
        EF: AlgebraIdentity<F> + Named,
        Cdc: ScalarCodec<Self::Challenger, F>,
    >(&mut self, label: Label) -> Result<TranscriptBound<EF>, TranscriptError>
        requires { 128 ≤ Cdc.SECURITY_BITS }
        ensures played { PlaysOrRefuses (meaning.drawn {Symbol = Self.Challenger.Symbol}
            (⟦<EF as Declared<F, Self::Digest>>⟧.step Challenge label.now Scalar)
            ⟦<ExtensionFieldCodec<F, EF, Cdc> as Codec<Self::Challenger, EF>>⟧.sampling)
            (transcript self.old) bound_value result (transcript self.new) }
        ensures bytes { bytes self.new ≡ bytes self.old };

    /// Draws elements of an extension until the rule `accept` has accepted `n`, and returns these in order.
    ///
    /// Right after the rule has refused `limit` candidates in a row the step is refused with
    /// [`ChallengerError::DrawLimit`](p3_challenger_core::ChallengerError::DrawLimit). The Rust crate has no limit.
    ///
    /// Conditions: the rule may be called at any time, and the codec has at least
    /// [`MIN_CHALLENGE_SECURITY_BITS`](p3_codecs::MIN_CHALLENGE_SECURITY_BITS) bits of security.
    ///
    /// The contract says what is drawn, kept and returned for a rule that is a function of its arguments. For any other
    /// rule it says only this. The bytes of the proof stay the same. Only where the step is the next one are `n` values
    /// returned; where it is not, nothing is drawn. A refused step is the last one.
    fn challenge_extensions_rejecting<
        F: TranscriptField,
        EF: AlgebraIdentity<F> + Named,
        Cdc: ScalarCodec<Self::Challenger, F>,
        R: Fn(&EF, &[EF]) -> bool,
    >(
        &mut self,
        label: Label,
        n: usize,
        accept: &R,
        limit: u64,
    ) -> Result<Vec<TranscriptBound<EF>>, TranscriptError>
        requires secure { 128 ≤ Cdc.SECURITY_BITS }
        requires callable { R.IsAlwaysCallable accept.now }
        ensures played { (rule : Rule EF) → Computes R.Fn accept.now rule →
            PlaysOrRefuses (drawn_rejecting {Symbol = Self.Challenger.Symbol}
            (⟦<EF as Declared<F, Self::Digest>>⟧.step Challenge label.now (Fixed n))
            ⟦<ExtensionFieldCodec<F, EF, Cdc> as Codec<Self::Challenger, EF>>⟧.sampling
            rule limit n) (transcript self.old) bound_values result (transcript self.new) }
        ensures order { KeepsOrder (⟦<EF as Declared<F, Self::Digest>>⟧.step Challenge label.now
            (Fixed n)) (transcript self.old) result (transcript self.new) }
        ensures count { IfOk result (λ bounds. vec_len bounds ≡ n) }
        ensures bytes { bytes self.new ≡ bytes self.old }
        ensures spent { IfErr result (λ _. (transcript self.new).playing.finished ≡ true) };

    /// Draws `n` numbers of `width` uniform bits. A rejected value is replaced by another draw.
    ///
    /// Condition: `width` is at most [`max_bits`](p3_challenger_core::CanSampleBits::max_bits).
    fn challenge_uniform_bits<F>(
        &mut self,
        label: Label,
        width: usize,
        n: usize,
    ) -> Result<Vec<TranscriptBound<usize>>, TranscriptError>
    where
        Self::Challenger: CanSampleUniformBits<F>,
        requires { width ≤ Self.Challenger.most_bits }
        ensures played { PlaysOrRefuses (meaning.drawn_list {Symbol = Self.Challenger.Symbol}
            (uniform_bits_step label.now width (Fixed n)) (Self.Challenger.uniform true width).draw
            n) (transcript self.old) bound_values result (transcript self.new) }
        ensures count { IfOk result (λ bounds. vec_len bounds ≡ n) }
        ensures bytes { bytes self.new ≡ bytes self.old };
}
