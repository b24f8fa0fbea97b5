//! The optional groups of steps: bits and proofs of work, and uniform bits.
ghost use Rattle.std.specs.Prelude.{◌≡◌, ◌≤◌, ℕ, Bool, IsTrue, IsErr};
ghost use Rattle.p3_challenger_core.specs.{Observation.Observation, Reading.IsPrefixFree, Sampling.Sampling};
ghost use Rattle.p3_driver_core.specs.{Verifying.ChecksAndKeeps, Effects.drawing_list};
ghost use Rattle.p3_driver_core.specs.Working.{RefusesToCheck, RefusesToGrind, work_of};
ghost use Rattle.p3_driver_core.specs.{Bound.bound_values, Transcripts.{uniform_bits_step, bits_step}};
ghost use Rattle.p3_driver_core.specs.Rejecting.{drawing_rejecting, ComputesOfValues, drawn_rejecting, Rule};
ghost use Rattle.p3_drivers.specs.Drivers.{driving_of, verifying_of, Keeps};
ghost use Rattle.p3_fs_core.specs.{Scalar.encoding, Steps.Step};
ghost use Rattle.p3_step_laws.specs.Completeness.{CompletesWork, CompletesCarriedWork};
ghost use Rattle.p3_step_laws.specs.OneReason.{TellsLimits, TellOneReason, HasOneReason};
ghost use Rattle.p3_runs.specs.Sides.{RefusesToReadWork};
ghost use Rattle.p3_script.specs.GroupDraws.{DrawsAndFeeds};
ghost use Rattle.p3_script.specs.GroupSteps.{PlaysOnDriver, SendsWork, FindsWork, ReadsWork, OnlyReadsWork};
ghost use Rattle.p3_driver_core.specs.Meanings as meaning;

mod all_steps;
mod bits_and_work;
mod plain_steps;

use p3_challenger_core::Sponge;
use p3_driver_core::TranscriptBound;
use p3_drivers::{DriverState, ProverState, Tape, VerifierState};
use p3_field_core::ScalarField;
use p3_fs_core::{Declared, Kind, Label, Length, PatternError, TranscriptError};
use p3_symmetric::DigestHasher;

/// A group of steps that a challenger supports in addition to the plain ones. Each of its functions calls the driver's method
/// for one kind of step. Not in the Rust crate.
///
/// There are three: [`Plain`], [`BitsPow`] and [`Both`].
pub trait StepGroup<C: Sponge, F: ScalarField> {
    /// Whether the group has steps of bits and of proof of work.
    const HAS_POW: bool;

    ghost HAS_POW: { Bool };

    /// Whether the group has steps of uniform bits.
    const HAS_UNIFORM: bool;

    ghost HAS_UNIFORM: { Bool };

    // The most bits of one draw, and how so many bits are drawn, and so many uniform ones.
    ghost most_bits: { ℕ };

    ghost bit_draws: { ℕ → Sampling C.State ℕ };

    ghost uniform_draws: { ℕ → Sampling C.State ℕ };

    // What is drawn before a witness is observed, how it is, and from where a search for one may run out of memory.
    ghost before_witness: { Sampling C.State (Unit {0}) };

    ghost witness: { Observation C.State C.Symbol F };

    ghost may_run_out: { C.State → Type 0 };

    /// Returns the largest number of bits in one draw.
    fn max_bits() -> usize
        ensures { result ≡ most_bits };

    /// Draws `n` numbers of `width` bits, on either side.
    ///
    /// Conditions: the group has bits, and `width` is at most [`max_bits`](StepGroup::max_bits).
    fn challenge_bits<U, D: DigestHasher, P: Tape>(
        driver: &mut DriverState<C, U, D, P>,
        label: Label,
        width: usize,
        n: usize,
    ) -> Result<Vec<TranscriptBound<usize>>, TranscriptError>
        requires has { IsTrue HAS_POW }
        requires within { width ≤ most_bits }
        ensures { Keeps C.state P.bytes (meaning.drawn_list {Symbol = C.Symbol}
            (bits_step label.now width (Length.Fixed n)) (bit_draws width) n)
            driver.old bound_values result driver.new };

    /// Draws `n` numbers of `width` uniform bits, on either side.
    ///
    /// Conditions: the group has uniform bits, and `width` is at most [`max_bits`](StepGroup::max_bits).
    fn challenge_uniform_bits<U, D: DigestHasher, P: Tape>(
        driver: &mut DriverState<C, U, D, P>,
        label: Label,
        width: usize,
        n: usize,
    ) -> Result<Vec<TranscriptBound<usize>>, TranscriptError>
        requires has { IsTrue HAS_UNIFORM }
        requires within { width ≤ most_bits }
        ensures { Keeps C.state P.bytes (meaning.drawn_list {Symbol = C.Symbol}
            (uniform_bits_step label.now width (Length.Fixed n)) (uniform_draws width) n)
            driver.old bound_values result driver.new };

    /// Draws numbers of `width` uniform bits until the rule has accepted `n`, on either side.
    ///
    /// Conditions: the group has uniform bits, `width` is at most [`max_bits`](StepGroup::max_bits), and the rule may
    /// be called at any time.
    fn challenge_uniform_bits_rejecting<
        U,
        D: DigestHasher,
        P: Tape,
        R: Fn(usize, &[usize]) -> bool,
    >(
        driver: &mut DriverState<C, U, D, P>,
        label: Label,
        width: usize,
        n: usize,
        accept: &R,
        limit: u64,
    ) -> Result<Vec<TranscriptBound<usize>>, TranscriptError>
        requires has { IsTrue HAS_UNIFORM }
        requires within { width ≤ most_bits }
        requires callable { R.IsAlwaysCallable accept.now }
        ensures played { (rule : Rule ℕ) → ComputesOfValues R.Fn accept.now rule → PlaysOnDriver
            C.state (drawn_rejecting {Symbol = C.Symbol} (uniform_bits_step label.now width
            (Length.Fixed n)) (uniform_draws width) rule limit n) driver.old bound_values result driver.new }
        ensures kept { (driving_of C.state P.bytes driver.new).bytes
            ≡ (driving_of C.state P.bytes driver.old).bytes };

    /// Searches for a witness and sends it, as the prover.
    ///
    /// Conditions: the group has proof of work, and `bits` is at most [`max_bits`](StepGroup::max_bits).
    fn pow<U, D: DigestHasher>(
        prover: &mut ProverState<C, U, D>,
        label: Label,
        bits: usize,
    ) -> Result<(), TranscriptError>
        requires has { IsTrue HAS_POW }
        requires within { bits ≤ most_bits }
        ensures { let step = ⟦<F as Declared<F, D>>⟧.step Kind.Pow label.now (Length.Fixed bits) in
            SendsWork C.state (work_of step F.residues before_witness witness bit_draws bits)
            (encoding F.residues F.bit_length) may_run_out prover.old result prover.new };

    /// Searches for a witness and returns it, as the prover.
    ///
    /// Conditions: the group has proof of work, and `bits` is at most [`max_bits`](StepGroup::max_bits).
    fn observe_pow<U, D: DigestHasher>(
        prover: &mut ProverState<C, U, D>,
        label: Label,
        bits: usize,
    ) -> Result<F, TranscriptError>
        requires has { IsTrue HAS_POW }
        requires within { bits ≤ most_bits }
        ensures { let step = ⟦<F as Declared<F, D>>⟧.step Kind.Pow label.now (Length.Fixed bits) in
            FindsWork C.state (work_of step F.residues before_witness witness bit_draws bits)
            may_run_out prover.old result prover.new };

    /// Reads a witness and checks it, as the verifier.
    ///
    /// Conditions: the group has proof of work, and `bits` is at most [`max_bits`](StepGroup::max_bits).
    fn check_pow<U, D: DigestHasher>(
        verifier: &mut VerifierState<'_, C, U, D>,
        label: Label,
        bits: usize,
    ) -> Result<(), TranscriptError>
        requires has { IsTrue HAS_POW }
        requires within { bits ≤ most_bits }
        ensures { let step = ⟦<F as Declared<F, D>>⟧.step Kind.Pow label.now (Length.Fixed bits) in
            ReadsWork C.state (work_of step F.residues before_witness witness bit_draws bits)
            (encoding F.residues F.bit_length) verifier.old result verifier.new };

    /// Checks a witness that the verifier's caller supplies.
    ///
    /// Conditions: the group has proof of work, and `bits` is at most [`max_bits`](StepGroup::max_bits).
    fn check_carried_pow<U, D: DigestHasher>(
        verifier: &mut VerifierState<'_, C, U, D>,
        label: Label,
        bits: usize,
        carried: F,
    ) -> Result<(), TranscriptError>
        requires has { IsTrue HAS_POW }
        requires within { bits ≤ most_bits }
        ensures { let step = ⟦<F as Declared<F, D>>⟧.step Kind.Pow label.now (Length.Fixed bits) in
            ChecksAndKeeps (work_of step F.residues before_witness witness bit_draws bits) carried
            (verifying_of C.state verifier.old) result (verifying_of C.state verifier.new) };

    /// Draws of bits and checks of work are refused for the draw limit only where it is met. A witness that a prover
    /// has found passes. A law: the body does nothing.
    fn steps_are_lawful()
        ensures bits { IsTrue HAS_POW → (width n : ℕ) →
            TellsLimits {Symbol = C.Symbol} (drawing_list (bit_draws width) n) }
        ensures uniform { IsTrue HAS_UNIFORM → (width n : ℕ) →
            TellsLimits {Symbol = C.Symbol} (drawing_list (uniform_draws width) n) }
        ensures rejecting { IsTrue HAS_UNIFORM → (width : ℕ) (rule : Rule ℕ) (limit n : ℕ) →
            TellsLimits {Symbol = C.Symbol} (drawing_rejecting (uniform_draws width) rule limit n) }
        ensures read { IsTrue HAS_POW → (step : Step) (bits : ℕ) (x : F) →
            CompletesWork (work_of step F.residues before_witness witness bit_draws bits)
            (encoding F.residues F.bit_length) x }
        ensures encoded { IsTrue HAS_POW → (step : Step) (bits : ℕ) →
            OnlyReadsWork (work_of step F.residues before_witness witness bit_draws bits)
            (encoding F.residues F.bit_length) }
        ensures carried { IsTrue HAS_POW → (step : Step) (bits : ℕ) (x : F) → CompletesCarriedWork
            (work_of step F.residues before_witness witness bit_draws bits) x };

    /// Draws of bits and proofs of work are refused for one reason. Any two errors from one state, neither of them out
    /// of memory, say the same. A law: the body only calls laws.
    fn steps_are_refused_for_one_reason()
        ensures bits { IsTrue HAS_POW → (step : Step) (width n : ℕ) →
            HasOneReason {Symbol = C.Symbol} (meaning.drawn_list step (bit_draws width) n) }
        ensures uniform { IsTrue HAS_UNIFORM → (step : Step) (width n : ℕ) →
            HasOneReason {Symbol = C.Symbol} (meaning.drawn_list step (uniform_draws width) n) }
        ensures rejecting { IsTrue HAS_UNIFORM →
            (step : Step) (width : ℕ) (rule : Rule ℕ) (limit n : ℕ) → HasOneReason
            {Symbol = C.Symbol} (drawn_rejecting step (uniform_draws width) rule limit n) }
        ensures ground { IsTrue HAS_POW → (step : Step) (bits : ℕ) → TellOneReason (RefusesToGrind
            (work_of step F.residues before_witness witness bit_draws bits) may_run_out) }
        ensures read { IsTrue HAS_POW → (step : Step) (bits : ℕ) → TellOneReason
            (RefusesToReadWork (work_of step F.residues before_witness witness bit_draws bits)
            (encoding F.residues F.bit_length)) }
        ensures carried { IsTrue HAS_POW → (step : Step) (bits : ℕ) (x : F) → TellOneReason
            (RefusesToCheck (work_of step F.residues before_witness witness bit_draws bits) x) };

    // Draws are draws of the challenger, and a witness feeds it the symbols that it is said to.
    ghost draws_and_feeds: { DrawsAndFeeds C.next C.fed bit_draws uniform_draws before_witness witness };

    // What witnesses feed tells them apart.
    ghost witnesses_prefix_free: { IsTrue HAS_POW → IsPrefixFree witness.symbols };
}

/// The plain steps alone, without bits and proofs of work. Not in the Rust crate.
#[derive(Clone, Copy, Debug)]
pub struct Plain;

/// The plain steps, bits and proofs of work. Not in the Rust crate.
#[derive(Clone, Copy, Debug)]
pub struct BitsPow;

/// The plain steps, bits and proofs of work, and uniform bits. Not in the Rust crate.
#[derive(Clone, Copy, Debug)]
pub struct Both;

// A step that the group does not have. No caller gets here: each would have to show that the group has it.
fn not_there<T>() -> Result<T, TranscriptError>
    ensures { IsErr result }
{
    Err(TranscriptError::Pattern(PatternError::Finished))
}
