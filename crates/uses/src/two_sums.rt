//! Two sumchecks in one transcript, each after its sum: `p3_sumcheck` inside a larger pattern.
//!
//! A prover has two tables of `2^n` values. It sends the sum of the first, and plays its rounds. Then it does the same
//! for the second, whose challenges depend on everything sent before. Whoever has the tables checks at the end that
//! each has the last value at its point.
ghost use Rattle.std.specs.Prelude.{◌≡◌, ◌≤◌, ◌^◌, ◌++◌, ℕ, length, IfErr, IfOk, OnOk};
ghost use Rattle.p3_challenger.specs.{Completeness.IsOwnRefusal, Drivers.{proving_of, verifying_of}};
ghost use Rattle.p3_challenger.specs.{PatternSteps.steps_of, SeparatorSeed.{held_of, pattern_of}};
ghost use Rattle.p3_challenger.specs.TranscriptError.TheVariants.{OutOfMemory};
ghost use Rattle.uses.specs.TwoSums.{AcceptsProofOfTwo, AcceptsTwo, IsSumcheckFault, PlaysNext, ProvesTwo};
ghost use Rattle.uses.specs.TwoSums.{ReadsSentSum, ReadsSentTwo, ReadsSum, ReadsTwo, RecordsViable, SendsSum};
ghost use Rattle.uses.specs.TwoSums.{SendsTwo, steps_of_sum, steps_of_two};

use crate::Seeded;
use p3_challenger::CanObserve;
use p3_challenger::fs::{
    Codec, Declared, DomainSeparator, Hierarchy, Interaction, InteractionPattern, Kind, Length,
    Pattern, PatternState, ProverState, TranscriptError, Unit, VerifierState,
};
use p3_challenger::laws::completeness::sent_value_is_received;
use p3_challenger::laws::encodings::read_values_are_encoded;
use p3_challenger::laws::memory::only_memory_refuses_sent_values;
use p3_field::ScalarField;
use p3_sumcheck::{SumcheckError, Sums, declare, prove, sum, verify};
use p3_symmetric::DigestHasher;
use std::alloc::Global;

/// What a verifier is left with for one sum.
#[derive(Debug, Drop)]
pub struct Reduced<F> {
    /// The sum that was sent.
    pub sum: F,
    /// The point of its rounds.
    pub point: Vec<F>,
    /// The value of the table at the point, if the sum is right.
    pub value: F,
}

/// Returns the pattern of two sums of tables of `2^n` values, where `n` is the number of rounds.
///
/// The one error is out of memory.
pub fn pattern<F: ScalarField, U, D: DigestHasher>(
    alloc: Global,
    rounds: usize,
) -> Result<InteractionPattern, TranscriptError>
    ensures steps { IfOk result (λ pattern. steps_of pattern ≡ steps_of_two ⟦<F as Declared<F, D>>⟧.algebra rounds) }
    ensures only { IfErr result (λ e. e ≡ OutOfMemory) }
{
    let mut recorder = PatternState::<U>::new(alloc);
    let recorded = record_two::<F, U, D>(&mut recorder, rounds);
    recorded.and(recorder.finalize())
}

fn record_two<F: ScalarField, U, D: DigestHasher>(
    recorder: &mut PatternState<U>,
    rounds: usize,
) -> Result<(), TranscriptError>
    ensures steps { OnOk result (recorder.new.steps
        ≡ recorder.old.steps ++ steps_of_two ⟦<F as Declared<F, D>>⟧.algebra rounds) }
    ensures only { RecordsViable (steps_of_two ⟦<F as Declared<F, D>>⟧.algebra rounds)
        recorder.old result recorder.new }
{
    record_sum::<F, U, D>(recorder, rounds)?;
    record_sum::<F, U, D>(recorder, rounds)
}

fn record_sum<F: ScalarField, U, D: DigestHasher>(
    recorder: &mut PatternState<U>,
    rounds: usize,
) -> Result<(), TranscriptError>
    ensures steps { OnOk result (recorder.new.steps
        ≡ recorder.old.steps ++ steps_of_sum ⟦<F as Declared<F, D>>⟧.algebra rounds) }
    ensures only { RecordsViable (steps_of_sum ⟦<F as Declared<F, D>>⟧.algebra rounds)
        recorder.old result recorder.new }
{
    let leaf = Hierarchy::Atomic;
    let sum = Interaction::algebra::<F, F, D>(leaf, Kind::Message, "sum", Length::Scalar);
    recorder.interact(sum)?;
    declare::<F, U, D>(recorder, rounds)
}

/// Sends both tables, and returns the bytes of the proof.
///
/// Under a separator of that pattern a step is refused only by the challenger, by the alphabet, or for memory.
///
/// Conditions: the tables have `2^n` values, `U` is an alphabet, and the codec has at least
/// [`MIN_CHALLENGE_SECURITY_BITS`](p3_challenger::fs::MIN_CHALLENGE_SECURITY_BITS) bits of security.
pub fn prove_two<
    F: ScalarField,
    U: Unit,
    C: CanObserve<U::Item> + Drop,
    D: DigestHasher,
    Cdc: Codec<C, F>,
>(
    alloc: Global,
    challenger: C,
    separator: &DomainSeparator<U, D>,
    first: Vec<F>,
    second: Vec<F>,
) -> Result<Vec<u8>, TranscriptError>
    requires first { (n : ℕ) × (length first.items ≡ 2 ^ n) }
    requires second { (n : ℕ) × (length second.items ≡ 2 ^ n) }
    requires alphabet { U.is_alphabet }
    requires secure { 128 ≤ Cdc.SECURITY_BITS }
    ensures sent { IfOk result (λ proof. ProvesTwo ⟦<F as Sums<F, C, D, Cdc>>⟧.sumcheck first.items second.items
        (⟦<C as Seeded<U, D>>⟧.seeded challenger (held_of separator.now)) (pattern_of separator.now) proof.items) }
    ensures only { (n : ℕ) → length first.items ≡ 2 ^ n → length second.items ≡ 2 ^ n → (pattern_of separator.now).steps
        ≡ steps_of_two ⟦<F as Declared<F, D>>⟧.algebra n → IfErr result IsOwnRefusal }
{
    let mut prover = ProverState::new(alloc, challenger, separator)?;
    let sent = send_two::<F, U, C, D, Cdc>(alloc, first, second, &mut prover);
    // A prover has to be spent, also where a step was refused.
    sent.and(prover.finalize())
}

fn send_two<
    F: ScalarField,
    U: Unit,
    C: CanObserve<U::Item> + Drop,
    D: DigestHasher,
    Cdc: Codec<C, F>,
>(
    alloc: Global,
    first: Vec<F>,
    second: Vec<F>,
    prover: &mut ProverState<C, U, D>,
) -> Result<(), TranscriptError>
    requires first { (n : ℕ) × (length first.items ≡ 2 ^ n) }
    requires second { (n : ℕ) × (length second.items ≡ 2 ^ n) }
    requires secure { 128 ≤ Cdc.SECURITY_BITS }
    ensures sent { OnOk result (SendsTwo ⟦<F as Sums<F, C, D, Cdc>>⟧.sumcheck first.items second.items
        (proving_of C.state prover.old) (proving_of C.state prover.new)) }
    ensures only { (n : ℕ) → length first.items ≡ 2 ^ n → length second.items ≡ 2 ^ n →
        PlaysNext (steps_of_two ⟦<F as Declared<F, D>>⟧.algebra n) IsOwnRefusal
        (proving_of C.state prover.old) result (proving_of C.state prover.new) }
{
    send_sum::<F, U, C, D, Cdc>(alloc, first, prover)?;
    send_sum::<F, U, C, D, Cdc>(alloc, second, prover)
}

// Sends the sum of a table, and plays its rounds.
fn send_sum<
    F: ScalarField,
    U: Unit,
    C: CanObserve<U::Item> + Drop,
    D: DigestHasher,
    Cdc: Codec<C, F>,
>(alloc: Global, table: Vec<F>, prover: &mut ProverState<C, U, D>) -> Result<(), TranscriptError>
    requires size { (n : ℕ) × (length table.items ≡ 2 ^ n) }
    requires secure { 128 ≤ Cdc.SECURITY_BITS }
    ensures sent { OnOk result (SendsSum ⟦<F as Sums<F, C, D, Cdc>>⟧.sumcheck table.items
        (proving_of C.state prover.old) (proving_of C.state prover.new)) }
    ensures only { (n : ℕ) → length table.items ≡ 2 ^ n → PlaysNext (steps_of_sum ⟦<F as Declared<F, D>>⟧.algebra n)
        IsOwnRefusal (proving_of C.state prover.old) result (proving_of C.state prover.new) }
{
    let claim = sum(&table);
    prover.add_scalar::<F, Cdc>("sum", &claim)?;
    prove::<F, U, C, D, Cdc>(alloc, table, prover)?;
    Ok(())
}

/// Reads a proof of two sums, and returns what is left of each.
///
/// Accepted bytes are exactly two sums, each in the one encoding of its element. Each sum has the rounds after it that
/// lead to the value left. Whoever has a table has to check the value at its point. A proof that [`prove_two`] sent
/// from an equal challenger under the same separator is accepted, with the sums of its tables and the value of each at
/// its point. Only out of memory can come instead.
///
/// Under a separator of that pattern the error is [`SumcheckError::Round`] where a pair does not add up to the claim.
/// Else the proof has another shape, or the challenger, the alphabet or memory refuses a step.
///
/// Conditions: `U` is an alphabet, and the codec has at least
/// [`MIN_CHALLENGE_SECURITY_BITS`](p3_challenger::fs::MIN_CHALLENGE_SECURITY_BITS) bits of security.
pub fn verify_two<
    F: ScalarField,
    U: Unit,
    C: CanObserve<U::Item> + Drop,
    D: DigestHasher,
    Cdc: Codec<C, F>,
>(
    alloc: Global,
    challenger: C,
    separator: &DomainSeparator<U, D>,
    rounds: usize,
    proof: &[u8],
) -> Result<(Reduced<F>, Reduced<F>), SumcheckError>
    requires alphabet { U.is_alphabet }
    requires secure { 128 ≤ Cdc.SECURITY_BITS }
    ensures accepts { IfOk result (λ read. AcceptsTwo ⟦<F as Sums<F, C, D, Cdc>>⟧.sumcheck rounds read.0 read.1
        (⟦<C as Seeded<U, D>>⟧.seeded challenger (held_of separator.now)) (pattern_of separator.now) proof.now) }
    ensures only { (pattern_of separator.now).steps ≡ steps_of_two ⟦<F as Declared<F, D>>⟧.algebra rounds →
        IfErr result (IsSumcheckFault rounds) }
    ensures complete { ⟦<C as Seeded<U, D>>⟧.fits (held_of separator.now) →
        AcceptsProofOfTwo ⟦<F as Sums<F, C, D, Cdc>>⟧.sumcheck rounds
        (⟦<C as Seeded<U, D>>⟧.seeded challenger (held_of separator.now)) (pattern_of separator.now) proof.now result }
{
    let mut verifier = VerifierState::new(alloc, challenger, separator, proof)?;
    let received = receive_two::<F, U, C, D, Cdc>(alloc, rounds, &mut verifier);
    // A verifier has to be spent, also where a step was refused.
    let end = verifier.finalize();
    let read = received?;
    end?;
    Ok(read)
}

fn receive_two<
    F: ScalarField,
    U: Unit,
    C: CanObserve<U::Item> + Drop,
    D: DigestHasher,
    Cdc: Codec<C, F>,
>(
    alloc: Global,
    rounds: usize,
    verifier: &mut VerifierState<'_, C, U, D>,
) -> Result<(Reduced<F>, Reduced<F>), SumcheckError>
    requires { 128 ≤ Cdc.SECURITY_BITS }
    ensures accepts { IfOk result (λ read. ReadsTwo ⟦<F as Sums<F, C, D, Cdc>>⟧.sumcheck rounds read.0 read.1
        (verifying_of C.state verifier.old) (verifying_of C.state verifier.new)) }
    ensures only { PlaysNext (steps_of_two ⟦<F as Declared<F, D>>⟧.algebra rounds) (IsSumcheckFault rounds)
        (verifying_of C.state verifier.old) result (verifying_of C.state verifier.new) }
    ensures complete { ReadsSentTwo ⟦<F as Sums<F, C, D, Cdc>>⟧.sumcheck rounds
        (verifying_of C.state verifier.old) result (verifying_of C.state verifier.new) }
{
    let first = receive_sum::<F, U, C, D, Cdc>(alloc, rounds, verifier)?;
    let second = receive_sum::<F, U, C, D, Cdc>(alloc, rounds, verifier)?;
    Ok((first, second))
}

// Reads a sum, and its rounds.
fn receive_sum<
    F: ScalarField,
    U: Unit,
    C: CanObserve<U::Item> + Drop,
    D: DigestHasher,
    Cdc: Codec<C, F>,
>(
    alloc: Global,
    rounds: usize,
    verifier: &mut VerifierState<'_, C, U, D>,
) -> Result<Reduced<F>, SumcheckError>
    requires { 128 ≤ Cdc.SECURITY_BITS }
    ensures accepts { IfOk result (λ read. ReadsSum ⟦<F as Sums<F, C, D, Cdc>>⟧.sumcheck rounds read
        (verifying_of C.state verifier.old) (verifying_of C.state verifier.new)) }
    ensures only { PlaysNext (steps_of_sum ⟦<F as Declared<F, D>>⟧.algebra rounds) (IsSumcheckFault rounds)
        (verifying_of C.state verifier.old) result (verifying_of C.state verifier.new) }
    ensures complete { ReadsSentSum ⟦<F as Sums<F, C, D, Cdc>>⟧.sumcheck rounds
        (verifying_of C.state verifier.old) result (verifying_of C.state verifier.new) }
{
    // Laws, which do nothing: what is read of bytes is encoded so; and a sum that was sent is received, or memory is out.
    read_values_are_encoded::<F, U, C, Cdc>();
    sent_value_is_received::<F, C, Cdc>();
    only_memory_refuses_sent_values::<F, U, C, Cdc>();
    let _unread = verifier.unread();
    let sum = verifier.next_scalar::<F, Cdc>("sum")?.into_inner();
    let (point, value) = verify::<F, U, C, D, Cdc>(alloc, sum, rounds, verifier)?;
    Ok(Reduced { sum, point, value })
}
