// What each step of a proof read, fed and drew.
ghost use Rattle.std.specs.Prelude.{◌≡◌, ◌+◌, ◌++◌, IfOk, IfSome, OnOk, None, [], flat_map, length};

use crate::fault::fault_byte;
use crate::shown::{drawn, known, received};
use crate::suites::Told;
use anyhow::{Result, bail};
use p3_challenger::fs::script::{Answer, Fault, Received, Step, Suite, verifier_step};
use p3_challenger::fs::{Codec, TranscriptError, VerifierState};
use p3_field::PrimeField64;
use script_lines::alone::{is_admitted, is_carried, only};
use script_lines::world::SeparatorOf;
use std::alloc::Global;
use tealmuze_text::proofs::copied;
use tealmuze_text::shown::Shown;

type VerifierOf<'n, S> = VerifierState<
    'n,
    <S as Suite>::Challenger,
    <S as Suite>::Unit,
    <S as Suite>::Digest,
>;

/// What a step did that was played.
#[derive(Drop)]
pub struct Row<'n> {
    /// At which byte of the proof it began to read.
    pub offset: usize,
    /// The bytes of the proof that it read.
    pub read: &'n [u8],
    /// The value that it received, or that both sides know.
    pub value: Option<Shown>,
    /// The bytes that it fed the challenger, where that keeps them.
    pub fed: Option<Vec<u8>>,
    /// What it drew.
    pub drawn: Option<Shown>,
}

/// What became of a proof.
#[derive(Drop)]
pub struct Explained<'n> {
    /// The bytes that the separator fed the challenger, where that keeps them.
    pub seed: Option<Vec<u8>>,
    /// What the steps did, in order, up to the one that was refused.
    pub rows: Vec<Row<'n>>,
    /// The bytes that they left.
    pub unread: &'n [u8],
    /// Where the proof was refused, with the byte.
    pub refused: Option<(Fault, usize)>,
}

/// Plays a proof step by step on a verifier. The error is that the steps cannot be played, or that memory ran out.
pub fn explain<'n, S: Told>(
    alloc: Global,
    separator: &SeparatorOf<S>,
    steps: &[Step<S>],
    carried: &[S::Field],
    proof: &'n [u8],
) -> Result<Explained<'n>>
    ensures read { IfOk result (λ e. flat_map (λ row. row.read.now) e.rows.items ++ e.unread.now ≡ proof.now) }
    ensures played { IfOk result (λ e. e.refused ≡ None → length e.rows.items ≡ length steps.now) }
    ensures stopped { IfOk result (λ e. IfSome e.refused (λ refused. refused.0.position ≡ length e.rows.items)) }
{
    let mut explained = Explained {
        seed: None,
        rows: Vec::new(alloc),
        unread: proof,
        refused: None,
    };
    let mut verifier = match VerifierState::new(alloc, S::fresh(alloc)?, separator, proof) {
        Ok(verifier) => verifier,
        Err(error) => {
            explained.refused = Some((Fault { position: 0, error }, 0));
            return Ok(explained);
        }
    };
    let played = play::<S>(alloc, &mut verifier, steps, carried, proof, &mut explained);
    let end = verifier.finish();
    played?;
    explained.keep_end(proof.len(), steps.len(), end.err());
    Ok(explained)
}

// Plays the steps up to the first that is refused.
fn play<'n, S: Told>(
    alloc: Global,
    verifier: &mut VerifierOf<'n, S>,
    steps: &[Step<S>],
    carried: &[S::Field],
    proof: &'n [u8],
    explained: &mut Explained<'n>,
) -> Result<()>
    requires unread { explained.old.unread.now ≡ proof.now }
    requires fresh { (explained.old.rows.items ≡ []) × (explained.old.refused ≡ None) }
    ensures read { flat_map (λ row. row.read.now) explained.new.rows.items ++ explained.new.unread.now ≡ proof.now }
    ensures played { OnOk result (explained.new.refused ≡ None → length explained.new.rows.items ≡ length steps.now) }
    ensures stopped { OnOk result
        (IfSome explained.new.refused (λ refused. refused.0.position ≡ length explained.new.rows.items)) }
{
    explained.seed = waiting::<S>(alloc, verifier.challenger_mut(), 0)?;
    let mut carried = carried.iter();
    for position in 0..steps.len() {
        let step = &steps[position];
        let witness = match step {
            Step::ObservePow { .. } => carried.next().copied(),
            _ => None,
        };
        let pending = pending_len::<S>(verifier.challenger_mut());
        let offset = proof.len().saturating_sub(explained.unread.len());
        match play_step(alloc, verifier, &steps[position..=position], witness)? {
            Ok(answer) => {
                let challenger = verifier.challenger_mut();
                let fed = fed::<S>(alloc, challenger, step, witness, &answer, pending)?;
                let left = verifier.remaining_narg();
                let value = value_of::<S>(alloc, step, &answer, witness)?;
                explained.keep::<S>(alloc, answer, value, fed, offset, left)?;
            }
            Err(error) => {
                let byte = fault_byte(step, &error, proof, offset);
                explained.refused = Some((Fault { position, error }, byte));
                break;
            }
        }
    }
    Ok(())
}

impl<'n> Explained<'n> {
    // Keeps why the end is refused, where no step was. A proof has so many bytes.
    fn keep_end(&mut self, len: usize, position: usize, error: Option<TranscriptError>)
        requires played { self.old.refused ≡ None → length self.old.rows.items ≡ position }
        requires stopped { IfSome self.old.refused (λ refused. refused.0.position ≡ length self.old.rows.items) }
        ensures rest { (self.new.rows ≡ self.old.rows) × (self.new.unread ≡ self.old.unread) }
        ensures played { self.new.refused ≡ None → self.old.refused ≡ None }
        ensures stopped { IfSome self.new.refused (λ refused. refused.0.position ≡ length self.new.rows.items) }
    {
        if let (None, Some(error)) = (&self.refused, error) {
            let byte = len.saturating_sub(self.unread.len());
            self.refused = Some((Fault { position, error }, byte));
        }
    }

    // Keeps what a step answered, which began to read at `offset` and left so many bytes.
    fn keep<S: Told>(
        &mut self,
        alloc: Global,
        answer: Answer<'n, S>,
        value: Option<Shown>,
        fed: Option<Vec<u8>>,
        offset: usize,
        left: usize,
    ) -> Result<()>
        ensures read { flat_map (λ row. row.read.now) self.new.rows.items ++ self.new.unread.now
            ≡ flat_map (λ row. row.read.now) self.old.rows.items ++ self.old.unread.now }
        ensures one { OnOk result (length self.new.rows.items ≡ length self.old.rows.items + 1) }
        ensures rest { self.new.refused ≡ self.old.refused }
    {
        let drawn = match &answer.1 {
            Some(values) => Some(drawn::<S>(alloc, values)?),
            None => None,
        };
        let (read, unread) = self.unread.split_at(self.unread.len().saturating_sub(left));
        self.rows.push(Row {
            offset,
            read,
            value,
            fed,
            drawn,
        })?;
        self.unread = unread;
        Ok(())
    }
}

// The value of a step: what it received, the witness that the caller carried to it, or what both sides know.
fn value_of<S: Told>(
    alloc: Global,
    step: &Step<S>,
    answer: &Answer<'_, S>,
    carried: Option<S::Field>,
) -> Result<Option<Shown>> {
    match (&answer.0, carried) {
        (Some(value), _) => Ok(Some(received::<S>(alloc, value)?)),
        (None, Some(witness)) => Ok(Some(Shown::Number(witness.as_canonical_u64()))),
        (None, None) => known::<S>(alloc, step),
    }
}

// Plays one step, which stands alone, with the witness that the caller carries to it, if it does.
fn play_step<'n, S: Suite>(
    alloc: Global,
    verifier: &mut VerifierOf<'n, S>,
    alone: &[Step<S>],
    witness: Option<S::Field>,
) -> Result<Result<Answer<'n, S>, TranscriptError>> {
    match only(alone) {
        Some(step) if is_admitted(alone, step) && is_carried(step, witness) => {
            Ok(verifier_step(alloc, verifier, step, witness))
        }
        _ => bail!("a step that is not played here, or not with this witness"),
    }
}

// The bytes that a step fed the challenger, which had so many pending before it.
fn fed<S: Told>(
    alloc: Global,
    challenger: &S::Challenger,
    step: &Step<S>,
    carried: Option<S::Field>,
    answer: &Answer<'_, S>,
    pending: usize,
) -> Result<Option<Vec<u8>>> {
    match (checked_witness::<S>(step, carried, answer), &answer.1) {
        (Some(witness), _) => fed_by_witness::<S>(alloc, &witness),
        (None, Some(_)) => waiting::<S>(alloc, challenger, usize::MAX),
        (None, None) => waiting::<S>(alloc, challenger, pending),
    }
}

// The witness that a step checks. Without bits nothing is checked, and nothing observed.
fn checked_witness<S: Told>(
    step: &Step<S>,
    carried: Option<S::Field>,
    answer: &Answer<'_, S>,
) -> Option<S::Field> {
    match (step, &answer.0) {
        (Step::Pow { bits, .. }, Some(Received::Witness(witness))) if *bits > 0 => Some(*witness),
        (Step::ObservePow { bits, .. }, _) if *bits > 0 => carried,
        _ => None,
    }
}

// The bytes that a witness feeds. The draw after it hashes them, so they are read off another challenger.
fn fed_by_witness<S: Told>(alloc: Global, witness: &S::Field) -> Result<Option<Vec<u8>>> {
    let mut challenger = S::fresh(alloc)?;
    S::Codec::observe(&mut challenger, witness)?;
    waiting::<S>(alloc, &challenger, 0)
}

// What waits in a challenger after so many bytes, if it keeps what it is fed.
fn waiting<S: Told>(
    alloc: Global,
    challenger: &S::Challenger,
    from: usize,
) -> Result<Option<Vec<u8>>> {
    match S::pending(challenger) {
        Some(bytes) => Ok(Some(copied(alloc, bytes.get(from..).unwrap_or(&[]))?)),
        None => Ok(None),
    }
}

// How many bytes wait in a challenger that keeps them.
fn pending_len<S: Told>(challenger: &S::Challenger) -> usize {
    match S::pending(challenger) {
        Some(bytes) => bytes.len(),
        None => 0,
    }
}
