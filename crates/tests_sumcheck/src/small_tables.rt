// The rows of the small world, worked out by hand.
ghost use Rattle.std.specs.Prelude.{◌≡◌, ◌^◌, length, vec_len, IfOk};

use crate::sides::{prove_table, verify_proof};
use p3_challenger::fs::{FieldToFieldCodec, FieldUnit, TranscriptError};
use p3_challenger::{CanCopy, CanObserve, CanSample, DuplexChallenger};
use p3_field::{F257, PrimeCharacteristicRing, PrimeField64};
use p3_symmetric::Turn;
use std::alloc::{AllocError, Global};
use std::process::Abort;

// The small world: a duplex challenger of three cells, of which two are the rate. Right after the seed, whatever the
// pattern is, it draws 2, 6, 8, 132, 134, 6.
type World = DuplexChallenger<F257, Turn<2>, 3, 2>;

type Alphabet = FieldUnit<F257>;

type Scalars = FieldToFieldCodec<F257>;

// A claim, a number of rounds and a proof, and what is answered.
struct Row {
    claim: u64,
    rounds: usize,
    proof: &'static [u8],
    // The point and the last claim, or why the proof is refused.
    answer: &'static str,
}

const ROWS: [Row; 6] = [
    Row {
        claim: 10,
        rounds: 2,
        proof: &[0, 3, 0, 7, 0, 11, 0, 12],
        answer: "5 13 24",
    },
    Row {
        claim: 11,
        rounds: 2,
        proof: &[0, 3, 0, 7, 0, 11, 0, 12],
        answer: "the values of round 0 do not add to the claim",
    },
    Row {
        claim: 10,
        rounds: 2,
        proof: &[0, 3, 0, 7, 0, 11, 0, 13],
        answer: "the values of round 1 do not add to the claim",
    },
    Row {
        claim: 10,
        rounds: 2,
        proof: &[0, 3],
        answer: "bad proof shape: step declares more values than the wire holds",
    },
    Row {
        claim: 9,
        rounds: 0,
        proof: &[],
        answer: "9",
    },
    Row {
        claim: 10,
        rounds: 1,
        proof: &[0, 3, 0, 7],
        answer: "5 23",
    },
];

fn element(number: u64) -> F257 {
    F257::from_u64(number)
}

// The elements of numbers.
fn elements(alloc: Global, numbers: &[u64]) -> Result<Vec<F257>, AllocError>
    ensures { IfOk result (λ elements. vec_len elements ≡ length numbers.now) }
{
    numbers.iter().map(|number| element(*number)).collect(alloc)
}

// The numbers of a point and of a value.
fn told(alloc: Global, point: &[F257], value: F257) -> Result<String, AllocError> {
    let mut text = String::new(alloc);
    for x in point {
        text.push_str(&format!(in alloc; "{} ", x.as_canonical_u64())?)?;
    }
    text.push_str(&format!(in alloc; "{}", value.as_canonical_u64())?)?;
    Ok(text)
}

// What is answered to the proof of a row.
fn answer<C: CanCopy + CanObserve<F257> + CanSample<F257>>(
    alloc: Global,
    fresh: &C,
    row: &Row,
) -> Result<String, TranscriptError> {
    let answered = verify_proof::<F257, Alphabet, C, Scalars>(
        alloc,
        fresh.copy()?,
        element(row.claim),
        row.rounds,
        row.proof,
    );
    match answered {
        Ok((point, value)) => Ok(told(alloc, &point, value)?),
        Err(error) => Ok(error.to_string(alloc)?),
    }
}

fn answers_each<C: CanCopy + CanObserve<F257> + CanSample<F257>>(
    alloc: Global,
    fresh: &C,
) -> Result<bool, TranscriptError> {
    for row in &ROWS {
        if answer(alloc, fresh, row)?.as_str() != row.answer {
            return Ok(false);
        }
    }
    Ok(true)
}

// Whether this is the proof of a table, and what is told of it.
fn proves<C: CanCopy + CanObserve<F257> + CanSample<F257>>(
    alloc: Global,
    fresh: &C,
    numbers: &[u64],
    rounds: usize,
    expected: (&[u8], &str),
) -> Result<bool, TranscriptError>
    requires { length numbers.now ≡ 2 ^ rounds }
{
    let table = elements(alloc, numbers)?;
    let (proof, point, value) = prove_table::<F257, Alphabet, C, Scalars>(
        alloc,
        fresh.copy()?,
        table,
        rounds,
    )?;
    let text = told(alloc, &point, value)?;
    Ok(proof.as_slice() == expected.0 && text.as_str() == expected.1)
}

fn proves_each<C: CanCopy + CanObserve<F257> + CanSample<F257>>(
    alloc: Global,
    fresh: &C,
) -> Result<bool, TranscriptError> {
    let four = (ROWS[0].proof, ROWS[0].answer);
    let of_four = proves(alloc, fresh, &[1, 2, 3, 4], 2, four)?;
    let of_one = proves(alloc, fresh, &[9], 0, (b"", "9"))?;
    Ok(of_four && of_one)
}

#[test]
fn tables_of_the_small_world_are_proved_and_verified(rt: HostRuntime) {
    let fresh: World = DuplexChallenger::new(Turn, 10);
    assert!(rt; answers_each(rt.alloc(), &fresh) == Ok(true));
    assert!(rt; proves_each(rt.alloc(), &fresh) == Ok(true));
}
