//! Transcripts for callers in C and in Rust: a whole protocol is verified or proved by one call.
//!
//! `docs/BINDINGS.md` says what the bytes of a description and of an answer are, and `bindings/` has the header and the
//! Rust crate that callers use. A slice crosses as a pointer and a count. Each call writes its answer into the caller's
//! bytes and returns how many bytes the answer has. Where they are more than the caller gave, nothing is written, and
//! nothing was verified or proved yet: the caller gives that many and calls again.
//!
//! A protocol that is prepared is read once, and then serves many proofs. It is kept for as long as the program runs. A
//! transcript of it can be played step by step: the caller owns it from the call that begins it to the one that frees it.
#![tactic(auto)]

ghost use Rattle.std.specs.Prelude.{◌≡◌, ◌≤◌, ◌∷◌, [], ℕ, List, length, IfOk, IfErr, MatchOption};
ghost use Rattle.std.specs.{Borrow.{sem}, Ptr.{as_ptr}};
ghost use Rattle.tealmuze_c.specs.{Kept.is_shared_at, Owned.is_owned_at, Told.{Begins, IsBegun, IsPrepared, IsStep}};
ghost use Rattle.tealmuze_calls.specs.{Errors.IsDueTo, Written.Answers};
ghost use Rattle.tealmuze_calls.specs.contracts.prepared.Prepared.{the_row};
ghost use Rattle.tealmuze_live.specs.{Lives.IsNotBegun, contracts.live.Live.{the_row as the_live}};

mod handed;

use crate::handed::Handed;
use std::alloc::{AllocError, Global};
use std::ptr::NonNull;
use tealmuze_calls::{
    CallsBySuite, Described, Prepared, Suites, Unanswered, prepare, prove, prove_prepared, tell,
    verify, verify_prepared,
};
use tealmuze_live::{Live, NotBegun, Starts, Tells};

/// Verifies a proof of the protocol that the description has, with the witnesses that its `observe_pow` steps are
/// carried.
///
/// The description is lent for as long as the program runs: labels are lent of it. The answer's first byte is 0 where the
/// proof is accepted, and what was received and drawn stands after it; 1 where it is refused, and the position and the
/// reason stand after it; 2 where nothing was asked that can be answered, and why stands after it; and 3 where memory ran
/// out.
#[unsafe(no_mangle)]
pub extern "C" fn tealmuze_verify(
    alloc: Global,
    description: &'static [u8],
    proof: &[u8],
    carried: &[u64],
    answer: &mut [u8],
) -> usize
    ensures { Answers (⟦<Suites as CallsBySuite>⟧.tells_of_proof proof.now carried.now description.now)
        (⟦<Suites as CallsBySuite>⟧.asks_of_proof description.now carried.now)
        (⟦<Suites as CallsBySuite>⟧.wants_room (length proof.now) description.now) answer.old result answer.new }
{
    let found = verify(alloc, description, proof, carried, answer.len());
    tell(alloc, found, answer)
}

/// Proves the protocol that the description has, with these values, which are encoded as `tealmuze_verify` encodes those
/// that it received.
///
/// The answer is as of `tealmuze_verify`. After a first byte 0 stand the proof, the witnesses that were found, those of
/// them that the proof does not carry, and what was drawn.
#[unsafe(no_mangle)]
pub extern "C" fn tealmuze_prove(
    alloc: Global,
    description: &'static [u8],
    values: &[u8],
    answer: &mut [u8],
) -> usize
    ensures { Answers (⟦<Suites as CallsBySuite>⟧.tells_of_values values.now description.now)
        (⟦<Suites as CallsBySuite>⟧.asks_of_values description.now values.now)
        (⟦<Suites as CallsBySuite>⟧.wants_room (length values.now) description.now) answer.old result answer.new }
{
    let found = prove(alloc, description, values, answer.len());
    tell(alloc, found, answer)
}

// How many bytes suffice for the answer of `tealmuze_prepare`: its first, and a reason.
const PREPARED_ROOM: usize = 1001;

/// Prepares the protocol that the description has, and keeps it for as long as the program runs.
///
/// The answer is the byte 0 alone, and `prepared` then leads to the protocol; or it begins with 2 or 3 as those of
/// `tealmuze_verify` do, and `prepared` is as it was. At most 1001 bytes are wanted for it, and where there are fewer
/// nothing is prepared.
#[unsafe(no_mangle)]
pub extern "C" fn tealmuze_prepare(
    alloc: Global,
    description: &'static [u8],
    prepared: &mut *mut u8,
    answer: &mut [u8],
) -> usize
    ensures told { Answers (λ told. told ≡ 0 ∷ []) (⟦<Suites as CallsBySuite>⟧.is_described description.now)
        (λ wanted. wanted ≡ 1001) answer.old result answer.new }
    ensures* kept { ∃ₛ (λ (it : Prepared). sem 𝓛 (is_shared_at the_row prepared.new it)
        ∗ ⌜ IsPrepared result answer.new × ⟦<Prepared as Described>⟧.describes it description.now ⌝)
        ∨ₛ ⌜ (IsPrepared result answer.new → ⊥) × (prepared.new ≡ prepared.old) ⌝ }
{
    hand_out(alloc, description, prepared, answer).0
}

// Prepares a protocol, and hands out where it is kept. The number is that of the bytes of the answer.
fn hand_out(
    alloc: Global,
    description: &'static [u8],
    prepared: &mut *mut u8,
    answer: &mut [u8],
) -> (usize, Option<&'static Prepared>)
    ensures told { Answers (λ told. told ≡ 0 ∷ []) (⟦<Suites as CallsBySuite>⟧.is_described description.now)
        (λ wanted. wanted ≡ 1001) answer.old result.0 answer.new }
    ensures kept { MatchOption result.1 ((IsPrepared result.0 answer.new → ⊥) × (prepared.new ≡ prepared.old))
        (λ it. (IsPrepared result.0 answer.new × ⟦<Prepared as Described>⟧.describes it.now description.now)
        × (prepared.new ≡ as_ptr it)) }
{
    if answer.len() < PREPARED_ROOM {
        return (PREPARED_ROOM, None);
    }
    match kept(alloc, description) {
        Ok(it) => {
            *prepared = NonNull::from_ref(it).cast::<u8>().as_ptr();
            answer[0] = 0;
            (1, Some(it))
        }
        Err(reason) => (tell(alloc, Err(reason), answer), None),
    }
}

// Prepares a protocol, which is kept for as long as the program runs.
fn kept(alloc: Global, description: &'static [u8]) -> Result<&'static Prepared, Unanswered>
    ensures ok { IfOk result (λ it. ⟦<Prepared as Described>⟧.describes it.now description.now) }
    ensures err { IfErr result
        (IsDueTo (⟦<Suites as CallsBySuite>⟧.is_described description.now → ⊥)) }
{
    let it = prepare(alloc, description)?;
    Ok(keep(alloc, it)?)
}

fn keep<'a, T: Drop + 'a>(alloc: Global, value: T) -> Result<&'a T, AllocError>
    ensures { IfOk result (λ it. it.now ≡ value) }
{
    Ok(Box::leak(Box::new(alloc, value)?))
}

/// Answers what `tealmuze_verify` does of a description that was prepared.
///
/// `prepared` is a pointer that `tealmuze_prepare` wrote. One thread at a time may call with it.
#[unsafe(no_mangle)]
pub unsafe extern "C" fn tealmuze_verify_prepared(
    alloc: Global,
    prepared: *mut u8,
    proof: &[u8],
    carried: &[u64],
    answer: &mut [u8],
) -> usize
    ghost read: { Prepared × List ℕ }
    requires described { ⟦<Prepared as Described>⟧.describes read.0 read.1 }
    requires* shared { sem 𝓛 (is_shared_at the_row prepared read.0) }
    ensures { Answers (⟦<Suites as CallsBySuite>⟧.tells_of_proof proof.now carried.now read.1)
        (⟦<Suites as CallsBySuite>⟧.asks_of_proof read.1 carried.now)
        (⟦<Suites as CallsBySuite>⟧.wants_room (length proof.now) read.1) answer.old result answer.new }
{
    verify_kept(&*(prepared as *mut Prepared), alloc, proof, carried, answer)
}

fn verify_kept(
    prepared: &'static Prepared,
    alloc: Global,
    proof: &[u8],
    carried: &[u64],
    answer: &mut [u8],
) -> usize
    requires { (description : List ℕ) × ⟦<Prepared as Described>⟧.describes prepared.now description }
    ensures { (description : List ℕ) → ⟦<Prepared as Described>⟧.describes prepared.now description →
        Answers (⟦<Suites as CallsBySuite>⟧.tells_of_proof proof.now carried.now description)
        (⟦<Suites as CallsBySuite>⟧.asks_of_proof description carried.now)
        (⟦<Suites as CallsBySuite>⟧.wants_room (length proof.now) description) answer.old result answer.new }
{
    let found = verify_prepared(alloc, prepared, proof, carried, answer.len());
    tell(alloc, found, answer)
}

/// Answers what `tealmuze_prove` does of a description that was prepared.
///
/// `prepared` is a pointer that `tealmuze_prepare` wrote. One thread at a time may call with it.
#[unsafe(no_mangle)]
pub unsafe extern "C" fn tealmuze_prove_prepared(
    alloc: Global,
    prepared: *mut u8,
    values: &[u8],
    answer: &mut [u8],
) -> usize
    ghost read: { Prepared × List ℕ }
    requires described { ⟦<Prepared as Described>⟧.describes read.0 read.1 }
    requires* shared { sem 𝓛 (is_shared_at the_row prepared read.0) }
    ensures { Answers (⟦<Suites as CallsBySuite>⟧.tells_of_values values.now read.1)
        (⟦<Suites as CallsBySuite>⟧.asks_of_values read.1 values.now)
        (⟦<Suites as CallsBySuite>⟧.wants_room (length values.now) read.1) answer.old result answer.new }
{
    prove_kept(&*(prepared as *mut Prepared), alloc, values, answer)
}

fn prove_kept(prepared: &'static Prepared, alloc: Global, values: &[u8], answer: &mut [u8]) -> usize
    requires { (description : List ℕ) × ⟦<Prepared as Described>⟧.describes prepared.now description }
    ensures { (description : List ℕ) → ⟦<Prepared as Described>⟧.describes prepared.now description →
        Answers (⟦<Suites as CallsBySuite>⟧.tells_of_values values.now description)
        (⟦<Suites as CallsBySuite>⟧.asks_of_values description values.now)
        (⟦<Suites as CallsBySuite>⟧.wants_room (length values.now) description) answer.old result answer.new }
{
    let found = prove_prepared(alloc, prepared, values, answer.len());
    tell(alloc, found, answer)
}

// How many bytes suffice for the answer of `tealmuze_prover` and of `tealmuze_verifier`: its first, a position, and a
// reason.
const BEGUN_ROOM: usize = 1009;

/// Begins a prover of a prepared protocol, which is played step by step.
///
/// The answer is the byte 0 alone, and `transcript` then leads to a prover at the start of the protocol: its challenger
/// observed nothing but the seed, no step was played, and no byte of the proof is written. Or the answer begins with 1,
/// where the seed is refused, or with 3, as those of `tealmuze_verify` do, and `transcript` is as it was. At most 1009
/// bytes are wanted for it, and where there are fewer nothing is begun. `prepared` is a pointer that `tealmuze_prepare`
/// wrote. One thread at a time may call with it, and with the transcripts of its protocol.
#[unsafe(no_mangle)]
pub unsafe extern "C" fn tealmuze_prover(
    alloc: Global,
    prepared: *mut u8,
    transcript: &mut *mut u8,
    answer: &mut [u8],
) -> usize
    ghost read: { Prepared }
    requires* shared { sem 𝓛 (is_shared_at the_row prepared read) }
    ensures told { Begins answer.old result answer.new }
    ensures* handed { ∃ₛ (λ (is : Live). sem 𝓛 (is_owned_at the_live transcript.new is)
        ∗ ⌜ IsBegun result answer.new × ⟦<Live as Starts>⟧.starts 1 read None is ⌝)
        ∨ₛ ⌜ (IsBegun result answer.new → ⊥) × (transcript.new ≡ transcript.old) ⌝ }
{
    let Handed { written, marker: _ } = begin_prover(
        &*(prepared as *mut Prepared),
        alloc,
        transcript,
        answer,
    );
    written
}

fn begin_prover(
    prepared: &'static Prepared,
    alloc: Global,
    transcript: &mut *mut u8,
    answer: &mut [u8],
) -> Handed<Live>
    ensures told { Begins answer.old result.written answer.new }
    ensures handed { MatchOption result.is
        ((IsBegun result.written answer.new → ⊥) × (transcript.new ≡ transcript.old))
        (λ is. (IsBegun result.written answer.new × ⟦<Live as Starts>⟧.starts 1 prepared.now None is)
        × (transcript.new ≡ result.at)) }
{
    if answer.len() < BEGUN_ROOM {
        return Handed::none(BEGUN_ROOM);
    }
    hand_over(alloc, Live::prover(alloc, prepared), transcript, answer)
}

/// Begins a verifier of a proof of a prepared protocol, which is played step by step. The proof is copied, and all of it is
/// left to read at the start.
///
/// The answer and the conditions are those of `tealmuze_prover`.
#[unsafe(no_mangle)]
pub unsafe extern "C" fn tealmuze_verifier(
    alloc: Global,
    prepared: *mut u8,
    proof: &[u8],
    transcript: &mut *mut u8,
    answer: &mut [u8],
) -> usize
    ghost read: { Prepared }
    requires* shared { sem 𝓛 (is_shared_at the_row prepared read) }
    ensures told { Begins answer.old result answer.new }
    ensures* handed { ∃ₛ (λ (is : Live). sem 𝓛 (is_owned_at the_live transcript.new is)
        ∗ ⌜ IsBegun result answer.new × ⟦<Live as Starts>⟧.starts 1 read (Some proof.now) is ⌝)
        ∨ₛ ⌜ (IsBegun result answer.new → ⊥) × (transcript.new ≡ transcript.old) ⌝ }
{
    let Handed { written, marker: _ } = begin_verifier(
        &*(prepared as *mut Prepared),
        alloc,
        proof,
        transcript,
        answer,
    );
    written
}

fn begin_verifier(
    prepared: &'static Prepared,
    alloc: Global,
    proof: &[u8],
    transcript: &mut *mut u8,
    answer: &mut [u8],
) -> Handed<Live>
    ensures told { Begins answer.old result.written answer.new }
    ensures handed { MatchOption result.is
        ((IsBegun result.written answer.new → ⊥) × (transcript.new ≡ transcript.old))
        (λ is. (IsBegun result.written answer.new × ⟦<Live as Starts>⟧.starts 1 prepared.now (Some proof.now) is)
        × (transcript.new ≡ result.at)) }
{
    if answer.len() < BEGUN_ROOM {
        return Handed::none(BEGUN_ROOM);
    }
    hand_over(
        alloc,
        Live::verifier(alloc, prepared, proof),
        transcript,
        answer,
    )
}

// Hands out a transcript that was begun, or tells why there is none.
fn hand_over(
    alloc: Global,
    begun: Result<Live, NotBegun>,
    transcript: &mut *mut u8,
    answer: &mut [u8],
) -> Handed<Live>
    requires room { 1009 ≤ length answer.now }
    requires begun { IfErr begun (λ e. IsNotBegun e.found) }
    ensures told { Begins answer.old result.written answer.new }
    ensures handed { MatchOption result.is
        ((IsBegun result.written answer.new → ⊥) × (transcript.new ≡ transcript.old))
        (λ is. (IsBegun result.written answer.new × (begun ≡ Ok is))
        × (transcript.new ≡ result.at)) }
{
    match on_the_heap(alloc, begun) {
        Ok(live) => {
            answer[0] = 0;
            Handed::of(live, transcript, 1)
        }
        Err(reason) => Handed::none(tell(alloc, reason.found, answer)),
    }
}

fn on_the_heap(alloc: Global, begun: Result<Live, NotBegun>) -> Result<Box<Live>, NotBegun>
    requires { IfErr begun (λ e. IsNotBegun e.found) }
    ensures ok { IfOk result (λ live. begun ≡ Ok live.value) }
    ensures err { IfErr result (λ e. IsNotBegun e.found) }
{
    match Box::new(alloc, begun?) {
        Ok(live) => Ok(live),
        Err(_) => Err(NotBegun {
            found: Err(Unanswered::OutOfMemory),
        }),
    }
}

/// Plays the next step of a transcript; or ends it, where the request has no bytes.
///
/// A request is the step, in the form of descriptions, and then the value that a prover sends there, if it sends one, or
/// the number of the witness that is carried to a verifier, if one is. After a first byte 0 stand, of a prover, the list of
/// the witness that was found, if one was, and the list of what was drawn, if anything was; of a verifier the list of what
/// was received and the list of what was drawn; and at the end of a prover the proof, after its length. The other answers
/// are as of `tealmuze_verify`. After a 2 nothing was played, and after a 1 no step may follow. Memory may run out before the
/// step is played or after it: after a 3 the transcript is as it was, or no step may follow.
///
/// `transcript` is a pointer that `tealmuze_prover` or `tealmuze_verifier` wrote.
#[unsafe(no_mangle)]
pub unsafe extern "C" fn tealmuze_step(
    alloc: Global,
    transcript: *mut u8,
    request: &[u8],
    answer: &mut [u8],
) -> usize
    ghost was: { Live }
    requires* owned { sem 𝓛 (is_owned_at the_live transcript was) }
    ensures* { ∃ₛ (λ (is : Live). sem 𝓛 (is_owned_at the_live transcript is)
        ∗ ⌜ IsStep (⟦<Live as Tells>⟧.tells 1) was request.now answer.old is answer.new result ⌝) }
{
    step(&mut *(transcript as *mut Live), alloc, request, answer)
}

fn step(transcript: &mut Live, alloc: Global, request: &[u8], answer: &mut [u8]) -> usize
    ensures { IsStep (⟦<Live as Tells>⟧.tells 1) transcript.old request.now answer.old transcript.new
        answer.new result }
{
    let found = transcript.step(alloc, request, answer.len());
    tell(alloc, found, answer)
}

/// Frees a transcript, whether it has ended or not.
///
/// `transcript` is a pointer that `tealmuze_prover` or `tealmuze_verifier` wrote, and is not called with after this.
#[unsafe(no_mangle)]
pub unsafe extern "C" fn tealmuze_free(alloc: Global, transcript: *mut u8)
    ghost was: { Live }
    requires* owned { sem 𝓛 (is_owned_at the_live transcript was) }
{
    free(Box::from_raw(alloc, transcript as *mut Live))
}

fn free(_transcript: Box<Live>) {}
