//! A transcript in two functions, without a driver: one scalar is sent, and one is drawn.
//!
//! The crate depends only on what it calls: a hash challenger, and the encoding of scalars.
#![tactic(auto)]

ghost use Rattle.std.specs.Prelude.{◌≡◌, Some, IfOk, IfErr, MatchResult};
ghost use Rattle.{p3_hash_challenger.specs.HashState.{HashState, function_of}, p3_fs_core.specs.Errors.IsBadShape};
ghost use Rattle.p3_small_primes.specs.BabyBearResidues.{BabyBear};
ghost use Rattle.first_transcript.specs.First.{IsRun, drawn_scalar, after_scalar, read_whole, Verifies};
ghost use Rattle.first_transcript.specs.Scalar.{wire};

use p3_codecs::{BytesToFieldCodec, Codec};
use p3_fs_core::TranscriptError;
use p3_hash_challenger::HashChallenger;
use p3_small_primes::BabyBear;
use p3_symmetric::CryptographicHasher;
use std::alloc::Global;

type ScalarCodec = BytesToFieldCodec<BabyBear>;

/// What a prover has after it sent a scalar and drew one.
#[derive(Debug, Drop)]
pub struct FirstRun<H, const OUT_LEN: usize> {
    /// The proof: the encoding of the scalar, 4 bytes.
    pub wire: Vec<u8>,
    /// The scalar that was drawn.
    pub challenge: BabyBear,
    /// The challenger after the draw.
    pub challenger: HashChallenger<u8, H, OUT_LEN>,
}

/// What a verifier has after it read a scalar and drew one.
#[derive(Debug, Drop)]
pub struct FirstRead<H, const OUT_LEN: usize> {
    /// The scalar that the proof encodes.
    pub value: BabyBear,
    /// The scalar that was drawn.
    pub challenge: BabyBear,
    /// The challenger after the draw.
    pub challenger: HashChallenger<u8, H, OUT_LEN>,
}

/// Sends a scalar: observes it, encodes it in the proof, and draws a challenge.
///
/// The one error is [`TranscriptError::OutOfMemory`], after which the challenger is dropped.
pub fn prove<H: CryptographicHasher<u8, [u8; OUT_LEN]>, const OUT_LEN: usize>(
    alloc: Global,
    mut challenger: HashChallenger<u8, H, OUT_LEN>,
    value: BabyBear,
) -> Result<FirstRun<H, OUT_LEN>, TranscriptError>
    ensures wire { IfOk result (λ run. run.wire.items ≡ wire value) }
    ensures run { IfOk result (λ run.
        IsRun (function_of H.hash OUT_LEN H.filler) challenger value run.challenge run.challenger) }
    ensures err { IfErr result (λ e. e ≡ TranscriptError.OutOfMemory) }
{
    ScalarCodec::observe(&mut challenger, &value)?;
    let mut wire = Vec::new(alloc);
    <ScalarCodec as Codec<HashChallenger<u8, H, OUT_LEN>, BabyBear>>::encode(&value, &mut wire)?;
    let challenge = draw(&mut challenger);
    Ok(FirstRun {
        wire,
        challenge,
        challenger,
    })
}

/// Reads the scalar that the whole proof `narg` encodes, observes it, and draws a challenge.
///
/// The errors are [`TranscriptError::BadProofShape`], exactly where `narg` is not the encoding of a
/// scalar, and [`TranscriptError::OutOfMemory`]. After an error the challenger is dropped.
pub fn verify<H: CryptographicHasher<u8, [u8; OUT_LEN]>, const OUT_LEN: usize>(
    mut challenger: HashChallenger<u8, H, OUT_LEN>,
    narg: &[u8],
) -> Result<FirstRead<H, OUT_LEN>, TranscriptError>
    // Which answer it is, on every proof.
    ensures exact { Verifies (read_whole narg.now) (λ value found.
        (found.value ≡ value)
        × IsRun (function_of H.hash OUT_LEN H.filler) challenger value found.challenge found.challenger) result }

    // What is accepted is, whole, the encoding of the scalar that is answered.
    ensures whole { IfOk result (λ found. narg.now ≡ wire found.value) }

    // The proof of a prover that started from an equal challenger is accepted, unless memory runs
    // out, with that prover's scalar, challenge and challenger.
    ensures accepts { (value challenge : BabyBear) (after : HashState _ _) →
        IsRun (function_of H.hash OUT_LEN H.filler) challenger value challenge after → narg.now ≡ wire value →
        MatchResult result
        (λ found. (found.value ≡ value) × ((found.challenge ≡ challenge) × (found.challenger ≡ after)))
        (λ e. e ≡ TranscriptError.OutOfMemory) }
{
    let width = <ScalarCodec as Codec<HashChallenger<u8, H, OUT_LEN>, BabyBear>>::wire_len();
    if narg.len() < width {
        return Err(bad_shape("NARG ended before all expected bytes were read"));
    }
    let found = <ScalarCodec as Codec<HashChallenger<u8, H, OUT_LEN>, BabyBear>>::decode(narg)?;
    if narg.len() > width {
        return Err(bad_shape("trailing NARG bytes after final verifier step"));
    }
    ScalarCodec::observe(&mut challenger, &found)?;
    let drawn = draw(&mut challenger);
    Ok(FirstRead {
        value: found,
        challenge: drawn,
        challenger,
    })
}

// Draws a scalar. A hash challenger refuses no draw: it takes no memory and has no limit.
fn draw<H: CryptographicHasher<u8, [u8; OUT_LEN]>, const OUT_LEN: usize>(
    challenger: &mut HashChallenger<u8, H, OUT_LEN>,
) -> BabyBear
    ensures drawn { drawn_scalar (function_of H.hash OUT_LEN H.filler) challenger.old ≡ Some result }
    ensures after { challenger.new ≡ after_scalar (function_of H.hash OUT_LEN H.filler) challenger.old }
{
    match ScalarCodec::sample(challenger) {
        Ok(challenge) => challenge,
        Err(_) => unreachable!(),
    }
}

fn bad_shape(reason: &'static str) -> TranscriptError
    ensures { IsBadShape reason.now result }
{
    TranscriptError::BadProofShape { reason }
}
