// Texts of errors that no row of `conformance` comes to.
use p3_challenger_core::ChallengerError;
use p3_fs_core::{PatternError, TranscriptError};
use std::test::Fail;

#[test]
fn each_error_has_its_text(rt: HostRuntime) -> Result<(), Fail> {
    let over_cap = PatternError::OverCap { len: 4, max: 3 };
    let texts: [(TranscriptError, &str); 7] = [
        (
            TranscriptError::BadProofShape { reason: "why" },
            "bad proof shape: why",
        ),
        (TranscriptError::OutOfMemory, "out of memory"),
        (
            TranscriptError::Challenger(ChallengerError::DrawLimit),
            "draw limit",
        ),
        (
            TranscriptError::Challenger(ChallengerError::NoWitness),
            "no witness",
        ),
        (
            TranscriptError::Challenger(ChallengerError::TooLong),
            "too long",
        ),
        (TranscriptError::Pattern(over_cap), "length 4 exceeds 3"),
        (TranscriptError::LabelTooLong, "label too long"),
    ];
    for (error, text) in &texts {
        let shown = error.to_string(rt.alloc())?;
        assert_eq!(rt; shown.as_str(), *text);
    }
    Ok(())
}
