// The beginning of a proof, where there are values for the first steps alone.
use anyhow::{Result, bail};
use p3_challenger::fs::script::{Drawn, Fault, Played, Sent, Step, Suite, prover_step};
use p3_challenger::fs::{ProverState, TranscriptError};
use p3_script::{Standing, standing_of};
use script_lines::alone::{given, is_admitted, only};
use script_lines::world::{SeparatorOf, World};
use std::alloc::Global;
use tealmuze_text::proofs::copied;

type ProverOf<S> = ProverState<<S as Suite>::Challenger, <S as Suite>::Unit, <S as Suite>::Digest>;

/// What a prover wrote, found and drew at the first steps.
#[derive(Drop)]
pub struct Begun<S: Suite> {
    /// The bytes that the proof begins with.
    pub narg: Vec<u8>,
    /// The witnesses that were found.
    pub witnesses: Vec<S::Field>,
    /// What was drawn, for each step that draws.
    pub challenges: Vec<Drawn<S>>,
    /// Where the values were refused.
    pub refused: Option<Fault>,
}

/// Plays the first steps of a protocol, which are sent these values. The error is that the steps cannot be played, or not
/// with these values, or that memory ran out.
pub fn begin<S: World>(
    alloc: Global,
    separator: &SeparatorOf<S>,
    steps: &[Step<S>],
    sent: &[Sent<S>],
) -> Result<Begun<S>> {
    let mut begun = Begun {
        narg: Vec::new(alloc),
        witnesses: Vec::new(alloc),
        challenges: Vec::new(alloc),
        refused: None,
    };
    let mut prover = match ProverState::new(alloc, S::fresh(alloc)?, separator) {
        Ok(prover) => prover,
        Err(error) => {
            begun.refused = Some(Fault { position: 0, error });
            return Ok(begun);
        }
    };
    let played = play::<S>(alloc, &mut prover, steps, sent, &mut begun);
    let narg = copied(alloc, prover.narg());
    // The pattern has more steps.
    let _unfinished = prover.finish();
    played?;
    begun.narg = narg?;
    Ok(begun)
}

// Plays the steps up to the first that is refused.
fn play<S: World>(
    alloc: Global,
    prover: &mut ProverOf<S>,
    steps: &[Step<S>],
    sent: &[Sent<S>],
    begun: &mut Begun<S>,
) -> Result<()> {
    let mut number = 0usize;
    for position in 0..steps.len() {
        let alone = &steps[position..=position];
        let mut end = number;
        if matches!(standing_of(&steps[position]), Standing::Sent) {
            end = number.saturating_add(1);
        }
        let handed = sent.get(number..end).unwrap_or(&[]);
        number = end;
        match play_step(alloc, prover, alone, handed)? {
            Ok(played) => keep(begun, played)?,
            Err(error) => {
                begun.refused = Some(Fault { position, error });
                break;
            }
        }
    }
    Ok(())
}

// Plays one step, which stands alone, with what it is sent.
fn play_step<S: Suite>(
    alloc: Global,
    prover: &mut ProverOf<S>,
    alone: &[Step<S>],
    handed: &[Sent<S>],
) -> Result<Result<Played<S>, TranscriptError>> {
    match only(alone) {
        Some(step) if is_admitted(alone, step) => {
            let given = given(alone, step, handed)?;
            Ok(prover_step(alloc, prover, step, given))
        }
        _ => bail!("a step that is not played here"),
    }
}

// Keeps what a step answered.
fn keep<S: Suite>(begun: &mut Begun<S>, played: Played<S>) -> Result<()> {
    let (witness, drawn) = played;
    if let Some(witness) = witness {
        begun.witnesses.push(witness)?;
    }
    if let Some(drawn) = drawn {
        begun.challenges.push(drawn)?;
    }
    Ok(())
}
