// Where a proof is refused, by its bytes.
use p3_challenger::fs::script::{Step, Suite};
use p3_challenger::fs::{Codec, TranscriptError, bound_byte_width};

// Why a step refuses elements that have no encoding, and bytes that are too few.
const OUTSIDE: &str = "field encoding outside canonical range";

const ENDED: &str = "NARG ended before all expected bytes were read";

/// The byte of the proof at which a step is refused that began to read at `start`: where the element stands that no
/// element is encoded as, where the proof ends that is too short, and else where the step began.
pub fn fault_byte<S: Suite>(
    step: &Step<S>,
    error: &TranscriptError,
    proof: &[u8],
    start: usize,
) -> usize {
    match error {
        TranscriptError::BadProofShape { reason } if *reason == OUTSIDE => {
            match step {
                // The one element is the witness.
                Step::Pow { .. } => start,
                _ => first_outside::<S>(proof, start.saturating_add(count_width(step))),
            }
        }
        TranscriptError::BadProofShape { reason } if *reason == ENDED => proof.len(),
        _ => start,
    }
}

// In how many bytes the count of the step's values stands before them.
fn count_width<S: Suite>(step: &Step<S>) -> usize {
    match step {
        Step::BytesBounded { max, .. }
        | Step::HintBounded { max, .. }
        | Step::ScalarsBounded { max, .. } => bound_byte_width(*max),
        _ => 0,
    }
}

// Where the first of the elements stands that no element is encoded as, from `start` on.
fn first_outside<S: Suite>(proof: &[u8], start: usize) -> usize {
    let width = S::Codec::wire_len();
    let elements = proof.get(start..).unwrap_or(&[]);
    for (number, element) in elements.chunks(width).enumerate() {
        if S::Codec::decode(element).is_err() {
            return start.saturating_add(number.saturating_mul(width));
        }
    }
    proof.len()
}
