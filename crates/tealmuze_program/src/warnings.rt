// What looks like a weak transcript, as a challenge that nothing new binds.
use crate::protocol::{Name, step_on_line};
use anyhow::Result;
use p3_challenger::fs::script::{Step, Suite};
use std::alloc::Global;

// What a step is to the challenges after it.
#[derive(Clone, Copy)]
enum Role {
    // It is read, and the challenger does not observe it.
    Hint,
    // It is a message, or a value that the challenger observes as one.
    Message,
    // It draws scalars or elements of the extension.
    Challenge,
    // It draws bits, which say what hints open.
    Query,
    // It opens or closes a container.
    Marker,
    // It hides, does work, or is known before.
    Other,
}

fn role_of<S: Suite>(step: &Step<S>) -> Role {
    match step {
        Step::Hint { .. } | Step::HintBounded { .. } => Role::Hint,
        Step::Bytes { .. }
        | Step::BytesBounded { .. }
        | Step::Scalar { .. }
        | Step::Scalars { .. }
        | Step::ScalarsBounded { .. }
        | Step::Extension { .. }
        | Step::ObserveExtension { .. }
        | Step::ObserveExtensions { .. }
        | Step::ObserveExtensionsBounded { .. }
        | Step::Opaque { .. } => Role::Message,
        Step::ChallengeScalar { .. }
        | Step::ChallengeScalars { .. }
        | Step::ChallengeExtension { .. }
        | Step::ChallengeExtensions { .. }
        | Step::ChallengeExtensionsRejecting { .. } => Role::Challenge,
        Step::ChallengeBits { .. }
        | Step::ChallengeUniformBits { .. }
        | Step::ChallengeUniformBitsRejecting { .. } => Role::Query,
        Step::Begin { .. } | Step::End { .. } => Role::Marker,
        _ => Role::Other,
    }
}

// What was sent since the last draw.
#[derive(Clone, Copy)]
struct Round {
    // the first hint
    hint: Option<usize>,
    // whether there is a message
    is_bound: bool,
    // whether the last draw was of bits
    is_query: bool,
}

impl Round {
    // What is sent after a draw.
    fn after(is_query: bool) -> Round {
        Round {
            hint: None,
            is_bound: false,
            is_query,
        }
    }

    // The hint that the next challenge does not depend on, with nothing else for it to depend on.
    fn unbound(&self) -> Option<usize> {
        if self.is_bound || self.is_query {
            None
        } else {
            self.hint
        }
    }

    // What is sent once a step was played.
    fn with(self, position: usize, role: Role) -> Round {
        match role {
            Role::Hint => Round {
                hint: self.hint.or(Some(position)),
                ..self
            },
            Role::Message => Round {
                is_bound: true,
                ..self
            },
            Role::Challenge => Round::after(false),
            Role::Query => Round::after(true),
            Role::Marker | Role::Other => self,
        }
    }
}

/// A line for each challenge before which hints alone were sent since the last one, and none where there is no step after
/// it. After a draw of bits they are taken for what was queried.
pub fn warnings<S: Suite>(
    alloc: Global,
    steps: &[Step<S>],
    names: &[Name<'_>],
) -> Result<Vec<String>> {
    let mut found = Vec::new(alloc);
    let mut round = Round::after(false);
    let mut waiting = None;
    for (position, step) in steps.iter().enumerate() {
        let role = role_of(step);
        if !matches!(role, Role::Marker) {
            if let Some((hint, challenge)) = waiting {
                found.push(warning(alloc, names, hint, challenge)?)?;
            }
            waiting = None;
        }
        if let (Role::Challenge | Role::Query, Some(hint)) = (role, round.unbound()) {
            waiting = Some((hint, position));
        }
        round = round.with(position, role);
    }
    Ok(found)
}

fn warning(alloc: Global, names: &[Name<'_>], hint: usize, challenge: usize) -> Result<String> {
    let hint = step_on_line(names, hint)?;
    let challenge = step_on_line(names, challenge)?;
    Ok(format!(in alloc; "{hint} is not observed, and no new message stands before {challenge}")?)
}
