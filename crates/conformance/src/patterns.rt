// Lists of steps: what is wrong with them, how they print, and how they are recorded and played.
use crate::steps::{KINDS, StepHead, parse_label, parse_step};
use anyhow::{Context, Result, bail};
use conformance_calls::replay::Replayed;
use conformance_tokens::answer;
use conformance_tokens::tokens::{look_up, split_name};
use p3_challenger::fs::{
    Interaction, InteractionPattern, Kind, Label, Pattern, PatternPlayer, PatternState,
    TranscriptError,
};
use p3_field::Named;
use p3_symmetric::Sha256Hasher;
use std::alloc::Global;
use std::mem;
use std::rc::Rc;

/// A call on a list of steps, or on the recorder or the player of which there is one at a time. A step is
/// written `H KIND LABEL LENGTH TYPE`, as [`crate::steps`] has it.
#[derive(Clone, Copy)]
pub enum PatternCall<'a> {
    /// `step STEP`: a step more.
    Step(Interaction),
    /// `same H KIND LABEL LENGTH`: a step more, of the same type as the last one.
    SameType(StepHead),
    /// A question about the steps.
    Ask(Question),
    /// `recorder`: begins to record. `player`: begins to play the steps.
    Record,
    Play,
    /// A call on the recorder or the player: `ok`, or the text of the error.
    Take(Taking<'a>),
    /// `at`: of a player, how many steps were taken, how many there are and how many are left, whether it refused
    /// one, and the text of the next one or `none`.
    At,
    /// `finish`: `ok`, or the text of the error. The steps are then those that were recorded.
    Finish,
    /// `abort`.
    Abort,
}

/// What is asked of a list of steps.
#[derive(Clone, Copy)]
pub enum Question {
    /// `v`: the first fault by its name, with its positions.
    FirstFault,
    /// `rec`: the step at which a recorder refuses.
    Refused,
    /// `fault`: the text of the first fault, or `ok`.
    FaultText,
    /// `text`, `text-alternate`: the text of the last step, by `{}` and by `{:#}`.
    Text,
    TextAlternate,
    /// `closes`: the last step closes the one before it.
    Closes,
    /// `equals`: the last two steps are equal.
    Equals,
    /// `len`: how many steps the pattern has.
    Len,
    /// `pattern`, `pattern-alternate`: the text of the pattern, by `{}` and by `{:#}`.
    Pattern,
    PatternAlternate,
    /// `rendering`: the text that is hashed.
    Rendering,
    /// `pattern-hash`.
    PatternHash,
}

/// A call through the bound of recorders and players.
#[derive(Clone, Copy)]
pub enum Taking<'a> {
    /// `take STEP`.
    Step(Interaction),
    /// A marker, its label, and the type that names the container: `()`, `u8` or `usize`.
    Marker(Marker, Label, &'a str),
}

/// The opener or the closer of a container.
#[derive(Clone, Copy)]
pub enum Marker {
    /// `begin KIND LABEL TYPE`, `end KIND LABEL TYPE`.
    Begin(Kind),
    End(Kind),
    /// `begin-protocol LABEL TYPE`, `end-protocol LABEL TYPE`.
    BeginProtocol,
    EndProtocol,
}

impl<'a> PatternCall<'a> {
    fn parse(text: &'a str) -> Result<PatternCall<'a>> {
        let (name, words) = split_name(text);
        match name {
            "step" => Ok(PatternCall::Step(parse_step(words)?)),
            "same" => Ok(PatternCall::SameType(StepHead::parse(words)?)),
            "recorder" => Ok(PatternCall::Record),
            "player" => Ok(PatternCall::Play),
            "at" => Ok(PatternCall::At),
            "finish" => Ok(PatternCall::Finish),
            "abort" => Ok(PatternCall::Abort),
            "take" | "begin" | "end" | "begin-protocol" | "end-protocol" => {
                Ok(PatternCall::Take(Taking::parse(name, words)?))
            }
            _ => Ok(PatternCall::Ask(look_up(&QUESTIONS, name)?)),
        }
    }
}

const QUESTIONS: [(&str, Question); 12] = [
    ("v", Question::FirstFault),
    ("rec", Question::Refused),
    ("fault", Question::FaultText),
    ("text", Question::Text),
    ("text-alternate", Question::TextAlternate),
    ("closes", Question::Closes),
    ("equals", Question::Equals),
    ("len", Question::Len),
    ("pattern", Question::Pattern),
    ("pattern-alternate", Question::PatternAlternate),
    ("rendering", Question::Rendering),
    ("pattern-hash", Question::PatternHash),
];

impl<'a> Taking<'a> {
    fn parse(name: &str, words: &'a str) -> Result<Taking<'a>> {
        if name == "take" {
            return Ok(Taking::Step(parse_step(words)?));
        }
        let (head, container) = words.rsplit_once(' ').context("no type")?;
        let (kind, label) = head.split_once(' ').unwrap_or(("protocol", head));
        let marker = match name {
            "begin" => Marker::Begin(look_up(&KINDS, kind)?),
            "end" => Marker::End(look_up(&KINDS, kind)?),
            "begin-protocol" => Marker::BeginProtocol,
            _ => Marker::EndProtocol,
        };
        Ok(Taking::Marker(marker, parse_label(label)?, container))
    }
}

/// The steps so far, and what takes steps.
#[derive(Drop)]
pub struct Steps {
    steps: Vec<Interaction>,
    taker: Taker,
}

// What takes steps. It has to be spent.
enum Taker {
    Nobody,
    Recorder(PatternState<u8>),
    Player(PatternPlayer),
}

impl Drop for Taker {
    fn drop(self) {
        match self {
            Taker::Nobody => {}
            Taker::Recorder(recorder) => recorder.abort(),
            Taker::Player(player) => player.abort(),
        }
    }
}

impl Taker {
    // Spends the recorder or the player: the pattern that was recorded, if one was.
    fn finish(self) -> Result<Option<InteractionPattern>, TranscriptError> {
        match self {
            Taker::Nobody => Ok(None),
            Taker::Recorder(recorder) => Ok(Some(recorder.finalize()?)),
            Taker::Player(player) => {
                player.finalize()?;
                Ok(None)
            }
        }
    }
}

impl Steps {
    /// No steps.
    pub fn new(alloc: Global) -> Steps {
        Steps {
            steps: Vec::new(alloc),
            taker: Taker::Nobody,
        }
    }

    fn push(&mut self, alloc: Global, step: Interaction) -> Result<String> {
        self.steps.push(step)?;
        answer::nothing(alloc)
    }

    // A step of the type of the last one.
    fn push_same(&mut self, alloc: Global, head: StepHead) -> Result<String> {
        let last = *self.steps.last().context("no step")?;
        let step = last.of_same_type(head.hierarchy, head.kind, head.label, head.length);
        self.push(alloc, step)
    }

    fn begin(&mut self, alloc: Global, taker: Taker) -> Result<String> {
        self.taker = taker;
        answer::nothing(alloc)
    }

    // Spends what takes steps. The steps are then those that were recorded.
    fn finish(&mut self, alloc: Global) -> Result<String> {
        let finished = mem::replace(&mut self.taker, Taker::Nobody).finish();
        if let Ok(Some(pattern)) = &finished {
            self.steps = Vec::from_slice(alloc, pattern.interactions())?;
        }
        answer::verdict(alloc, finished)
    }
}

impl Replayed for Steps {
    fn answer(&mut self, alloc: Global, call: &str) -> Result<String> {
        match PatternCall::parse(call)? {
            PatternCall::Step(step) => self.push(alloc, step),
            PatternCall::SameType(head) => self.push_same(alloc, head),
            PatternCall::Ask(question) => asked(alloc, self.steps.as_slice(), question),
            PatternCall::Record => self.begin(alloc, Taker::Recorder(PatternState::new(alloc))),
            PatternCall::Play => {
                let player = player_of(alloc, self.steps.as_slice())?;
                self.begin(alloc, Taker::Player(player))
            }
            PatternCall::Take(taking) => taken(alloc, &mut self.taker, taking),
            PatternCall::At => place(alloc, &self.taker),
            PatternCall::Finish => self.finish(alloc),
            PatternCall::Abort => self.begin(alloc, Taker::Nobody),
        }
    }
}

fn player_of(alloc: Global, steps: &[Interaction]) -> Result<PatternPlayer> {
    let pattern = Rc::new(alloc, pattern_of(alloc, steps)?)?;
    Ok(PatternPlayer::new(pattern))
}

// Whether what takes steps takes what a call says.
fn taken(alloc: Global, taker: &mut Taker, taking: Taking<'_>) -> Result<String> {
    let taken = match taker {
        Taker::Recorder(recorder) => take(recorder, taking)?,
        Taker::Player(player) => take(player, taking)?,
        Taker::Nobody => bail!("nothing takes steps"),
    };
    answer::verdict(alloc, taken)
}

// Takes what a call says. The outer error says what is no call.
fn take<P: Pattern>(pattern: &mut P, taking: Taking<'_>) -> Result<Result<(), TranscriptError>> {
    match taking {
        Taking::Step(step) => Ok(pattern.interact(step)),
        Taking::Marker(marker, label, container) => match container {
            "()" => Ok(take_marker::<(), P>(pattern, marker, label)),
            "u8" => Ok(take_marker::<u8, P>(pattern, marker, label)),
            "usize" => Ok(take_marker::<usize, P>(pattern, marker, label)),
            _ => bail!("an unknown type"),
        },
    }
}

fn take_marker<T: Named, P: Pattern>(
    pattern: &mut P,
    marker: Marker,
    label: Label,
) -> Result<(), TranscriptError> {
    match marker {
        Marker::Begin(kind) => pattern.begin::<T>(label, kind),
        Marker::End(kind) => pattern.end::<T>(label, kind),
        Marker::BeginProtocol => pattern.begin_protocol::<T>(label),
        Marker::EndProtocol => pattern.end_protocol::<T>(label),
    }
}

// Where a player stands.
fn place(alloc: Global, taker: &Taker) -> Result<String> {
    let Taker::Player(player) = taker else {
        bail!("no player");
    };
    let (position, len, left) = (player.position(), player.len(), player.remaining());
    let refused = player.is_finalized();
    match player.next_interaction() {
        Some(next) => Ok(format!(in alloc; "{position} {len} {left} {refused} {next}")?),
        None => Ok(format!(in alloc; "{position} {len} {left} {refused} none")?),
    }
}

// What the steps answer.
fn asked(alloc: Global, steps: &[Interaction], question: Question) -> Result<String> {
    match question {
        Question::FirstFault => first_fault(alloc, steps),
        Question::Refused => recorded(alloc, steps),
        Question::FaultText => {
            let made = InteractionPattern::new(Vec::from_slice(alloc, steps)?);
            answer::verdict(alloc, made)
        }
        Question::Text | Question::TextAlternate | Question::Closes | Question::Equals => {
            asked_of_last(alloc, steps, question)
        }
        _ => asked_of_pattern(alloc, &pattern_of(alloc, steps)?, question),
    }
}

// What the last step answers, or the last two.
fn asked_of_last(alloc: Global, steps: &[Interaction], question: Question) -> Result<String> {
    let (last, before) = steps.split_last().context("no step")?;
    let text = match question {
        Question::Text => last.to_string(alloc)?,
        Question::TextAlternate => format!(in alloc; "{last:#}")?,
        Question::Closes => last
            .closes(before.last().context("one step")?)
            .to_string(alloc)?,
        _ => (last == before.last().context("one step")?).to_string(alloc)?,
    };
    answer::one_line(alloc, text.as_str())
}

fn asked_of_pattern(
    alloc: Global,
    pattern: &InteractionPattern,
    question: Question,
) -> Result<String> {
    let text = match question {
        Question::Len => pattern.len().to_string(alloc)?,
        Question::Pattern => pattern.to_string(alloc)?,
        Question::PatternAlternate => format!(in alloc; "{pattern:#}")?,
        Question::Rendering => pattern.alternate()?,
        Question::PatternHash => hex::encode(alloc, pattern.pattern_hash::<Sha256Hasher>()?)?,
        _ => bail!("no question on a pattern"),
    };
    answer::one_line(alloc, text.as_str())
}

// The pattern of these steps.
fn pattern_of(alloc: Global, steps: &[Interaction]) -> Result<InteractionPattern> {
    Ok(InteractionPattern::new(Vec::from_slice(alloc, steps)?)?)
}

// How many steps the pattern has, or the name of its first fault with its positions.
fn first_fault(alloc: Global, steps: &[Interaction]) -> Result<String> {
    let text = match InteractionPattern::new(Vec::from_slice(alloc, steps)?) {
        Ok(pattern) => format!(in alloc; "ok {}", pattern.len()),
        Err(TranscriptError::MissingBegin(info)) => {
            format!(in alloc; "MissingBegin {}", info.position)
        }
        Err(TranscriptError::InvalidKind(info)) => {
            let position = info.interaction_position;
            format!(in alloc; "InvalidKind {} {position}", info.begin_position)
        }
        Err(TranscriptError::MismatchedBeginEnd(info)) => {
            format!(in alloc;
                "MismatchedBeginEnd {} {}",
                info.begin_position, info.end_position
            )
        }
        Err(TranscriptError::MissingEnd(info)) => format!(in alloc; "MissingEnd {}", info.position),
        Err(error) => return Err(error.into()),
    };
    Ok(text?)
}

// How many steps a recorder took, or where it refused.
fn recorded(alloc: Global, steps: &[Interaction]) -> Result<String> {
    let mut recorder = PatternState::<u8>::new(alloc);
    if let Some(position) = refused_at(&mut recorder, steps) {
        recorder.abort();
        return Ok(format!(in alloc; "refused at {position}")?);
    }
    match recorder.finalize() {
        Ok(pattern) => Ok(format!(in alloc; "ok {}", pattern.len())?),
        Err(_) => Ok(String::from_str(alloc, "refused at end")?),
    }
}

fn refused_at(recorder: &mut PatternState<u8>, steps: &[Interaction]) -> Option<usize> {
    for (position, step) in steps.iter().enumerate() {
        if recorder.interact(*step).is_err() {
            return Some(position);
        }
    }
    None
}
