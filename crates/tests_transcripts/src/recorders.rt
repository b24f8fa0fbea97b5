use p3_fs_core::{
    Hierarchy, Interaction, InvalidKindInfo, Kind, Label, Length, MismatchedBeginEndInfo,
    MissingBeginInfo, MissingEndInfo, TranscriptError,
};
use p3_patterns::{InteractionPattern, Pattern, PatternState};
use std::alloc::{AllocError, Global};
use std::test::Fail;

fn step(hierarchy: Hierarchy, kind: Kind, label: Label) -> Interaction {
    Interaction::opaque(hierarchy, kind, label, Length::None)
}

// Records the steps up to the first one that is refused.
fn record(alloc: Global, steps: &[Interaction]) -> Result<InteractionPattern, TranscriptError> {
    let mut recorder = PatternState::<u8>::new(alloc);
    for &step in steps {
        if let Err(fault) = recorder.interact(step) {
            recorder.abort();
            return Err(fault);
        }
    }
    recorder.finalize()
}

// The grammar: no steps are a pattern; and so is a leaf with a pattern after it, or an opener, a pattern, a
// closer that closes it and a pattern. In a container of another kind than Protocol all are of its kind.
fn is_pattern(kind: Kind, steps: &[Interaction]) -> bool {
    if steps.len() == 0 {
        return true;
    }
    let first = steps[0];
    let rest = &steps[1..];
    if kind != Kind::Protocol && first.kind() != kind {
        return false;
    }
    match first.hierarchy() {
        Hierarchy::Atomic => is_pattern(kind, rest),
        Hierarchy::End => false,
        Hierarchy::Begin => {
            for at in 0..rest.len() {
                if ends(&first, &rest[at])
                    && is_pattern(first.kind(), &rest[..at])
                    && is_pattern(kind, &rest[at + 1..])
                {
                    return true;
                }
            }
            false
        }
    }
}

fn ends(opener: &Interaction, step: &Interaction) -> bool {
    step.hierarchy() == Hierarchy::End
        && step.kind() == opener.kind()
        && step.label() == opener.label()
}

// The first fault by a look back at every step, and no stack: the plain way.
fn rescanned(steps: &[Interaction]) -> Result<(), TranscriptError> {
    for position in 0..steps.len() {
        let next = steps[position];
        check_next(&steps[..position], position, next)?;
    }
    match innermost(steps) {
        None => Ok(()),
        Some((position, begin)) => Err(TranscriptError::MissingEnd(MissingEndInfo {
            position,
            begin,
        })),
    }
}

fn check_next(
    before: &[Interaction],
    position: usize,
    next: Interaction,
) -> Result<(), TranscriptError> {
    let closes = next.hierarchy() == Hierarchy::End;
    match innermost(before) {
        None if closes => Err(TranscriptError::MissingBegin(MissingBeginInfo {
            position,
            end: next,
        })),
        None => Ok(()),
        Some((begin_position, begin)) if closes && !next.closes(&begin) => {
            Err(TranscriptError::MismatchedBeginEnd(MismatchedBeginEndInfo {
                begin_position,
                begin,
                end_position: position,
                end: next,
            }))
        }
        Some((begin_position, begin))
            if !closes && begin.kind() != Kind::Protocol && next.kind() != begin.kind() => {
            Err(TranscriptError::InvalidKind(InvalidKindInfo {
                begin_position,
                begin,
                interaction_position: position,
                interaction: next,
            }))
        }
        Some(_) => Ok(()),
    }
}

// The last opener that no closer after it wants.
fn innermost(steps: &[Interaction]) -> Option<(usize, Interaction)> {
    let mut closers = 0usize;
    for back in 0..steps.len() {
        let position = steps.len() - 1 - back;
        let step = steps[position];
        match step.hierarchy() {
            Hierarchy::Atomic => {}
            Hierarchy::End => closers = closers.saturating_add(1),
            Hierarchy::Begin if closers == 0 => return Some((position, step)),
            Hierarchy::Begin => closers -= 1,
        }
    }
    None
}

// One of the twelve steps of two kinds and two labels.
fn letter(code: usize) -> Interaction {
    let hierarchy = match code % 3 {
        0 => Hierarchy::Atomic,
        1 => Hierarchy::Begin,
        _ => Hierarchy::End,
    };
    let kind = if code / 3 % 2 == 0 {
        Kind::Protocol
    } else {
        Kind::Message
    };
    let label = if code / 6 % 2 == 0 { "a" } else { "b" };
    step(hierarchy, kind, label)
}

// The word of so many letters with this number.
fn word(alloc: Global, len: usize, code: usize) -> Result<Vec<Interaction>, AllocError> {
    let mut steps = Vec::new(alloc);
    let mut rest = code;
    for _ in 0..len {
        steps.push(letter(rest))?;
        rest /= 12;
    }
    Ok(steps)
}

// Whether a word is a pattern by the grammar, where that, the constructor, the recorder and a look back at every step say
// the same of it, with the same fault; and nothing where they do not.
fn is_pattern_in_each_way(alloc: Global, steps: Vec<Interaction>) -> Option<bool> {
    let is = is_pattern(Kind::Protocol, &steps);
    let recorded = record(alloc, &steps);
    let rescanned = rescanned(&steps);
    let made = InteractionPattern::new(steps);
    let agree = recorded == made && made.is_ok() == is;
    if made.map(|_| ()) == rescanned && agree {
        Some(is)
    } else {
        None
    }
}

// How many words of so many letters are patterns, where each way says so.
fn patterns_among(alloc: Global, len: usize, words: usize) -> Result<Option<u64>, AllocError> {
    let mut found: u64 = 0;
    for code in 0..words {
        match is_pattern_in_each_way(alloc, word(alloc, len, code)?) {
            Some(is) => found = found.saturating_add(u64::from(is)),
            None => return Ok(None),
        }
    }
    Ok(Some(found))
}

// The counts of patterns are from the grammar by hand: where `m` counts those in a container of messages, there
// are `m(n) = 2 m(n-1) + 2 sum m(i) m(j)` of length n there, and `p(n) = 4 p(n-1) + 2 sum (p(i) + m(i)) p(j)`
// where all may stand, with `i + j = n - 2`.
#[test]
fn short_words_are_patterns_by_the_grammar_alone(rt: HostRuntime) -> Result<(), Fail> {
    let rows = [
        (0, 1, 1),
        (1, 12, 4),
        (2, 144, 20),
        (3, 1728, 108),
        (4, 20736, 612),
        (5, 248832, 3584),
    ];
    for (len, words, patterns) in &rows {
        let found = patterns_among(rt.alloc(), *len, *words)?;
        assert_eq!(rt; found, Some(*patterns), "{len}");
    }
    Ok(())
}

// A container in another, so many deep, of which the outermost one has a closer with another label.
#[test]
fn ten_thousand_containers_end_in_a_closer_of_another(rt: HostRuntime) -> Result<(), Fail> {
    let begin = step(Hierarchy::Begin, Kind::Protocol, "a");
    let other = step(Hierarchy::End, Kind::Protocol, "b");
    let mut steps = Vec::new(rt.alloc());
    for _ in 0..10_000 {
        steps.push(begin)?;
    }
    for _ in 1..10_000 {
        steps.push(step(Hierarchy::End, Kind::Protocol, "a"))?;
    }
    steps.push(other)?;
    let recorded = record(rt.alloc(), &steps);
    let made = InteractionPattern::new(steps);
    assert_eq!(rt; recorded, made);
    let fault = TranscriptError::MismatchedBeginEnd(MismatchedBeginEndInfo {
        begin_position: 0,
        begin,
        end_position: 19_999,
        end: other,
    });
    assert_eq!(rt; made, Err(fault));
    Ok(())
}

// So many steps that a look back at each would take seconds.
#[test]
fn fifty_thousand_steps_are_a_pattern(rt: HostRuntime) -> Result<(), Fail> {
    let mut steps = Vec::new(rt.alloc());
    for _ in 0..50_000 {
        steps.push(step(Hierarchy::Atomic, Kind::Message, "a"))?;
    }
    assert_eq!(rt; InteractionPattern::new(steps)?.len(), 50_000);
    Ok(())
}
