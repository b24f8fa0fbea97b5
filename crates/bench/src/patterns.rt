// How long patterns take: to be recorded, checked, played and rendered.
use crate::timing::{Lap, Row, Timed, measure, nanoseconds_since};
use anyhow::Result;
use p3_challenger::fs::{
    Hierarchy, Interaction, InteractionPattern, Kind, Length, Pattern, PatternPlayer, PatternState,
    TranscriptError,
};
use p3_field::BabyBear;
use p3_symmetric::Sha256Hasher;
use std::alloc::Global;
use std::rc::Rc;
use std::time::Instant;

// The length of a pattern, and how many of them are handled in a run.
const LENGTHS: [(u32, u32); 5] = [
    (10, 10_000),
    (100, 1000),
    (1000, 100),
    (10_000, 10),
    (100_000, 1),
];

const ELEMENTS: u32 = 100_000;

// What is done with patterns of one length.
#[derive(Clone, Copy)]
enum Operation {
    // A container is recorded step by step.
    Record,
    // Steps that stand in none are.
    RecordFlat,
    Render,
    Digest,
    Play,
    // Steps with an element are made, and no pattern.
    Elements,
}

// A list of steps is made a pattern.
#[derive(Clone, Copy)]
enum Check {
    Container,
    Flat,
    Siblings,
}

const OPERATIONS: [Row<Operation>; 5] = [
    Row {
        name: "recorded ",
        timed: Operation::Record,
    },
    Row {
        name: "recorded flat ",
        timed: Operation::RecordFlat,
    },
    Row {
        name: "rendered ",
        timed: Operation::Render,
    },
    Row {
        name: "rendered and sha ",
        timed: Operation::Digest,
    },
    Row {
        name: "played ",
        timed: Operation::Play,
    },
];

const CHECKS: [Row<Check>; 3] = [
    Row {
        name: "new container ",
        timed: Check::Container,
    },
    Row {
        name: "new flat ",
        timed: Check::Flat,
    },
    Row {
        name: "new siblings ",
        timed: Check::Siblings,
    },
];

const LONG: [Row<Check>; 1] = [Row {
    name: "new flat 50000",
    timed: Check::Flat,
}];

const STEPS: [Row<Operation>; 1] = [Row {
    name: "algebra step",
    timed: Operation::Elements,
}];

// Patterns of one length, and how often each is handled in a run.
#[derive(Drop)]
struct Material {
    count: u32,
    // A container of elements, elements in none, and containers of two elements each beside one another.
    container: Vec<Interaction>,
    flat: Vec<Interaction>,
    siblings: Vec<Interaction>,
    // That of the container.
    pattern: Rc<InteractionPattern>,
}

/// Times each operation at several lengths, and gives a sum of what they leave.
pub fn measure_all(rt: &HostRuntime, runs: u32) -> Result<u64> {
    let mut sum = 0u64;
    for (length, count) in &LENGTHS {
        sum = sum.wrapping_add(measure_length(rt, runs, *length, *count)?);
    }
    let long = lists(rt.alloc(), 50_000, 1)?;
    let list = measure(rt, runs, &long, "", &LONG)?;
    let made = measure(rt, runs, &long, "", &STEPS)?;
    Ok(sum.wrapping_add(list).wrapping_add(made))
}

fn measure_length(rt: &HostRuntime, runs: u32, length: u32, count: u32) -> Result<u64> {
    let material = lists(rt.alloc(), length, count)?;
    let place = format!(in rt.alloc(); "{length}")?;
    let operations = measure(rt, runs, &material, place.as_str(), &OPERATIONS)?;
    let checks = measure(rt, runs, &material, place.as_str(), &CHECKS)?;
    Ok(operations.wrapping_add(checks))
}

impl Timed<Material> for Operation {
    fn lap(&self, rt: &HostRuntime, material: &Material) -> Result<Lap> {
        let start = Instant::now(rt)?;
        let (operations, left) = handled(rt.alloc(), *self, material)?;
        let nanoseconds = nanoseconds_since(rt, start)?;
        Ok(Lap {
            nanoseconds,
            operations,
            left,
        })
    }
}

impl Timed<Material> for Check {
    fn lap(&self, rt: &HostRuntime, material: &Material) -> Result<Lap> {
        let steps = match *self {
            Check::Container => material.container.as_slice(),
            Check::Flat => material.flat.as_slice(),
            Check::Siblings => material.siblings.as_slice(),
        };
        let lists = copies_of(rt.alloc(), steps, material.count)?;
        let start = Instant::now(rt)?;
        let left = checked(lists)?;
        let nanoseconds = nanoseconds_since(rt, start)?;
        Ok(Lap {
            nanoseconds,
            operations: number_of(steps, material.count),
            left,
        })
    }
}

// How many steps so many lists have.
fn number_of(steps: &[Interaction], count: u32) -> u32 {
    u32::try_from(steps.len())
        .unwrap_or(0)
        .saturating_mul(count)
}

// Does an operation so often as the material says, and gives how many steps were handled, and a sum of what was left.
#[inline(never)]
fn handled(
    alloc: Global,
    operation: Operation,
    material: &Material,
) -> Result<(u32, u64), TranscriptError> {
    let steps = material.flat.as_slice();
    let left = match operation {
        Operation::Record => recorded(alloc, steps, true, material.count)?,
        Operation::RecordFlat => recorded(alloc, steps, false, material.count)?,
        Operation::Render => rendered(&material.pattern, material.count)?,
        Operation::Digest => digested(&material.pattern, material.count)?,
        Operation::Play => played(
            &material.pattern,
            material.container.as_slice(),
            material.count,
        )?,
        Operation::Elements => return Ok((ELEMENTS, elements())),
    };
    Ok((number_of(steps, material.count), left))
}

// Patterns of so many steps, each to be handled so often.
fn lists(alloc: Global, length: u32, count: u32) -> Result<Material> {
    let pattern = InteractionPattern::new(container(alloc, length)?)?;
    Ok(Material {
        count,
        container: container(alloc, length)?,
        flat: flat(alloc, length)?,
        siblings: siblings(alloc, length)?,
        pattern: Rc::new(alloc, pattern)?,
    })
}

/// A container of elements, so many steps in all.
pub fn container(alloc: Global, steps: u32) -> Result<Vec<Interaction>> {
    let value = element();
    let mut list = Vec::new(alloc);
    list.push(Interaction::marker::<()>(Hierarchy::Begin, Kind::Protocol, "bench"))?;
    for _ in 2..steps {
        list.push(value)?;
    }
    list.push(Interaction::marker::<()>(Hierarchy::End, Kind::Protocol, "bench"))?;
    Ok(list)
}

fn flat(alloc: Global, steps: u32) -> Result<Vec<Interaction>> {
    let value = element();
    let mut list = Vec::new(alloc);
    for _ in 0..steps {
        list.push(value)?;
    }
    Ok(list)
}

// Containers of two elements each, one after another.
fn siblings(alloc: Global, steps: u32) -> Result<Vec<Interaction>> {
    let pair = container(alloc, 4)?;
    let mut list = Vec::new(alloc);
    for _ in 0..steps / 4 {
        list.extend_from_slice(pair.as_slice())?;
    }
    Ok(list)
}

fn copies_of(alloc: Global, steps: &[Interaction], count: u32) -> Result<Vec<Vec<Interaction>>> {
    let mut copies = Vec::new(alloc);
    for _ in 0..count {
        copies.push(steps.to_vec(alloc)?)?;
    }
    Ok(copies)
}

// The sum of the lengths of the patterns that lists make.
#[inline(never)]
fn checked(lists: Vec<Vec<Interaction>>) -> Result<u64, TranscriptError> {
    let mut sum = 0u64;
    for steps in lists {
        let pattern = InteractionPattern::new(steps)?;
        sum = sum.wrapping_add(pattern.len() as u64);
    }
    Ok(sum)
}

// A step that carries an element of the field. Its identity is hashed.
fn element() -> Interaction {
    Interaction::algebra::<BabyBear, BabyBear, Sha256Hasher>(
        Hierarchy::Atomic,
        Kind::Message,
        "value",
        Length::Scalar,
    )
}

// So many steps with elements, each by its own constructor: the sum of the lengths of their labels.
fn elements() -> u64 {
    let mut sum = 0u64;
    for _ in 0..ELEMENTS {
        sum = sum.wrapping_add(element().label().len() as u64);
    }
    sum
}

// How many steps so many patterns have that are recorded, and how many bytes the label of a step that is made for each.
fn recorded(
    alloc: Global,
    steps: &[Interaction],
    inside: bool,
    count: u32,
) -> Result<u64, TranscriptError> {
    let mut sum = 0u64;
    for _ in 0..count {
        let label = element().label().len() as u64;
        let len = record(alloc, steps, inside)?.len() as u64;
        sum = sum.wrapping_add(label).wrapping_add(len);
    }
    Ok(sum)
}

fn record(
    alloc: Global,
    steps: &[Interaction],
    inside: bool,
) -> Result<InteractionPattern, TranscriptError> {
    let mut recorder = PatternState::<u8>::new(alloc);
    match record_steps(&mut recorder, steps, inside) {
        Ok(()) => recorder.finalize(),
        Err(error) => {
            recorder.abort();
            Err(error)
        }
    }
}

// The ends of a container take the places of two steps.
fn record_steps(
    recorder: &mut PatternState<u8>,
    steps: &[Interaction],
    inside: bool,
) -> Result<(), TranscriptError> {
    if !inside {
        return record_each(recorder, steps);
    }
    recorder.begin_protocol::<()>("bench")?;
    record_each(recorder, steps.get(2..).unwrap_or(&[]))?;
    recorder.end_protocol::<()>("bench")
}

fn record_each(
    recorder: &mut PatternState<u8>,
    steps: &[Interaction],
) -> Result<(), TranscriptError> {
    for step in steps {
        recorder.interact(*step)?;
    }
    Ok(())
}

// The sum of the lengths of so many texts of the pattern.
fn rendered(pattern: &InteractionPattern, count: u32) -> Result<u64, TranscriptError> {
    let mut sum = 0u64;
    for _ in 0..count {
        sum = sum.wrapping_add(pattern.alternate()?.len() as u64);
    }
    Ok(sum)
}

// The sum of the first bytes of so many digests of the pattern.
fn digested(pattern: &InteractionPattern, count: u32) -> Result<u64, TranscriptError> {
    let mut sum = 0u64;
    for _ in 0..count {
        let digest = pattern.pattern_hash::<Sha256Hasher>()?;
        sum = sum.wrapping_add(u64::from(digest[0]));
    }
    Ok(sum)
}

fn played(
    pattern: &Rc<InteractionPattern>,
    steps: &[Interaction],
    count: u32,
) -> Result<u64, TranscriptError> {
    for _ in 0..count {
        play_whole(pattern, steps)?;
    }
    Ok(u64::from(count))
}

fn play_whole(
    pattern: &Rc<InteractionPattern>,
    steps: &[Interaction],
) -> Result<(), TranscriptError> {
    let mut player = PatternPlayer::new(pattern.clone()?);
    match play(&mut player, steps) {
        Ok(()) => player.finalize(),
        Err(error) => {
            player.abort();
            Err(error)
        }
    }
}

fn play(player: &mut PatternPlayer, steps: &[Interaction]) -> Result<(), TranscriptError> {
    for step in steps {
        player.interact(*step)?;
    }
    Ok(())
}
