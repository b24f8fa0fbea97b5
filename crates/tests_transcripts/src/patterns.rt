use crate::steps::are_in_order;
use p3_fs_core::{Hierarchy, Interaction, Kind, Length, TranscriptError};
use p3_patterns::InteractionPattern;
use std::alloc::Global;
use std::hash::{DefaultHasher, Hash, Hasher};
use std::test::Fail;

// In order: a list that begins another one stands before it.
fn patterns(alloc: Global) -> Result<Vec<InteractionPattern>, TranscriptError> {
    let low = Interaction::opaque(Hierarchy::Atomic, Kind::Public, "a", Length::Scalar);
    let high = Interaction::opaque(Hierarchy::Atomic, Kind::Public, "b", Length::Scalar);
    let lists: [&[Interaction]; 5] = [&[], &[low], &[low, low], &[low, high], &[high]];
    let mut patterns = Vec::new(alloc);
    for list in &lists {
        patterns.push(InteractionPattern::new(Vec::from_slice(alloc, list)?)?)?;
    }
    Ok(patterns)
}

fn hash_of(pattern: &InteractionPattern) -> u64 {
    let mut state = DefaultHasher::new();
    pattern.hash(&mut state);
    state.finish()
}

// Two are hashed alike where they are one.
fn are_hashed_apart(patterns: &[InteractionPattern]) -> bool {
    for (i, pattern) in patterns.iter().enumerate() {
        for (j, other) in patterns.iter().enumerate() {
            if (hash_of(pattern) == hash_of(other)) != (i == j) {
                return false;
            }
        }
    }
    true
}

#[test]
fn patterns_are_ordered_and_hashed_as_the_lists_of_their_steps(
    rt: HostRuntime,
) -> Result<(), Fail> {
    let patterns = patterns(rt.alloc())?;
    assert!(rt; are_in_order(patterns.as_slice()) && are_hashed_apart(patterns.as_slice()));
    Ok(())
}
