use p3_domain_separator::DomainSeparator;
use p3_fs_core::{Hierarchy, Interaction, Kind, Length, TranscriptError};
use p3_patterns::InteractionPattern;
use p3_symmetric::Sha256Hasher;
use std::alloc::Global;
use std::test::Fail;

// What a separator is made of.
#[derive(Clone, Copy)]
struct Parts {
    version: u8,
    letter: u8,
    len: usize,
    chunks: [&'static [u8]; 2],
}

const PARTS: Parts = Parts {
    version: 1,
    letter: b'n',
    len: 1,
    chunks: [b"a", b"bc"],
};

// Others, which differ in one part each: the last one has the same bytes in its chunks.
const OTHERS: [Parts; 4] = [
    Parts {
        version: 2,
        ..PARTS
    },
    Parts {
        letter: b'm',
        ..PARTS
    },
    Parts { len: 2, ..PARTS },
    Parts {
        chunks: [b"ab", b"c"],
        ..PARTS
    },
];

// The separator of a protocol named by a letter, of one step of so many bytes, with two chunks.
fn separator(
    alloc: Global,
    parts: Parts,
) -> Result<DomainSeparator<u8, Sha256Hasher>, TranscriptError> {
    let length = Length::Fixed(parts.len);
    let step = Interaction::bytes(Hierarchy::Atomic, Kind::Message, "m", length);
    let pattern = InteractionPattern::new(vec![in alloc; step]?)?;
    let mut separator = DomainSeparator::new(alloc, parts.version, &[parts.letter], pattern)?;
    separator.instance(parts.chunks[0])?;
    separator.instance(parts.chunks[1])?;
    Ok(separator)
}

fn is_equal_to_its_clone_alone(alloc: Global) -> Result<bool, TranscriptError> {
    let first = separator(alloc, PARTS)?;
    let mut copy = first.clone()?;
    if copy != first {
        return Ok(false);
    }
    copy.instance(b"")?;
    for parts in &OTHERS {
        if separator(alloc, *parts)? == first {
            return Ok(false);
        }
    }
    Ok(copy != first)
}

#[test]
fn a_separator_is_equal_to_its_clone_alone(rt: HostRuntime) -> Result<(), Fail> {
    assert!(rt; is_equal_to_its_clone_alone(rt.alloc())?);
    Ok(())
}
