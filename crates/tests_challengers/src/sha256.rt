use p3_symmetric::{CryptographicHasher, Sha256Hasher};
use sha2::{Digest, Sha256};
use std::process::Abort;
use std::test::Fail;

const LONGEST: usize = 200;

const MOST: usize = 17;

// Whether the digests of so many messages of one length, which stand one after another, are those of single messages.
fn are_single_digests(bytes: &[u8], each: usize, count: usize) -> bool {
    let size = count.saturating_mul(each);
    if size > bytes.len() || count > MOST {
        return false;
    }
    if !(count == 0 && size == 0 || count > 0 && size % count == 0) {
        return false;
    }
    let mut digests = [[0u8; 32]; MOST];
    Sha256Hasher.hash_many(&bytes[..size], &mut digests[..count]);
    let mut rest = &bytes[..size];
    for digest in digests[..count].iter() {
        let Some((message, after)) = rest.split_at_checked(each) else {
            return false;
        };
        if *digest != Sha256::digest(message) {
            return false;
        }
        rest = after;
    }
    true
}

// The kit's `sha2` says what each digest is, one message at a time. The lengths end a message at each place of a
// block, and the batches have every number of messages that is left after groups of four.
#[test]
fn many_digests_are_those_of_single_messages(rt: HostRuntime) -> Result<(), Fail> {
    let bytes: Vec<u8> = (0..MOST * LONGEST)
        .map(|i| (i % 251) as u8)
        .collect(rt.alloc())?;
    for each in 0..LONGEST + 1 {
        for count in 0..MOST + 1 {
            assert!(rt;
                are_single_digests(&bytes, each, count),
                "{count} of {each}"
            );
        }
    }
    Ok(())
}
