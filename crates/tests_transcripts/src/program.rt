// The program where it fails to read or to write, and what it tells. What else it answers is in the rows of `conformance`.
use p3_challenger_core::ChallengerError;
use p3_fs_core::TranscriptError;
use std::io;
use std::io::{ErrorKind, Read, Write};
use transcript_program as program;

// A writer that takes so many bytes and then fails.
#[derive(Drop)]
struct Failing {
    room: usize,
}

impl Write for Failing {
    fn write(&mut self, buf: &[u8]) -> io::Result<usize> {
        if self.room == 0 {
            return Err(io::Error::from(ErrorKind::Other));
        }
        let taken = buf.len().min(self.room);
        self.room -= taken;
        Ok(taken)
    }

    fn flush(&mut self) -> io::Result<()> {
        Ok(())
    }
}

// What `prove 9 0011223344556677 ""` writes, as it was worked out apart from this code, by a program of the definitions:
// the salt, no values, the witness 1019, and an empty note.
const PROOF: [u8; 14] = [
    0x00, 0x11, 0x22, 0x33, 0x44, 0x55, 0x66, 0x77, 0, 0, 0, 3, 0xfb, 0,
];

#[test]
fn a_failed_write_gives_status_1(rt: HostRuntime) {
    let rows: [(&[&str], usize, u8); 10] = [
        (&["first", "7"], 0, 1),
        (&["first", "7"], 5, 1),
        (&["first", "7"], 20, 1),
        (&["first", "7"], 64, 0),
        (&["last"], 0, 1),
        (&["last"], 2, 1),
        (&["last"], 10, 1),
        (&["last"], 32, 1),
        (&["verify", "9"], 0, 1),
        (&["prove", "9", "0011223344556677", ""], 0, 1),
    ];
    for (words, room, wanted) in &rows {
        let mut reader = PROOF.as_slice();
        let mut writer = Failing { room: *room };
        let status = program::run(rt.alloc(), words, &mut reader, &mut writer);
        assert_eq!(rt; status, *wanted, "{words:?}, room for {room}");
    }
}

// A reader that gives so many bytes, one in each read, and then ends or fails. It counts its reads.
#[derive(Drop)]
struct Trickle {
    left: usize,
    fails_with: Option<ErrorKind>,
    reads: usize,
}

impl Read for Trickle {
    fn read(&mut self, buf: &mut [u8]) -> io::Result<usize> {
        self.reads = self.reads.saturating_add(1);
        if self.left > 0 && !buf.is_empty() {
            self.left -= 1;
            buf[0] = 7;
            return Ok(1);
        }
        match self.fails_with {
            Some(kind) => Err(io::Error::from(kind)),
            None => Ok(0),
        }
    }
}

#[test]
fn a_failed_read_gives_status_1(rt: HostRuntime) {
    let unread = "refused: input\n";
    let over = "refused: message length exceeds declared maximum\n";
    let rows: [(usize, Option<ErrorKind>, usize, &str); 6] = [
        (0, Some(ErrorKind::Other), 1, unread),
        (14, Some(ErrorKind::Other), 15, unread),
        (100, Some(ErrorKind::UnexpectedEof), 101, unread),
        (1, Some(ErrorKind::Interrupted), 1048576, unread),
        (1048576, None, 1048576, unread),
        (1048575, None, 1048576, over),
    ];
    for (left, fails_with, reads, told) in &rows {
        let mut reader = Trickle {
            left: *left,
            fails_with: *fails_with,
            reads: 0,
        };
        let mut output = Vec::new(rt.alloc());
        let status = program::run(rt.alloc(), &["verify", "9"], &mut reader, &mut output);
        assert_eq!(rt; (status, reader.reads), (1, *reads), "{left}");
        assert_eq!(rt; output.as_slice(), told.as_bytes(), "{left}");
    }
}

#[test]
fn each_error_has_its_reason(rt: HostRuntime) {
    let reasons: [(TranscriptError, &str); 6] = [
        (TranscriptError::BadProofShape { reason: "why" }, "why"),
        (
            TranscriptError::Challenger(ChallengerError::OutOfMemory),
            "out of memory",
        ),
        (
            TranscriptError::Challenger(ChallengerError::DrawLimit),
            "draw limit",
        ),
        (
            TranscriptError::Challenger(ChallengerError::NoWitness),
            "no witness",
        ),
        (
            TranscriptError::Challenger(ChallengerError::TooLong),
            "too long",
        ),
        (TranscriptError::OutOfMemory, "out of memory"),
    ];
    for (error, want) in &reasons {
        assert_eq!(rt; program::reason(error), *want);
    }
}

#[test]
fn arguments_that_are_no_text_get_the_usage_line(rt: HostRuntime) {
    let no_text = io::Error::from(ErrorKind::InvalidData);
    assert!(rt; matches!(program::answer_unread(&no_text), program::Answer::Usage));
    let no_memory = io::Error::from(ErrorKind::OutOfMemory);
    let refused = program::answer_unread(&no_memory);
    assert!(rt;
        matches!(
            refused,
            program::Answer::Refused(TranscriptError::OutOfMemory)
        )
    );
}
