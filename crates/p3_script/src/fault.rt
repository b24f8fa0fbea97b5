//! Where a script is refused.
use p3_fs_core::TranscriptError;
use thiserror::Error;

/// The position at which a script is refused, and the error. Not in the Rust crate.
#[derive(Clone, Debug, PartialEq, Eq, Drop, Error)]
#[error("step {position}: {error}")]
pub struct Fault {
    /// The index of the refused step; 0 while seeding, and the script's length at the end.
    pub position: usize,
    /// The only error possible there, except out of memory: see the law [`faults_are_one`](crate::faults_are_one).
    pub error: TranscriptError,
}
