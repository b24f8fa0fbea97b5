//! A transcript in two functions, which [`first_transcript`] has.

pub use first_transcript::{FirstRead, FirstRun, prove, verify};
