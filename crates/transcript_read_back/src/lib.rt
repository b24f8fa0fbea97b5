//! What the queries of a transcript's challenger, to its permutation or its hash function, tell of
//! the transcript.
#![tactic(auto)]

mod call_by_call;
mod recursive;
mod scripts;

pub use call_by_call::{duplex_is_call_by_call, hash_is_call_by_call};
pub use recursive::{OverDuplex, OverHash, begin_duplex, begin_hash};
pub use scripts::scripts_are_calls;
