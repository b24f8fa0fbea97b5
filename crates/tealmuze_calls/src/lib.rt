//! What the calls from C answer: a protocol that bytes describe, verified or proved, and what is told of that.
//!
//! `docs/BINDINGS.md` says what the bytes of a description and of an answer are. `tealmuze_c` exports the calls.
#![tactic(auto)]

mod answers;
mod by_suite;
mod calls;
mod cursor;
mod description;
mod duplex_suites;
mod hash_suites;
mod prepared;
mod proving;
mod readings;
mod room;
mod rooms;
mod steps;
mod suites;
mod telling;
mod unanswered;
mod values;
mod verdicts;
mod verifying;
mod words;

pub use crate::answers::{put_challenge, put_counted, put_number, put_value};
pub use crate::by_suite::{CallsBySuite, Suites};
pub use crate::calls::Calls;
pub use crate::cursor::Cursor;
pub use crate::description::Protocol;
pub use crate::prepared::{Described, Prepared, prepare};
pub use crate::proving::{prove, prove_prepared};
pub use crate::readings::{
    described_protocols_are_alike, description_has_one_reading, verdicts_are_of_what_is_described,
};
pub use crate::room::wanted_room_of_step;
pub use crate::rooms::wanted_room_suffices;
pub use crate::steps::parse_step;
pub use crate::suites::{Called, SeparatorOf};
pub use crate::telling::{Answer, tell};
pub use crate::unanswered::Unanswered;
pub use crate::values::parse_value;
pub use crate::verdicts::{DONE, refused};
pub use crate::verifying::{verify, verify_prepared};
pub use crate::words::scalar;
