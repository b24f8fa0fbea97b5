//! Questions about a script that is not played yet. What is its pattern? Can a suite play its steps, and are they those
//! of a given pattern? Are given values right to send, and how many witnesses are carried?
#![tactic(auto)]

mod admission;
mod fitting;
mod matching;

pub use admission::{admitted, step_admitted};
pub use fitting::{fits, pattern};
pub use matching::{carried_len, sent_matches, step_matches};
