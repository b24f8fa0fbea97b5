//! What the program `transcript` answers to its arguments and input, and how it writes that.
#![tactic(auto)]

mod arguments;
mod demo;
pub mod first;
mod input;
mod program;
mod report;
mod script;

pub use arguments::{Request, ToProve};
pub use program::{Answer, answer_to, answer_unread, reason, run, write_answer};
