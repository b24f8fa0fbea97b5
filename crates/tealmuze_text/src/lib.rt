//! What the program `tealmuze` reads and writes, whatever a suite is: the command line, the tables of a file, and the
//! answers as text or as JSON.
#![tactic(auto)]

pub mod answers;
pub mod code;
pub mod command;
pub mod entry;
pub mod explanation;
mod imports;
mod json;
pub mod labels;
pub mod limits;
pub mod line;
pub mod numbers;
pub mod proofs;
pub mod refusal;
pub mod repetition;
pub mod shown;
mod step_code;
pub mod steps;
pub mod suite_code;
mod table;
