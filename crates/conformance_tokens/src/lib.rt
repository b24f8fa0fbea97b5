//! What the programs that compare answers read and write: the lines of their files, the tokens of a call, the symbols
//! that numbers stand for, and how answers are written.
#![tactic(auto)]

pub mod answer;
pub mod line;
pub mod symbol;
pub mod tokens;
