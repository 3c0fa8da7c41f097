//! The words of a command line, read as the command that they are.
#![tactic(auto)]

mod arguments;
mod line;
mod number;
mod words;

pub use line::{CommandLine, GREATEST_LEVEL, RunOptions, SimOptions};
pub use words::read_words;
