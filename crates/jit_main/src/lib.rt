//! The program's one call: from the words of the command line to the answers and the status.
#![tactic(auto)]

mod answered;
mod big;
mod command;
mod dump;
mod eval;
mod files;
mod front;
mod images;
mod memory;
mod run;
mod sim;
mod stop;
mod tell;
mod top;

pub use top::{reopt, serial};
