//! Instructions in a module's text, as trees.
#![tactic(auto)]

pub mod instructions;
mod tree;

pub use tree::{Case, Incoming, Instruction, Operation};
