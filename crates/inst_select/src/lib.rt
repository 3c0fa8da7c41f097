//! Instruction selection: target code for functions of generic machine code.
#![tactic(auto)]

mod code;
mod operands;
mod patterns;
pub mod select;
