//! The code of instructions for the translator to generic machine code: within a block, and at its end.
#![tactic(auto)]

pub mod edge;
pub mod ends;
pub mod insts;
pub mod jumps;
pub mod lists;
pub mod literals;
pub mod operands;
pub mod parts;
pub mod sums;
pub mod translator;
pub mod values;
