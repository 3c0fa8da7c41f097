//! The pieces of the quick compiler's code: what one instruction, an entry, a call and a return take, with no label.
#![tactic(auto)]

pub mod allocas;
pub mod built_ins;
pub mod moves;
pub mod operations;
pub mod parts;
pub mod pieces;
pub mod work;
