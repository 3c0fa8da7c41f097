// Code with labels, and the words that it becomes.
#![tactic(auto)]

pub mod asm;
pub mod constant;
pub mod item;
pub mod laws;
pub mod layout;
