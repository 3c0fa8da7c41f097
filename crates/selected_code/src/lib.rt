//! The target code that is selected for functions of generic machine code, and what holds of it.
#![tactic(auto)]

pub mod laws;
