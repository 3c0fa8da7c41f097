//! The generic machine code of a function of a checked module: its definition, and what holds of it.
#![tactic(auto)]

pub mod laws;
