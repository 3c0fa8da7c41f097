//! The legal form of generic machine code, and that it refines what it was made of.
#![tactic(auto)]

pub mod laws;
