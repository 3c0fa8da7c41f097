//! The code of functions of target code whose registers have places, and when a machine stands for their states.
#![tactic(auto)]

pub mod laws;
