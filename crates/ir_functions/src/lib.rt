//! The functions of a tree with numbers for names, and the module that it says.
#![tactic(auto)]

pub mod functions;
pub mod laws;
pub mod locals;
pub mod units;
