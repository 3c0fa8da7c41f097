//! That the generic code of each function of a checked module refines it.
#![tactic(auto)]

pub mod laws;
