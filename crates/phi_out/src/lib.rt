//! The phis of a function of target code become moves on edges.
#![tactic(auto)]

pub mod lowering;
