//! The code of the quick tier: what it is, and why it is good.
#![tactic(auto)]

pub mod laws;
