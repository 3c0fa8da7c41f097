//! Which constants stay in a register, and which are made again at each use.
#![tactic(auto)]

pub mod banks;
mod counts;
