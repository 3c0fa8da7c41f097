//! Parallel copies of registers as moves one after another.
#![tactic(auto)]

pub mod edges;
pub mod moves;
#[cfg(test)]
mod tests;
