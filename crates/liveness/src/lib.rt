//! The spans of registers: from the first to the last point at which each is live or written.
#![tactic(auto)]

mod graph;
pub mod intervals;
pub mod laws;
mod scan;
mod search;
mod spread;
