//! Words of target code that run as a play over bits, and when that makes them a good version of a function.
#![tactic(auto)]

pub mod laws;
