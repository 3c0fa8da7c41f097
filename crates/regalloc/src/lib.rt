//! Places for registers: each takes the first that is free, in order of where their spans start.
#![tactic(auto)]

mod ends;
pub mod place;
mod starts;
#[cfg(test)]
mod tests;
