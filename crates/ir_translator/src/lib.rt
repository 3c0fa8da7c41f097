//! The translator: a function of a checked module as generic machine code.
#![tactic(auto)]

mod assembled;
mod blocks;
mod edges;
mod heads;
mod join;
mod known;
pub mod translate;
