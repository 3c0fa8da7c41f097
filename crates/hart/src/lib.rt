//! A hart: the machine that runs a call's words, with its memory and its address map.
#![tactic(auto)]

mod bytes;
mod execute;
mod fabric;
mod fixed;
mod form;
mod forms;
mod hart;
pub mod laws;
mod map;
mod run;
mod start;
mod step;
#[cfg(test)]
mod tests;
mod turn;
mod widths;
mod words;

pub use fabric::Fabric;
pub use fixed::FixedFabric;
pub use hart::{Given, Hart, Image, Wanted};
