//! Prints a module as a text, over a page that text is written to.
#![tactic(auto)]

mod blocks;
mod instructions;
mod modules;
mod types;
mod values;

pub use modules::print;
