//! Instructions of a module's text: what they say, names replaced by numbers.
#![tactic(auto)]

pub mod built_ins;
mod counts;
pub mod instructions;
pub mod laws;
mod lists;
