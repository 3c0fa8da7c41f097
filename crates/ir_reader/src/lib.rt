//! Reads the text of a module: the functions of its tree, and the whole.
#![tactic(auto)]

mod reading;

pub use reading::{ReadRefusal, read};
