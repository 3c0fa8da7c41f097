//! Operands, constants and initial values in a module's text, as trees.
#![tactic(auto)]

pub mod value_tree;
pub mod values;
