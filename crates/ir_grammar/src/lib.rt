//! The grammar of what a module's text is made of: words, attributes, operators and types.
#![tactic(auto)]

pub mod operators;
pub mod type_tree;
pub mod types;
pub mod words;
