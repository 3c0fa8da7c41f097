//! Modules made by hand, and tests of the IR's numbers, of the verifier and the evaluator over them, and of texts that are read as trees.
#![tactic(auto)]

pub mod build;
#[cfg(test)]
mod eval_tests;
#[cfg(test)]
mod layouts;
#[cfg(test)]
mod tests;
#[cfg(test)]
mod tree_tests;
