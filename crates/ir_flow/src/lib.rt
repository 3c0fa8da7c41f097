//! The limits of a module, the graph of a function's blocks, and whether each use of a value comes after its definition on every walk.
#![tactic(auto)]

pub mod assigned;
mod draft;
pub mod limits;
mod lists;
pub mod nodes;
pub mod sizes;
mod tree;
pub mod uses;
pub mod walk;
