//! Laws of printing: what is printed reads back as the same module, and what was read prints back.
#![tactic(auto)]

pub mod form_laws;
pub mod many_calls_laws;
pub mod print_laws;
pub mod read_laws;
pub mod tree_laws;
