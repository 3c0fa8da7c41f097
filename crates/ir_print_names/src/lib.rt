//! Printed names and numbers, and the text that grows by them.
#![tactic(auto)]

pub mod laws;
mod names;
mod numbers;
mod page;

pub use names::{name, quoted};
pub use numbers::number;
pub use page::Page;
