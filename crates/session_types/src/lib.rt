//! What a session takes and gives that the crates beside it name too: the trait of makers of versions, and what a session comes to.
#![tactic(auto)]

mod maker;
mod settled;

pub use maker::Maker;
pub use settled::{JobRefusal, RefusedJob, Settled, SymbolRow};
