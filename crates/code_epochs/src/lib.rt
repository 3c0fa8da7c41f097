//! The code state, each kind of step on it as one function that keeps it sound, and the keeper's list of versions.
#![tactic(auto)]

pub mod laws;
mod parts;
mod refusals;
mod shelf;
mod state;
mod steps;
#[cfg(test)]
mod tests;

pub use parts::{Book, Draft, HartPart, Item, Look};
pub use refusals::{OpenRefusal, PublishRefusal};
pub use shelf::Shelf;
pub use state::{CodeState, Status, VersionState};
pub use steps::{
    announce, clear_header, go_idle, load_cell, load_epoch, load_word, look, marks, raise_epoch,
    reserve_version, store_word, swap_cell, unlink_all,
};
