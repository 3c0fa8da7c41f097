//! The words of functions of target code whose registers have places.
#![tactic(auto)]

pub mod blocks;
pub mod frames;
pub mod insts;
pub mod layout;
pub mod memory;
pub mod placed;
pub mod stands;
