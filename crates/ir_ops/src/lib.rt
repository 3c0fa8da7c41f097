//! What each operation does to numbers, and the bytes of data memory.
#![tactic(auto)]

pub mod binary;
pub mod casts;
pub mod cells;
pub mod choices;
pub mod compare;
pub mod memory;
pub mod quotients;
pub mod shifts;
pub mod sums;
pub mod value;
