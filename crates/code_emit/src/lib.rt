//! Pieces of code that name no instruction of the IR, appended to an assembler: numbers, slots, stubs, the entry, the return, byte loops, and labels.
#![tactic(auto)]

pub mod bytes;
pub mod frame;
pub mod labels;
pub mod pieces;
