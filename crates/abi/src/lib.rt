// Registers, offsets and addresses that the compilers and the harts share.
#![tactic(auto)]

pub mod frame;
pub mod map;
