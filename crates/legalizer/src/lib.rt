//! Generic machine code in its legal form: each register is a pointer or has 64 bits.
#![tactic(auto)]

mod extend;
pub mod legalize;
mod legalizer;
mod operands;
pub mod room;
