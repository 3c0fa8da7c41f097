//! Target code over virtual registers of 64 bits: functions, where registers are live, and where they stand.
#![tactic(auto)]

pub mod code;
pub mod operands;
pub mod places;
