//! The second tier: words of a function from its generic machine code, stage by stage.
#![tactic(auto)]

mod placed;
pub mod size;
pub mod stages;
