//! Pieces of RV64IM code that name no instruction of the IR: what they are, and what runs over them do.
#![tactic(auto)]

pub mod assembly_laws;
