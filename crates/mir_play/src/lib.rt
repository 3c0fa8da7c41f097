//! What target code over virtual registers means: its play, its weights, and when it refines other functions.
#![tactic(auto)]

pub mod laws;
