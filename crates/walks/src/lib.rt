//! Activations that go step by step over bits, what their plays come to, and when one play refines another.
#![tactic(auto)]

pub mod laws;
