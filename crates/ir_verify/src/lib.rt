//! The verifier: a module that passes is well formed, typed, and uses each value only where every walk has defined it.
#![tactic(auto)]

pub mod calls;
pub mod checked;
pub mod inits;
pub mod laws;
pub mod phis;
pub mod ranges;
pub mod refusal;
pub mod shapes;
pub mod types;
pub mod verdict;
