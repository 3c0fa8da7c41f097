//! Small functions whose words run as a play, so that the law of good code speaks of some.
#![tactic(auto)]

pub mod laws;
