//! Tests of instruction selection, over functions whose code was worked out by hand.
#![tactic(auto)]

#[cfg(test)]
mod tests;
