//! Tests of spans, places and words, over functions that were worked out by hand.
#![tactic(auto)]

#[cfg(test)]
mod tests;
