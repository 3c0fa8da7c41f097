//! Instructions, their words, code with labels, listings and frames at the ends of their ranges. Nothing but tests.
#![tactic(auto)]

#[cfg(test)]
mod assembler_tests;
#[cfg(test)]
mod encoding_tests;
#[cfg(test)]
mod frame_tests;
#[cfg(test)]
mod instruction_tests;
#[cfg(test)]
mod listing_tests;
