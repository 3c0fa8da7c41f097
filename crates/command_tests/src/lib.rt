//! Words of command lines, files and sinks. Nothing but tests.
#![tactic(auto)]

#[cfg(test)]
mod file_tests;
#[cfg(test)]
mod word_tests;
