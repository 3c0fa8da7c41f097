//! Tokens, words, types, operators and values as clang writes them. Nothing but tests.
#![tactic(auto)]

#[cfg(test)]
mod token_tests;
#[cfg(test)]
mod value_tests;
#[cfg(test)]
mod word_tests;
