//! The words of the quick code of small functions, beside those that are assembled by hand. Nothing but tests.
#![tactic(auto)]

#[cfg(test)]
mod address_tests;
#[cfg(test)]
mod tests;
