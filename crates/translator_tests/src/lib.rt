//! Generic machine code of small functions, beside what was worked out by hand. Nothing but tests.
#![tactic(auto)]

#[cfg(test)]
mod tests;
