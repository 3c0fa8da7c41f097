//! Texts of modules, and what they are read as and refused for; the printed form of a module. Nothing but tests.
#![tactic(auto)]

#[cfg(test)]
mod print_tests;
#[cfg(test)]
mod reader_tests;
#[cfg(test)]
mod resolve_tests;
