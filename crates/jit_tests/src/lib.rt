//! Tests of the code table, of the core and of sessions over versions that the quick compiler makes, which a crate below can't make.
#![tactic(auto)]

#[cfg(test)]
mod event_tests;
#[cfg(test)]
mod quick;
#[cfg(test)]
mod session_tests;
#[cfg(test)]
mod table_tests;
