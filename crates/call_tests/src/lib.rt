//! Lists of calls, the lines of answers, reports and refusals. Nothing but tests.
#![tactic(auto)]

#[cfg(test)]
mod list_tests;
#[cfg(test)]
mod many_calls_tests;
#[cfg(test)]
mod refusal_tests;
