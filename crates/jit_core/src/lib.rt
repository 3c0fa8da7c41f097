//! The core: harts, a keeper and orders as one machine over events, of which each makes at most one step on a shared word, and runs of it over drawn events.
#![tactic(auto)]

mod draw;
mod ending;
mod event;
mod first;
mod harts;
mod history;
mod keeper;
pub mod laws;
mod laying;
mod orders;
mod publishing;
mod run;
mod search;
mod seat;
mod simulation;
mod state_machine;

pub use ending::finish;
pub use event::{Event, Stepped};
pub use run::{Plan, Report, run_drawn};
pub use simulation::simulate;
pub use state_machine::Core;
