//! A session: each hart runs its calls over a bench of its own, workers make versions, and all are settled at the end.
#![tactic(auto)]

mod asking;
mod bench;
mod gate;
pub mod laws;
mod locked;
mod opening;
mod outcome;
mod parts;
mod reserve;
mod rows;
mod runner;
mod session;
mod settling;
mod worker;

pub use asking::{Asking, new_asking};
pub use bench::Bench;
pub use gate::{Gate, NoGate, Point};
pub use locked::{Locked, Naming};
pub use opening::new_runners;
pub use outcome::{gather_answers, part};
pub use parts::{Part, new_parts, part_again, run_parts};
pub use runner::Runner;
pub use session::{Setup, run};
pub use settling::settle_one;
pub use worker::Worker;
