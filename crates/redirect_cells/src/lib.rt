//! The code table that threads share, its harts' seats and its keeper.
#![tactic(auto)]

mod desk;
mod first;
mod hart_seat;
mod keeper;
mod keeper_seat;
mod plays;
mod table;
mod view;

pub use hart_seat::HartSeat;
pub use keeper::Keeper;
pub use table::{CodeTable, Opening};
pub use view::{HartView, Plan, Role, View};
