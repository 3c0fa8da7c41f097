//! What constants, operands, initial values and globals of a tree stand for.
#![tactic(auto)]

mod address;
mod globals;
pub mod laws;
mod named;
mod numbers;
mod offsets;
pub mod operands;
mod same;
pub mod scope;
mod values;

pub use address::{global_number, place};
pub use globals::{global_names, globals_of};
pub use named::types_of;
pub use numbers::{extended, literal_of};
pub use same::same_type;
pub use values::{Scope, init_of};
