//! The first data memory: where a module's globals stand, and the bytes that they hold at first.
#![tactic(auto)]

pub mod addresses;
pub mod bytes;
pub mod image;
pub mod laws;
pub mod places;
pub mod struct_fields;
pub mod values;
