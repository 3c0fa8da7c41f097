use ir_types::{Named, Types};
use std::alloc::Global;

/// What is known outside of functions.
#[derive(Drop)]
pub struct Outer {
    pub alloc: Global,
    /// The named types.
    pub types: Types,
    /// The names of globals and functions.
    pub symbols: Named,
}
