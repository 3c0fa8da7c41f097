//! Where the version that was ordered last stands, and what the keeper looked at last.

use crate::laying::Laying;

/// A version that is being published. It is a draft until the epoch is raised.
#[derive(Drop)]
pub enum Publishing {
    /// It has a range, and is stored there.
    Storing(Laying),
    /// It is linked, and the epoch is to be raised for the version with this number, which isn't any more.
    Raising(u32),
}

/// A version, and the hart whose word is looked at for it.
#[derive(Clone, Copy)]
pub struct Pair {
    pub version: u32,
    pub hart: u32,
}
