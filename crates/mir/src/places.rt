// Spans of registers, and the places that they get.
use sqlite_items::Items;

/// For each register the first and the last point at which it holds a value that is needed, both included.
/// Instruction number i, counted over the whole function in order of blocks, reads at point 2i and writes at point 2i + 1.
#[derive(Drop)]
pub struct Intervals {
    pub spans: Items<Option<(u32, u32)>>,
}

/// Where a register stands.
#[derive(Clone, Copy, PartialEq, Eq, Drop)]
pub enum Place {
    /// One of s0 to s10, by its number from 0 to 10.
    Saved(u32),
    /// A slot of the frame.
    Slot(u32),
}

/// The place of each register that has one.
#[derive(Drop)]
pub struct Places {
    pub at: Items<Option<Place>>,
}
