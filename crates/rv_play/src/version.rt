// Versions, and why none is made.
use sqlite_items::Items;

/// The words of one version of a function: its symbol, and its level from 1 to 3.
#[derive(Drop)]
pub struct Version {
    pub symbol: u32,
    pub level: u8,
    pub words: Items<u32>,
}

/// Why a version wasn't made.
#[derive(Clone, Copy, Debug, PartialEq, Eq, Drop)]
pub enum MakeRefusal {
    /// So many registers are live at a point that they have no places.
    Crowded { point: u32, overlap: u32 },
    NoMemory,
}
