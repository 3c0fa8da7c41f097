// What a session comes to.
use ir_meaning::calls::Ended;
use sqlite_items::Items;

/// Why a version wasn't made or published.
#[derive(Clone, Copy, PartialEq, Eq)]
pub enum JobRefusal {
    /// So many intervals contain this point.
    Crowded { point: u32, overlap: u32 },
    /// The version takes so many code words, and the largest free range has so many.
    NoRoom { needed: u64, largest: u32 },
    NoMemory,
}

/// A job that was refused when the session settled.
#[derive(Clone, Copy, PartialEq, Eq)]
pub struct RefusedJob {
    pub symbol: u32,
    pub level: u8,
    pub cause: JobRefusal,
}

/// How often a symbol was entered, and the level and the words of the version that it has at the end.
#[derive(Clone, Copy, PartialEq, Eq)]
pub struct SymbolRow {
    pub entries: u64,
    pub level: u8,
    pub words: u32,
}

/// The answers of a list of calls, in order; how often each hart entered each symbol; a row per symbol; the jobs that were
/// refused, in order of symbol; and the code words in use, the headers of versions with them.
#[derive(Drop)]
pub struct Settled {
    pub answers: Items<Ended>,
    pub by_hart: Items<Items<u64>>,
    pub rows: Items<SymbolRow>,
    pub refused: Items<RefusedJob>,
    pub used: u32,
}
