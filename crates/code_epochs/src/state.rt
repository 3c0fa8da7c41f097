//! What is stored of the code: cells, the epoch, the harts' words, the code words and the versions.

#[derive(Clone, Copy)]
pub enum Status {
    Linked,
    Unlinked,
    Pending { tag: u64, passed: u32 },
    GivenUp,
}

#[derive(Clone, Copy)]
pub struct VersionState {
    pub number: u32,
    pub symbol: u32,
    pub level: u8,
    pub base: u64,
    pub words: u32,
    pub status: Status,
}

#[derive(Drop)]
pub struct CodeState {
    pub cells: Vec<u64>,
    pub epoch: u64,
    pub harts: Vec<u64>,
    pub code: Vec<u32>,
    pub versions: Vec<VersionState>,
}
