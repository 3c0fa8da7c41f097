//! What each seat of the table knows. No value of these types but `Plan` is made.

use code_epochs::{Book, HartPart};
use ir_verify::checked::Checked;
use std::snapshot::Snapshot;

/// What is fixed when the table is made.
#[derive(Drop)]
pub struct Plan {
    pub module: Snapshot<Checked>,
    pub harts: u32,
    pub code_words: u32,
}

/// What a hart knows, with its own word of the table.
pub struct HartView {
    pub number: u32,
    pub word: u64,
    pub part: HartPart,
}

pub enum Role {
    Hart(HartView),
    Keeper(Book),
    Spent,
}

pub struct View {
    pub plan: Plan,
    pub role: Role,
}
