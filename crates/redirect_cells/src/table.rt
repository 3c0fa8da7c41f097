//! The table with its memory.
ghost use Rattle.std.specs.Prelude.{◌≡◌, ◌+◌, ◌<◌, ◌≤◌, [], IfOk, replicate};
ghost use Rattle.redirect_cells.specs.Kept.{functions_of, IsPlanOf, opened};

use crate::plays::Epochs;
use crate::view::{Plan, View};
use atomic_table::{Seat, Table};
use ir_verify::checked::Checked;
use rj_num::NoMemory;
use std::alloc::Global;
use std::snapshot::Snapshot;

#[derive(Drop)]
pub struct CodeTable {
    pub(crate) table: Table<(), View, Plan, Epochs, Global>,
    pub(crate) functions: u32,
    pub(crate) harts: u32,
    pub(crate) code_words: u32,
    ghost functions_are: { functions ≡ (functions_of table.shared.key) },
    ghost harts_are: { harts ≡ table.shared.key.harts },
    ghost code_is: { code_words ≡ table.shared.key.code_words },
    ghost words_are: { table.shared.table_id.words ≡ 1 + functions + harts + code_words },
    ghost sizes: { (harts ≤ 16) × (code_words ≤ 4194304) },
    ghost some_harts: { 0 < harts },
    ghost few: { functions ≤ 1024 },
    ghost no_slots: { table.shared.table_id.slots ≡ 0 },
}

/// The first seat of a table in which there is no version yet.
#[derive(Drop)]
pub struct Opening {
    pub(crate) seat: Seat<(), View>,
}

// So many words that are 0.
fn zeros(alloc: Global, count: usize) -> Result<Vec<u64>, NoMemory>
    ensures { IfOk result (λ v. v.items ≡ replicate count 0) }
{
    vec![in alloc; 0u64; count].map_err(|_| NoMemory)
}

impl CodeTable {
    /// A table for a module's versions, in which there is none yet, with its opening.
    pub fn new(
        alloc: Global,
        all: &Checked,
        harts: u32,
        code_words: u32,
    ) -> Result<(CodeTable, Opening), NoMemory>
        requires { (1 ≤ harts) × (harts ≤ 16) × (1 ≤ code_words) × (code_words ≤ 4194304) }
        ensures plan { IfOk result (λ r. IsPlanOf r.0.table.shared.key all.now harts code_words) }
        ensures opening { IfOk result (λ r. (r.1.seat.table_id ≡ r.0.table.shared.table_id) × (r.1.seat.me ≡ (opened r.0.table.shared.key, []))) }
    {
        let Ok(functions) = u32::try_from(all.module().functions.len()) else {
            return Err(NoMemory);
        };
        let count = functions as usize + harts as usize + code_words as usize;
        let mut words = zeros(alloc, 1 + count)?;
        words[0] = 1;
        let plan = Plan {
            module: Snapshot::of(all),
            harts,
            code_words,
        };
        let Ok((table, seat)) = Table::of_words(alloc, words.as_slice(), &plan) else {
            return Err(NoMemory);
        };
        let table = CodeTable {
            table,
            functions,
            harts,
            code_words,
        };
        Ok((table, Opening { seat }))
    }

    /// The number of symbols of the table.
    pub fn symbols(&self) -> u32
        ensures { result ≡ self.now.functions }
    {
        self.functions
    }

    // The word of the table that has this code word.
    pub(crate) fn code_place(&self, place: usize) -> usize
        requires { place < self.now.code_words }
        ensures { result ≡ 1 + self.now.functions + self.now.harts + place }
    {
        self.first_code_place() + place
    }

    // The word of the table that has the first code word.
    pub(crate) fn first_code_place(&self) -> usize
        ensures { result ≡ 1 + self.now.functions + self.now.harts }
    {
        1 + self.functions as usize + self.harts as usize
    }

    // The word of the table that has this hart's word.
    pub(crate) fn hart_place(&self, number: u32) -> usize
        requires { number < self.now.harts }
        ensures { result ≡ 1 + self.now.functions + number }
    {
        1 + self.functions as usize + number as usize
    }
}
