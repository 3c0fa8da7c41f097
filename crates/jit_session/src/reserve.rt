//! The memory of what a session comes to.
ghost use Rattle.std.specs.Prelude.{◌≡◌, ◌≤◌, [], IfOk, vec_capacity};
ghost use Rattle.jit_session.specs.Reserves.{IsReserve};

use ir_meaning::calls::Ended;
use redirect_cells::HartSeat;
use rj_num::NoMemory;
use session_types::{RefusedJob, SymbolRow};
use sqlite_items::Items;
use std::alloc::Global;

/// Room for what a session comes to, and for the seats of its harts.
#[derive(Drop)]
pub struct Reserve<'a> {
    pub(crate) seats: Vec<HartSeat<'a>>,
    pub(crate) answers: Vec<Ended>,
    pub(crate) by_hart: Vec<Items<u64>>,
    pub(crate) rows: Vec<SymbolRow>,
    pub(crate) refused: Vec<RefusedJob>,
}

/// An empty list with room for so many.
pub fn with_room<T>(alloc: Global, count: usize) -> Result<Vec<T>, NoMemory>
    ensures { IfOk result (λ v. (v.items ≡ []) × (count ≤ vec_capacity v)) }
{
    Vec::with_capacity(alloc, count).map_err(|_| NoMemory)
}

/// Room for so many harts, calls and symbols.
pub fn make_reserve<'a>(
    alloc: Global,
    harts: usize,
    calls: usize,
    symbols: usize,
) -> Result<Reserve<'a>, NoMemory>
    ensures { IfOk result (IsReserve harts calls symbols) }
{
    Ok(Reserve {
        seats: with_room(alloc, harts)?,
        answers: with_room(alloc, calls)?,
        by_hart: with_room(alloc, harts)?,
        rows: with_room(alloc, symbols)?,
        refused: with_room(alloc, symbols)?,
    })
}
