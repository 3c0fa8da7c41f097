// The spans of a function's registers.
ghost use Rattle.std.specs.Prelude.{◌≡◌, ℕ, ◌<◌, [], length, slice_index_or, IfOk};
ghost use Rattle.mir.specs.WellFormed.{IsWellFormed, HasNoPhi};
ghost use Rattle.mir.specs.Live.{Covers, IsTight};
ghost use Rattle.liveness.specs.Scan.{HasTargets, HasRegisters, IsFinished};

use crate::graph::{LIMIT, numbers, sources};
use crate::scan::scan;
use crate::search::Search;
use crate::spread::spread;
use mir::code::{MFunction, MInst};
use mir::places::Intervals;
use rj_num::NoMemory;
use sqlite_items::Items;
use std::alloc::Global;

/// The search once all blocks were read and nothing is left to look at.
fn finished(alloc: Global, blocks: &[Items<MInst>], regs: u32) -> Result<Search, NoMemory>
    requires count { length blocks.now < 2147483648 }
    requires targets { HasTargets blocks.now }
    requires registers { (b : ℕ) → HasRegisters regs (slice_index_or blocks.now b []) }
    ensures finished { IfOk result (λ search. IsFinished blocks.now search) }
    ensures size { IfOk result (λ search. length search.spans.items ≡ regs) }
{
    let table = numbers(alloc, blocks)?;
    let leads = sources(alloc, blocks)?;
    let mut search = Search::new(alloc, blocks.len(), regs)?;
    let written = scan(alloc, &mut search, blocks, table.as_slice(), regs)?;
    spread(
        &mut search,
        written.as_slice(),
        blocks,
        leads.as_slice(),
        table.as_slice(),
    )?;
    Ok(search)
}

/// For each register the span from the first to the last point at which it is live or written, where there is one. Where the points of a
/// function's instructions don't fit `u32`, from 2,147,483,648 instructions on, the answer is as for want of memory.
pub fn intervals(alloc: Global, function: &MFunction) -> Result<Intervals, NoMemory>
    requires well_formed { IsWellFormed function.now }
    requires no_phi { HasNoPhi function.now }
    ensures covers { IfOk result (λ intervals. Covers function.now intervals) }
    ensures tight { IfOk result (λ intervals. IsTight function.now intervals) }
    ensures size { IfOk result (λ intervals. length intervals.spans ≡ function.now.regs) }
{
    let blocks = function.blocks.as_slice();
    if blocks.len() >= LIMIT {
        return Err(NoMemory);
    }
    let search = finished(alloc, blocks, function.regs)?;
    Ok(search.into_intervals())
}
