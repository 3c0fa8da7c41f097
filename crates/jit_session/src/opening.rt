//! What a session takes before its first call.
ghost use Rattle.std.specs.Prelude.{◌≡◌, ◌+◌, ◌≤◌, [], length, All, sum_by, IfOk};
ghost use Rattle.entry_counts.specs.Seats.{IsNewSeat, parts_of as parts_of_counts};
ghost use Rattle.redirect_cells.specs.Kept.{part_of, word_in};
ghost use Rattle.redirect_cells.specs.Opened.{AreNewSeats};
ghost use Rattle.jit_session.specs.OpenedHarts.{IsNew, parts_of};
ghost use Rattle.jit_session.specs.Runs.{Each};

use crate::bench::Bench;
use crate::runner::Runner;
use entry_counts::{CountSeat, Counts};
use hart::Hart;
use ir_verify::checked::Checked;
use redirect_cells::{CodeTable, HartSeat};
use rj_num::NoMemory;
use std::alloc::Global;

// A hart of so many that has made no call yet, with room for the answers to its calls.
fn new_runner<'a, G>(
    alloc: Global,
    checked: &Checked,
    seat: HartSeat<'a>,
    counts: CountSeat<'a>,
    gate: &'a G,
    harts: usize,
    calls: usize,
) -> Result<Runner<'a, G>, NoMemory>
    requires harts { 1 ≤ harts }
    requires calls { calls ≤ 65536 }
    requires idle { word_in seat.seat.me.0.role ≡ 0 }
    requires fresh { (part_of seat.seat.me.0).ended ≡ [] }
    requires counts { IsNewSeat counts.counts.now counts }
    requires symbols { counts.counts.now.symbols ≡ seat.table.now.functions }
    ensures new { IfOk result (IsNew checked.now seat.entry.table.now counts.entry.counts.now harts calls seat.entry.number) }
    ensures parts { IfOk result (λ r. parts_of r ≡ parts_of_counts counts.entry) }
{
    let number = seat.number();
    let symbols = seat.symbols();
    let mut hart = Hart::new(alloc, checked.room())?;
    hart.widths(alloc, checked)?;
    let answers = Vec::with_capacity(alloc, calls / harts + 1).map_err(|_| NoMemory)?;
    let entries = Vec::with_capacity(alloc, symbols as usize).map_err(|_| NoMemory)?;
    Ok(Runner {
        number,
        hart,
        bench: Bench::new(number, seat, counts, gate),
        answers,
        entries,
    })
}

/// A hart for each seat of a table, in order, and the last seat of the counts. Each hart takes a seat of the counts.
pub fn new_runners<'a, G>(
    alloc: Global,
    checked: &Checked,
    table: &CodeTable,
    tally: &Counts,
    seats: Vec<HartSeat<'a>>,
    spare: Vec<CountSeat<'a>>,
    gate: &'a G,
    calls: usize,
) -> Result<(Vec<Runner<'a, G>>, CountSeat<'a>), NoMemory>
    requires calls { calls ≤ 65536 }
    requires seats { AreNewSeats table.now (length seats.items) seats.items }
    requires spare { All (IsNewSeat tally.now) spare.items }
    requires enough { length spare.items ≡ length seats.items + 1 }
    requires symbols { tally.now.symbols ≡ table.now.functions }
    ensures count { IfOk result (λ r. length r.0.items ≡ length seats.entry.items) }
    ensures new { IfOk result (λ r. Each (IsNew checked.now table.now tally.now (length seats.entry.items) calls) r.0.items) }
    ensures all { IfOk result (λ r. IsNewSeat tally.now r.1) }
    ensures parts { IfOk result (λ r. sum_by parts_of r.0.items + parts_of_counts r.1 ≡ sum_by parts_of_counts spare.entry.items) }
{
    let _ = table;
    let _ = tally;
    let mut left = spare;
    let harts = seats.len();
    let mut runners = Vec::with_capacity(alloc, harts).map_err(|_| NoMemory)?;
    for seat in seats {
        let Some(counts) = left.pop() else {
            unreachable!()
        };
        let runner = new_runner(alloc, checked, seat, counts, gate, harts, calls)?;
        runners.push_reserved(runner);
    }
    match left.pop() {
        Some(all) => Ok((runners, all)),
        None => unreachable!(),
    }
}
