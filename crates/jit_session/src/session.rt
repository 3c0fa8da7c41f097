//! A session from its versions to its answers.
ghost use Rattle.std.specs.Prelude.{◌≡◌, ◌+◌, ◌≤◌, [], ◌∷◌, ◌++◌, length, sum_by, Some, IfOk, IfErr, OnOk, All};
ghost use Rattle.crossbeam_queue.specs.Passes.{IsPassOf};
ghost use Rattle.entry_counts.specs.Seats.{IsNewSeat};
ghost use Rattle.redirect_cells.specs.Opened.{AreNewSeats, words_of};
ghost use Rattle.jit_session.specs.OpenedHarts.{IsDone, parts_of};
ghost use Rattle.jit_session.specs.Runners.{IsWork};
ghost use Rattle.jit_session.specs.Runs.{Each};
ghost use Rattle.jit_session.specs.Few.{HasFew};
ghost use Rattle.jit_session.specs.Reserves.{IsReserve};
ghost use Rattle.jit_session.specs.Opened.{AreOpened};
ghost use Rattle.jit_session.specs.Sessions.{AreFirst, IsRefusal, IsSettled};

use crate::asking::{Asking, new_asking};
use crate::gate::Gate;
use crate::opening::new_runners;
use crate::outcome::{gather_answers, part};
use crate::parts::{Part, new_parts, part_again, run_parts};
use crate::reserve::{Reserve, make_reserve, with_room};
use crate::rows::fill_rows;
use crate::runner::Runner;
use crate::settling::settle_all;
use code_epochs::OpenRefusal;
use entry_counts::{CountOpening, CountSeat, Counts};
use hart::Image;
use ir_meaning::calls::ListedCall;
use ir_verify::checked::Checked;
use redirect_cells::{CodeTable, HartSeat, Keeper};
use reopt_policy::ReoptPolicy;
use reopt_queue::{QueueOpening, ReoptQueue};
use rj_num::NoMemory;
use rv_play::version::Version;
use session_types::{Maker, Settled};
use sqlite_items::Items;
use std::alloc::Global;
use std::marker::Brand;
use std::sync::Wait;
use std::thread::Threads;

/// The numbers of harts, from 1 to 16, of workers, up to 8, and of code words, from 1 to 4,194,304.
#[derive(Clone, Copy, PartialEq, Eq)]
pub struct Setup {
    pub harts: u32,
    pub workers: u32,
    pub code_words: u32,
}

/// What harts and workers share, beside the code table.
#[derive(Drop)]
struct Shared {
    counts: Counts,
    queue: ReoptQueue,
}

// The counts and the queue for so many symbols.
fn open_shared(
    alloc: Global,
    symbols: u32,
) -> Result<(Shared, CountOpening, QueueOpening), NoMemory>
    ensures { IfOk result (λ r. (r.0.counts.symbols ≡ symbols) × (r.1.seat.table_id ≡ r.0.counts.table.shared.table_id) × IsPassOf r.0.queue.queue r.2.pass) }
{
    let (counts, opening) = Counts::new(alloc, symbols)?;
    let (queue, first) = ReoptQueue::new(alloc, symbols)?;
    Ok((Shared { counts, queue }, opening, first))
}

// What a session comes to whose harts have answered their calls. The other seats of the counts are those of the harts.
fn settle<'a, G, M: Maker, P: ReoptPolicy>(
    alloc: Global,
    checked: &Checked,
    table: &CodeTable,
    harts: Vec<Runner<'a, G>>,
    mut all: CountSeat<'a>,
    mut keeper: Keeper<'a>,
    mut policy: P,
    mut maker: M,
    reserve: Reserve<'a>,
    calls: &[ListedCall],
) -> Settled
    requires done { Each (IsDone checked.now table.now all.counts.now calls.now table.now.harts) harts.items }
    requires count { length harts.items ≡ table.now.harts }
    requires all { (all.seat.me.0.own ≡ []) × (all.seat.me.0.joined ≡ []) }
    requires symbols { all.counts.now.symbols ≡ table.now.functions }
    requires parts { all.seat.me.0.parts + sum_by parts_of harts.items ≡ 64 }
    requires keeper { keeper.desk.seat.table.now ≡ table.now }
    requires program { table.now.table.shared.key.module.value ≡ checked.now }
    requires few { HasFew keeper.desk.shelf }
    requires reserve { IsReserve table.now.harts (length calls.now) table.now.functions reserve }
    ensures { IsSettled checked.now calls.now table.now.harts table.now.functions table.now.code_words (P.marks policy) (M.may_crowd maker checked.now) result }
{
    let symbols = table.symbols();
    let Reserve {
        mut seats,
        mut answers,
        mut by_hart,
        mut rows,
        mut refused,
    } = reserve;
    gather_answers(harts.as_slice(), calls, &mut answers);
    part(harts, &mut all, symbols, &mut seats, &mut by_hart);
    keeper.gather(seats);
    settle_all(
        alloc,
        checked,
        symbols,
        &mut all,
        &mut keeper,
        &mut policy,
        &mut maker,
        &mut refused,
    );
    fill_rows(&keeper, &mut all, symbols, &mut rows);
    Settled {
        answers: Items::from_vec(answers),
        by_hart: Items::from_vec(by_hart),
        rows: Items::from_vec(rows),
        refused: Items::from_vec(refused),
        used: keeper.close(),
    }
}

// The harts and the workers of a session over the seats of a table, and what asks, if there is no worker.
fn open_parts<'x, M: Drop, P: ReoptPolicy, G>(
    alloc: Global,
    checked: &Checked,
    table: &CodeTable,
    shared: &'x Shared,
    opening: CountOpening,
    first: QueueOpening,
    seats: Vec<HartSeat<'x>>,
    policy: P,
    makers: Vec<M>,
    gate: &'x G,
    calls: usize,
) -> Result<(Vec<Part<'x, G, M, P>>, Option<Asking<'x, P>>), NoMemory>
    requires calls { calls ≤ 65536 }
    requires seats { AreNewSeats table.now table.now.harts seats.items }
    requires counts { (shared.now.counts.symbols ≡ table.now.functions) × (opening.seat.table_id ≡ shared.now.counts.table.shared.table_id) }
    requires queue { IsPassOf shared.now.queue.queue first.pass }
    requires workers { length makers.items ≤ 8 }
    ensures { IfOk result (λ r. AreOpened checked.now table.now shared.now.counts calls policy r.0.items r.1) }
{
    let symbols = table.symbols();
    let harts = seats.len() as u32;
    let tally = &shared.counts;
    let spare = tally.seats(alloc, opening, harts + 1)?;
    let (runners, all) = new_runners(alloc, checked, table, tally, seats, spare, gate, calls)?;
    let workers = makers.len() as u32;
    let (asking, jobs) = new_asking(alloc, &shared.queue, first, workers, policy, all, symbols)?;
    new_parts(alloc, runners, jobs, makers, asking)
}

// Runs the calls over the seats of a table, and over counts and a queue that nobody uses yet.
fn run_within<'x, R: Threads + Wait + Sync, M: Maker + Send, P: ReoptPolicy + Send, G: Gate + Sync>(
    rt: &R,
    alloc: Global,
    checked: &Checked,
    image: &Image,
    calls: &[ListedCall],
    table: &'x CodeTable,
    shared: &'x Shared,
    opening: CountOpening,
    first: QueueOpening,
    seats: Vec<HartSeat<'x>>,
    keeper: Keeper<'x>,
    policy: P,
    makers: Vec<M>,
    maker: M,
    gate: &'x G,
) -> Result<Settled, NoMemory>
    requires work { IsWork checked.now image.now calls.now table.now.harts }
    requires table { table.now.table.shared.key.module.value ≡ checked.now }
    requires counts { (shared.now.counts.symbols ≡ table.now.functions) × (opening.seat.table_id ≡ shared.now.counts.table.shared.table_id) }
    requires queue { IsPassOf shared.now.queue.queue first.pass }
    requires seats { AreNewSeats table.now table.now.harts seats.items }
    requires keeper { keeper.desk.seat.table.now ≡ table.now }
    requires few { HasFew keeper.desk.shelf }
    requires workers { length makers.items ≤ 8 }
    ensures { IfOk result (IsSettled checked.now calls.now table.now.harts table.now.functions table.now.code_words (P.marks policy) (M.may_crowd maker checked.now)) }
{
    let symbols = table.symbols();
    let harts = seats.len() as u32;
    let (mut parts, idle) = open_parts(
        alloc,
        checked,
        table,
        shared,
        opening,
        first,
        seats,
        policy,
        makers,
        gate,
        calls.len(),
    )?;
    let reserve = make_reserve(alloc, harts as usize, calls.len(), symbols as usize)?;
    let mut runners = with_room(alloc, harts as usize)?;
    let keeper = run_parts::<Brand, _, _, _, _>(
        rt,
        alloc,
        parts.as_mut_slice(),
        keeper,
        image,
        checked,
        calls,
        harts,
        gate,
    );
    let Some(asking) = part_again(parts, idle, &mut runners) else {
        unreachable!()
    };
    Ok(settle(
        alloc,
        checked,
        table,
        runners,
        asking.counts,
        keeper,
        asking.policy,
        maker,
        reserve,
        calls,
    ))
}

// Runs the calls over the seats of a table. All memory of harts is taken before the first call.
fn run_over<R: Threads + Wait + Sync, M: Maker + Send, P: ReoptPolicy + Send, G: Gate + Sync>(
    rt: &R,
    alloc: Global,
    checked: &Checked,
    image: &Image,
    calls: &[ListedCall],
    table: &CodeTable,
    seats: Vec<HartSeat<'_>>,
    keeper: Keeper<'_>,
    policy: P,
    makers: Vec<M>,
    maker: M,
    gate: &G,
) -> Result<Settled, NoMemory>
    requires work { IsWork checked.now image.now calls.now table.now.harts }
    requires table { table.now.table.shared.key.module.value ≡ checked.now }
    requires seats { AreNewSeats table.now table.now.harts seats.items }
    requires keeper { keeper.desk.seat.table.now ≡ table.now }
    requires few { HasFew keeper.desk.shelf }
    requires workers { length makers.items ≤ 8 }
    ensures { IfOk result (IsSettled checked.now calls.now table.now.harts table.now.functions table.now.code_words (P.marks policy) (M.may_crowd maker checked.now)) }
{
    let (shared, opening, first) = open_shared(alloc, table.symbols())?;
    run_within(
        rt, alloc, checked, image, calls, table, &shared, opening, first, seats, keeper, policy,
        makers, maker, gate,
    )
}

/// Runs a list of calls of a module, from its image, on so many harts, each on a thread of its own, over these first versions, while so
/// many workers make better versions of the functions that the policy names. Of n harts, hart h makes the calls whose places in the list
/// leave h as remainder by n, in order. There is a maker for each worker, and the last is for settling: once all calls have ended, each
/// function gets the level that the policy gives for its entries, or its job is refused. All memory of harts is taken before the first call.
pub fn run<R: Threads + Wait + Sync, M: Maker + Send, P: ReoptPolicy + Send, G: Gate + Sync>(
    rt: &R,
    alloc: Global,
    checked: &Checked,
    image: &Image,
    calls: &[ListedCall],
    setup: Setup,
    versions: Vec<Version>,
    policy: P,
    mut makers: Vec<M>,
    gate: &G,
) -> Result<Settled, OpenRefusal>
    requires work { IsWork checked.now image.now calls.now setup.harts }
    requires workers { setup.workers ≤ 8 }
    requires makers { length makers.items ≡ setup.workers + 1 }
    requires code { (1 ≤ setup.code_words) × (setup.code_words ≤ 4194304) }
    requires versions { AreFirst checked.now versions.items }
    ensures settled { IfOk result (λ s. (front : _) (last : _) → makers.items ≡ front ++ last ∷ [] → IsSettled checked.now calls.now setup.harts (length checked.now.module_.functions) setup.code_words (P.marks policy) (M.may_crowd last checked.now) s) }
    ensures fits { OnOk result (words_of versions.items ≤ setup.code_words) }
    ensures cause { IfErr result (IsRefusal setup.code_words versions.items) }
{
    let Some(maker) = makers.pop() else {
        unreachable!()
    };
    let Ok((table, opening)) = CodeTable::new(alloc, checked, setup.harts, setup.code_words) else {
        return Err(OpenRefusal::NoMemory);
    };
    let (seats, keeper) = table.seats(alloc, opening, versions)?;
    match run_over(
        rt, alloc, checked, image, calls, &table, seats, keeper, policy, makers, maker, gate,
    ) {
        Ok(settled) => Ok(settled),
        Err(NoMemory) => Err(OpenRefusal::NoMemory),
    }
}
