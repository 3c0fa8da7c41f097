//! Harts and workers, each on a thread of its own.
ghost use Rattle.std.specs.Prelude.{◌≡◌, ℕ, ◌+◌, ◌<◌, ◌≤◌, ◌∷◌, [], List, length, slice_index_or, All, IfOk, Some, None, vec_capacity};
ghost use Rattle.ir_core.specs.Program.{Program};
ghost use Rattle.jit_session.specs.Runners.{IsWork};
ghost use Rattle.jit_session.specs.Few.{HasFew};
ghost use Rattle.jit_session.specs.Names.{IsNamed};
ghost use Rattle.jit_session.specs.Parts.{CanGo, Went, harts_of, asking_in, or_else};

use crate::asking::Asking;
use crate::gate::Gate;
use crate::locked::{Locked, Naming};
use crate::runner::Runner;
use crate::worker::Worker;
use hart::Image;
use ir_meaning::calls::ListedCall;
use ir_verify::checked::Checked;
use redirect_cells::Keeper;
use reopt_policy::ReoptPolicy;
use reopt_queue::QueueSeat;
use rj_num::NoMemory;
use session_types::Maker;
use std::alloc::Global;
use std::sync::atomic::{AtomicU64, Ordering};
use std::sync::{Mutex, Wait};
use std::thread;
use std::thread::Threads;

/// The most harts and workers of a session.
const MOST_THREADS: usize = 24;

/// What goes on a thread of its own.
#[derive(Drop)]
pub enum Part<'a, G, M, P> {
    Runs(Runner<'a, G>),
    Works(Worker<'a, M, P>),
}

// An empty list with room for so many.
fn with_room<T>(alloc: Global, count: usize) -> Result<Vec<T>, NoMemory>
    ensures { IfOk result (λ v. (v.items ≡ []) × (count ≤ vec_capacity v)) }
{
    Vec::with_capacity(alloc, count).map_err(|_| NoMemory)
}

// The parts that run calls, with room for so many workers.
fn hart_parts<'a, G, M, P>(
    alloc: Global,
    runners: Vec<Runner<'a, G>>,
    workers: usize,
) -> Result<Vec<Part<'a, G, M, P>>, NoMemory>
    requires few { length runners.items + workers < 18446744073709551616 }
    ensures harts { IfOk result (λ v. harts_of v.items ≡ runners.entry.items) }
    ensures none { IfOk result (λ v. asking_in v.items ≡ None) }
    ensures room { IfOk result (λ v. length v.items + workers ≤ vec_capacity v) }
{
    let mut parts = with_room(alloc, runners.len() + workers)?;
    for runner in runners {
        parts.push_reserved(Part::Runs(runner));
    }
    Ok(parts)
}

// Adds a worker for each maker, of which the first asks. Gives what asks, if there is no worker.
fn add_workers<'a, G, M: Drop, P: Drop>(
    parts: &mut Vec<Part<'a, G, M, P>>,
    seats: Vec<QueueSeat<'a>>,
    makers: Vec<M>,
    asking: Asking<'a, P>,
) -> Option<Asking<'a, P>>
    requires none { asking_in parts.old.items ≡ None }
    requires room { length parts.old.items + length makers.items ≤ vec_capacity parts.old }
    requires seats { length makers.items ≤ length seats.items }
    ensures harts { harts_of parts.new.items ≡ harts_of parts.old.items }
    ensures asking { or_else (asking_in parts.new.items) result ≡ Some asking.entry }
{
    let mut left = seats;
    let mut idle = Some(asking);
    for maker in makers {
        let Some(jobs) = left.pop() else {
            unreachable!()
        };
        parts.push_reserved(Part::Works(Worker {
            jobs,
            maker,
            asking: idle,
        }));
        idle = None;
    }
    idle
}

/// The harts, and a worker for each maker, with one of at least as many seats of the queue, of which the first asks; and what asks, if
/// there is no worker.
pub fn new_parts<'a, G, M: Drop, P: Drop>(
    alloc: Global,
    runners: Vec<Runner<'a, G>>,
    seats: Vec<QueueSeat<'a>>,
    makers: Vec<M>,
    asking: Asking<'a, P>,
) -> Result<(Vec<Part<'a, G, M, P>>, Option<Asking<'a, P>>), NoMemory>
    requires few { length runners.items + length makers.items < 18446744073709551616 }
    requires seats { length makers.items ≤ length seats.items }
    ensures harts { IfOk result (λ r. harts_of r.0.items ≡ runners.entry.items) }
    ensures asking { IfOk result (λ r. or_else (asking_in r.0.items) r.1 ≡ Some asking.entry) }
{
    let mut parts = hart_parts(alloc, runners, makers.len())?;
    let idle = add_workers(&mut parts, seats, makers, asking);
    Ok((parts, idle))
}

// The first of two, if it is there.
fn either<T: Drop>(first: Option<T>, second: Option<T>) -> Option<T>
    ensures { result ≡ or_else first second }
{
    match first {
        Some(x) => Some(x),
        None => second,
    }
}

/// Takes the parts apart: the harts, in order, and what asks.
pub fn part_again<'a, G, M: Drop, P: Drop>(
    parts: Vec<Part<'a, G, M, P>>,
    idle: Option<Asking<'a, P>>,
    runners: &mut Vec<Runner<'a, G>>,
) -> Option<Asking<'a, P>>
    requires none { runners.old.items ≡ [] }
    requires room { length (harts_of parts.items) ≤ vec_capacity runners.old }
    ensures harts { runners.new.items ≡ harts_of parts.entry.items }
    ensures asking { result ≡ or_else (asking_in parts.entry.items) idle.entry }
{
    let mut found = None;
    for part in parts {
        match part {
            Part::Runs(runner) => runners.push_reserved(runner),
            Part::Works(worker) => {
                found = either(found, worker.asking);
            }
        }
    }
    either(found, idle)
}

impl<G: Gate, M: Maker, P: ReoptPolicy> Part<'_, G, M, P> {
    // A hart runs its calls, and a worker works until all harts have.
    fn go<N: Naming, R: Wait>(
        &mut self,
        rt: &R,
        alloc: Global,
        image: &Image,
        checked: &Checked,
        calls: &[ListedCall],
        harts: u32,
        running: &AtomicU64,
        desk: &Mutex<Locked<'_, N>>,
        gate: &G,
    )
        requires work { IsWork checked.now image.now calls.now harts }
        requires named { IsNamed N.tables checked.now }
        requires can { CanGo checked.now calls.now harts self.old }
        ensures { Went P.marks checked.now calls.now harts self.old self.new }
    {
        match self {
            Part::Runs(runner) => {
                runner.run(image, calls, harts);
                running.fetch_sub(1, Ordering::SeqCst);
            }
            Part::Works(worker) => worker.run(rt, alloc, checked, running, desk, gate),
        }
    }
}

/// Runs each part on a thread of its own, with the keeper under a lock.
pub fn run_parts<
    'a,
    N: Naming + Send + Sync,
    R: Threads + Wait + Sync,
    G: Gate + Sync,
    M: Maker + Send,
    P: ReoptPolicy + Send,
>(
    rt: &R,
    alloc: Global,
    parts: &mut [Part<'_, G, M, P>],
    keeper: Keeper<'a>,
    image: &Image,
    checked: &Checked,
    calls: &[ListedCall],
    harts: u32,
    gate: &G,
) -> Keeper<'a>
    requires named { N.tables ≡ keeper.desk.seat.table.now ∷ [] }
    requires table { keeper.desk.seat.table.now.table.shared.key.module.value ≡ checked.now }
    requires few { HasFew keeper.desk.shelf }
    requires work { IsWork checked.now image.now calls.now harts }
    requires ready { All (CanGo checked.now calls.now harts) parts.old }
    ensures count { length parts.new ≡ length parts.old }
    ensures went { (i : ℕ) (d : _) → i < length parts.old → Went P.marks checked.now calls.now harts (slice_index_or parts.old i d) (slice_index_or parts.new i d) }
    ensures table { result.desk.seat.table.now ≡ keeper.entry.desk.seat.table.now }
    ensures few { HasFew result.desk.shelf }
{
    let running = AtomicU64::new(u64::from(harts));
    let desk: Mutex<Locked<N>> = Mutex::new(Locked::new(keeper));
    thread::for_each_mut(
        rt,
        parts,
        MOST_THREADS,
        &|_, part: &mut Part<'_, G, M, P>|
            requires { IsWork checked.now image.now calls.now harts × IsNamed N.tables checked.now × CanGo checked.now calls.now harts part.old }
            ensures { Went P.marks checked.entry.now calls.entry.now harts part.old part.new }
        {
            part.go(
                rt, alloc, image, checked, calls, harts, &running, &desk, gate,
            );
        },
    );
    desk.into_inner().into_keeper()
}
