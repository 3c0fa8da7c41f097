//! What a worker does.
ghost use Rattle.std.specs.Prelude.{◌≡◌, ◌<◌, ◌≤◌, length, IfSome, Some, None};
ghost use Rattle.ir_core.specs.Program.{Program};
ghost use Rattle.rv_play.specs.Versions.{IsVersion};
ghost use Rattle.jit_session.specs.Names.{IsNamed};

use crate::asking::Asking;
use crate::gate::{Gate, Point};
use crate::locked::{Locked, Naming};
use ir_verify::checked::Checked;
use reopt_policy::ReoptPolicy;
use reopt_queue::{Job, QueueSeat};
use rv_play::version::Version;
use session_types::Maker;
use std::alloc::Global;
use std::sync::atomic::{AtomicU64, Ordering};
use std::sync::{Mutex, Wait};
use std::thread;

/// Takes jobs, translates and publishes. The first worker also asks.
#[derive(Drop)]
pub struct Worker<'a, M, P> {
    pub(crate) jobs: QueueSeat<'a>,
    pub(crate) maker: M,
    pub(crate) asking: Option<Asking<'a, P>>,
}

// The version that a job names. None where the job names none, or it isn't made.
fn translate<M: Maker>(alloc: Global, maker: &mut M, checked: &Checked, job: Job) -> Option<Version>
    ensures version { IfSome result (λ version. IsVersion checked.now job.symbol job.level version × (job.symbol < length checked.now.module_.functions) × (job.level ≤ 3)) }
{
    if job.symbol as usize >= checked.module().functions.len() {
        return None;
    }
    if job.level < 1 || job.level > 3 {
        return None;
    }
    maker.make(alloc, checked, job.symbol, job.level).ok()
}

// Publishes a version under the lock, and tells the gate where it did.
fn publish<N: Naming, G: Gate, R: Wait>(
    rt: &R,
    alloc: Global,
    checked: &Checked,
    desk: &Mutex<Locked<'_, N>>,
    gate: &G,
    version: Version,
)
    requires named { IsNamed N.tables checked.now }
    requires version { IsVersion checked.now version.symbol version.level version × (version.symbol < length checked.now.module_.functions) × (version.level ≤ 3) }
{
    let _ = checked;
    let (symbol, level) = (version.symbol, version.level);
    let linked = desk.lock(rt).publish(alloc, version);
    if let Some(base) = linked {
        gate.at(Point::Linked {
            symbol,
            level,
            base,
        });
    }
}

impl<M: Maker, P: ReoptPolicy> Worker<'_, M, P> {
    ghost use Rattle.jit_session.specs.Workers.{IsSameWorker};

    // Asks, where this is the worker that does.
    fn ask<R: Wait>(&mut self, rt: &R)
        ensures same { IsSameWorker P.marks self.old self.new }
    {
        if let Some(asking) = &mut self.asking {
            asking.ask_all(rt);
        }
    }

    // Does a job, if there is one.
    fn work<N: Naming, G: Gate, R: Wait>(
        &mut self,
        rt: &R,
        alloc: Global,
        checked: &Checked,
        desk: &Mutex<Locked<'_, N>>,
        gate: &G,
    ) -> bool
        requires named { IsNamed N.tables checked.now }
        ensures same { IsSameWorker P.marks self.old self.new }
    {
        let Some(job) = self.jobs.take(rt) else {
            return false;
        };
        if let Some(version) = translate(alloc, &mut self.maker, checked, job) {
            publish(rt, alloc, checked, desk, gate, version);
        }
        true
    }

    /// Works until no hart runs any more and there is no job.
    pub fn run<N: Naming, G: Gate, R: Wait>(
        &mut self,
        rt: &R,
        alloc: Global,
        checked: &Checked,
        running: &AtomicU64,
        desk: &Mutex<Locked<'_, N>>,
        gate: &G,
    )
        requires named { IsNamed N.tables checked.now }
        ensures same { IsSameWorker P.marks self.old self.new }
    {
        for _ in rt.forever() {
            let ended = running.load(Ordering::SeqCst) == 0;
            if !ended {
                self.ask(rt);
            }
            if self.work(rt, alloc, checked, desk, gate) {
                continue;
            }
            if ended {
                return;
            }
            thread::yield_now();
        }
        unreachable!()
    }
}
