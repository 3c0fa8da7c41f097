//! Who asks for better versions of hot symbols.
ghost use Rattle.std.specs.Prelude.{◌≡◌, ℕ, ◌<◌, ◌≤◌, [], List, length, slice_index, IfOk, IfSome};
ghost use Rattle.crossbeam_queue.specs.Passes.{view, IsPassOf};
ghost use Rattle.reopt_queue.specs.Balance.{hand};
ghost use Rattle.entry_counts.specs.Tally.{Found};
ghost use Rattle.reopt_policy.specs.Marks.{level_for};
ghost use Rattle.jit_session.specs.Asked.{IsOnce};

use entry_counts::CountSeat;
use reopt_policy::ReoptPolicy;
use reopt_queue::{Job, QueueOpening, QueueSeat, ReoptQueue};
use rj_num::NoMemory;
use std::alloc::Global;
use std::sync::Wait;

/// A policy, a seat of the counts, and for each symbol the level that was asked last. Each job is put once.
#[derive(Drop)]
pub struct Asking<'a, P> {
    pub policy: P,
    pub counts: CountSeat<'a>,
    pub(crate) queue: QueueSeat<'a>,
    pub(crate) asked: Vec<u8>,
    symbols: u32,
    ghost symbols_are: { symbols ≡ counts.counts.now.symbols },
    ghost asked_are: { length asked.items ≡ counts.counts.now.symbols },
    ghost once: { IsOnce (view queue.pass).put asked.items },
}

// So many times level 1.
fn ones(alloc: Global, symbols: u32) -> Result<Vec<u8>, NoMemory>
    ensures { IfOk result (λ v. length v.items ≡ symbols) }
{
    vec![in alloc; 1u8; symbols as usize].map_err(|_| NoMemory)
}

impl<'a, P: ReoptPolicy> Asking<'a, P> {
    ghost use Rattle.jit_session.specs.Workers.{IsSameAsking};

    /// One that has asked level 1 of each symbol, and has put no job.
    #[tactic(auto, using(crate::proofs::Asked::none_once))]
    pub fn new(
        alloc: Global,
        policy: P,
        counts: CountSeat<'a>,
        queue: QueueSeat<'a>,
        symbols: u32,
    ) -> Result<Asking<'a, P>, NoMemory>
        requires symbols { counts.counts.now.symbols ≡ symbols }
        requires none { view queue.pass ≡ hand [] [] }
        ensures { IfOk result (λ a. (a.policy ≡ policy) × (a.counts ≡ counts.entry)) }
    {
        let asked = ones(alloc, symbols)?;
        Ok(Asking {
            policy,
            counts,
            queue,
            asked,
            symbols,
        })
    }

    // The job of raising a symbol, if the policy wants a level above the one that was asked last.
    fn wanted(&mut self, symbol: u32) -> Option<Job>
        requires exists { symbol < self.old.counts.counts.now.symbols }
        ensures same { IsSameAsking P.marks self.old self.new }
        ensures queue { (self.new.queue ≡ self.old.queue) × (self.new.asked ≡ self.old.asked) }
        ensures job { IfSome result (λ job. (job.symbol ≡ symbol) × (slice_index self.old.asked.items symbol < job.level) × ((n : ℕ) × Found self.old.counts.seat.me.0 symbol n × (job.level ≡ level_for (P.marks self.old.policy) n))) }
    {
        let entries = self.counts.total(symbol);
        let level = self
            .policy
            .next(symbol, self.asked[symbol as usize], entries)?;
        Some(Job { symbol, level })
    }

    // Puts the job of raising a symbol, if there is one.
    fn ask<R: Wait>(&mut self, rt: &R, symbol: u32)
        requires exists { symbol < self.old.counts.counts.now.symbols }
        ensures same { IsSameAsking P.marks self.old self.new }
    {
        let Some(job) = self.wanted(symbol) else {
            return;
        };
        match self.queue.put(rt, job) {
            Ok(()) => self.asked[symbol as usize] = job.level,
            Err(_) => {}
        }
    }

    /// Asks for each symbol, in order.
    pub fn ask_all<R: Wait>(&mut self, rt: &R)
        ensures same { IsSameAsking P.marks self.old self.new }
    {
        for symbol in 0..self.symbols {
            self.ask(rt, symbol);
        }
    }
}

/// What asks over a queue that nobody uses yet, and a seat of the queue for each of so many workers.
pub fn new_asking<'a, P: ReoptPolicy>(
    alloc: Global,
    queue: &'a ReoptQueue,
    opening: QueueOpening,
    workers: u32,
    policy: P,
    counts: CountSeat<'a>,
    symbols: u32,
) -> Result<(Asking<'a, P>, Vec<QueueSeat<'a>>), NoMemory>
    requires these { IsPassOf queue.now.queue opening.pass }
    requires workers { workers ≤ 8 }
    requires symbols { counts.counts.now.symbols ≡ symbols }
    ensures asking { IfOk result (λ r. (r.0.policy ≡ policy) × (r.0.counts ≡ counts.entry)) }
    ensures seats { IfOk result (λ r. length r.1.items ≡ workers) }
{
    let mut seats = queue.seats(alloc, opening, workers + 1)?;
    match seats.pop() {
        Some(seat) => Ok((Asking::new(alloc, policy, counts, seat, symbols)?, seats)),
        None => unreachable!(),
    }
}
