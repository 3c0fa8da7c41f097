// Spans that grow, and the registers that were found live where blocks begin.
ghost use Rattle.std.specs.Prelude.{◌≡◌, ℕ, ◌+◌, ◌<◌, ◌⊎◌, true, false, [], ◌∷◌, ◌++◌, None, length, not, replicate, slice_index_or, slice_set, IfOk, OnOk, MatchOption};
ghost use Rattle.rj_num.specs.Sets.{has};
ghost use Rattle.liveness.specs.Search.{hull_of, HasPoint, IsFound, Extends, Adds, looks_left, StartsEmpty};

use mir::places::Intervals;
use rj_num::NoMemory;
use rj_num::sets::ValueSet;
use sqlite_items::Items;
use std::alloc::Global;

/// What the search knows so far.
#[derive(Drop)]
pub struct Search {
    /// The first and the last point of each register.
    pub spans: Vec<Option<(u32, u32)>>,
    /// For each block the registers that are live where it begins.
    pub live: Vec<ValueSet>,
    /// Registers that are live where a block begins, with the block: what comes before is to be looked at.
    pub work: Vec<(u32, u32)>,
}

/// The least span with a point more.
fn hull(span: Option<(u32, u32)>, point: u32) -> (u32, u32)
    ensures { result ≡ hull_of span point }
{
    match span {
        Some((first, last)) => (first.min(point), last.max(point)),
        None => (point, point),
    }
}

/// The register's span takes the point in.
fn take_in(spans: &mut Vec<Option<(u32, u32)>>, register: u32, point: u32)
    requires { register < length spans.old.items }
    ensures { spans.new.items ≡ slice_set spans.old.items register (Some (hull_of (slice_index_or spans.old.items register None) point)) }
{
    let place = register as usize;
    let span = hull(spans[place], point);
    spans[place] = Some(span);
}

/// Adds the register to the block's set, and says whether it is new there.
fn mark(live: &mut Vec<ValueSet>, block: u32, register: u32) -> bool
    requires block { block < length live.old.items }
    requires register { register < length (slice_index_or live.old.items block []) }
    ensures after { live.new.items ≡ slice_set live.old.items block (slice_set (slice_index_or live.old.items block []) register true) }
    ensures changed { result ≡ not (has (slice_index_or live.old.items block []) register) }
{
    live[block as usize].insert(register)
}

/// A register without a span for each.
fn no_spans(alloc: Global, count: u32) -> Result<Vec<Option<(u32, u32)>>, NoMemory>
    ensures { IfOk result (λ spans. spans.items ≡ replicate count None) }
{
    let mut spans = Vec::new(alloc);
    for _ in 0..count {
        if spans.push(None).is_err() {
            return Err(NoMemory);
        }
    }
    Ok(spans)
}

/// An empty set of registers for each block.
fn empty_sets(alloc: Global, count: usize, regs: u32) -> Result<Vec<ValueSet>, NoMemory>
    ensures { IfOk result (λ sets. sets.items ≡ replicate count (replicate regs false)) }
{
    let mut sets = Vec::new(alloc);
    for _ in 0..count {
        let set = ValueSet::new(alloc, regs)?;
        if sets.push(set).is_err() {
            return Err(NoMemory);
        }
    }
    Ok(sets)
}

impl Search {
    /// Nothing is known yet.
    pub fn new(alloc: Global, blocks: usize, regs: u32) -> Result<Search, NoMemory>
        ensures { IfOk result (λ search. StartsEmpty search blocks regs) }
    {
        let spans = no_spans(alloc, regs)?;
        let live = empty_sets(alloc, blocks, regs)?;
        Ok(Search {
            spans,
            live,
            work: Vec::new(alloc),
        })
    }

    /// The spans that were found.
    pub fn into_intervals(self) -> Intervals
        ensures { result.spans ≡ self.spans.items }
    {
        let Search { spans, .. } = self;
        Intervals {
            spans: Items::from_vec(spans),
        }
    }

    /// The register's span takes the point in.
    pub fn hold(&mut self, register: u32, point: u32)
        requires { register < length self.old.spans.items }
        ensures extends { Extends self.old self.new }
        ensures holds { HasPoint self.new register point }
        ensures adds { Adds (λ r at. (r ≡ register) × (at ≡ point)) (λ b r. ⊥) self.old self.new }
    {
        take_in(&mut self.spans, register, point);
    }

    /// The register is live where the block begins.
    #[tactic(auto, using(crate::proofs::Extending::reached_old, crate::proofs::Extending::reached_found, crate::proofs::Extending::reached_adds))]
    pub fn reach(&mut self, register: u32, block: u32) -> Result<(), NoMemory>
        requires block { block < length self.old.live.items }
        requires register { register < length (slice_index_or self.old.live.items block []) }
        ensures extends { OnOk result (Extends self.old self.new) }
        ensures found { OnOk result (IsFound self.new block register) }
        ensures adds { OnOk result (Adds (λ r at. ⊥) (λ b r. (b ≡ block) × (r ≡ register)) self.old self.new) }
    {
        let is_new = mark(&mut self.live, block, register);
        if !is_new {
            return Ok(());
        }
        match self.work.push((register, block)) {
            Ok(()) => Ok(()),
            Err(_) => Err(NoMemory),
        }
    }

    /// The register is live where the block begins, unless the block has written it.
    pub fn reach_unless(
        &mut self,
        written: &ValueSet,
        register: u32,
        block: u32,
    ) -> Result<(), NoMemory>
        requires written { register < length written.now }
        requires block { block < length self.old.live.items }
        requires register { register < length (slice_index_or self.old.live.items block []) }
        ensures extends { OnOk result (Extends self.old self.new) }
        ensures found { OnOk result ((has written.now register ≡ true) ⊎ IsFound self.new block register) }
        ensures adds { OnOk result (Adds (λ r at. ⊥) (λ b r. (b ≡ block) × (r ≡ register) × (has written.now register ≡ false)) self.old self.new) }
    {
        if written.contains(register) {
            return Ok(());
        }
        self.reach(register, block)
    }

    /// The last of the list of work, which it leaves.
    pub fn take_work(&mut self) -> Option<(u32, u32)>
        ensures spans { self.new.spans.items ≡ self.old.spans.items }
        ensures live { self.new.live.items ≡ self.old.live.items }
        ensures work { MatchOption result ((self.old.work.items ≡ []) × (self.new.work.items ≡ [])) (λ pair. self.old.work.items ≡ self.new.work.items ++ pair ∷ []) }
        ensures once { MatchOption result (looks_left self.new ≡ looks_left self.old) (λ pair. looks_left self.new + 1 ≡ looks_left self.old) }
    {
        self.work.pop()
    }
}
