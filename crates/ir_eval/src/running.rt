// A run, turn by turn.
ghost use Rattle.std.specs.Prelude.{◌≡◌, ℕ, IfOk, [], List};
ghost use Rattle.ir_eval.specs.Code.{ArePlaces, program_with};
ghost use Rattle.ir_eval.specs.Fits.{HasPlan, IsUsable};
ghost use Rattle.ir_eval.specs.Runs.{EndsWith, IsReady, Leads};
ghost use Rattle.ir_meaning.specs.Step.{answered};
ghost use Rattle.ir_meaning.specs.Typed.{IsTyped};

use crate::behind::pass;
use crate::done::Done;
use crate::ends::{End, Entered};
use crate::entering::enter;
use crate::turns::{inst_at, numbers_at, turn};
use ir_core::program::Module;
use ir_meaning::activation::Activation;
use ir_ops::memory::DataMemory;
use sqlite_items::Items;
use std::alloc::{AllocError, Global};
use std::mem::replace;

/// The activation behind its call, which was answered by this value.
fn answer(
    all: &Module,
    room: u64,
    plan: &Items<Items<Items<u32>>>,
    now: &mut Activation,
    value: Option<u128>,
)
    requires usable { IsUsable (program_with all.now room) }
    requires plan { HasPlan (program_with all.now room) plan.now }
    ensures { now.new ≡ answered (program_with all.now room) now.old value }
{
    match all.functions.get(now.symbol as usize) {
        None => {}
        Some(function) => match inst_at(function, now.block, now.place) {
            None => {}
            Some(inst) => pass(function, numbers_at(plan, now.symbol), now, inst, value),
        },
    }
}

/// The next turn of a run: None where it goes on, else how it ends.
fn advance(
    alloc: Global,
    all: &Module,
    room: u64,
    places: &[u64],
    plan: &Items<Items<Items<u32>>>,
    now: &mut Activation,
    callers: &mut Items<Activation>,
    memory: &mut DataMemory,
    counts: &mut Items<u64>,
    left: &mut u64,
) -> Result<Option<End>, AllocError>
    requires places { ArePlaces all.now.globals places.now }
    requires usable { IsUsable (program_with all.now room) }
    requires plan { HasPlan (program_with all.now room) plan.now }
    requires typed { IsTyped (program_with all.now room) }
    requires ready { IsReady (program_with all.now room) (record { now = now.old; callers = callers.old; memory = memory.old; counts = counts.old; left = left.old }) }
    ensures { IfOk result (λ end. Leads (program_with all.now room) (record { now = now.old; callers = callers.old; memory = memory.old; counts = counts.old; left = left.old }) end (record { now = now.new; callers = callers.new; memory = memory.new; counts = counts.new; left = left.new })) }
{
    match turn(alloc, all, room, places, plan, now, memory, left)? {
        None => Ok(Some(End::NotEnded)),
        Some(Done::Goes) => Ok(None),
        Some(Done::Overflows) => Ok(Some(End::Stack)),
        Some(Done::Breaks) => Ok(Some(End::Undefined)),
        Some(Done::Calls(callee, given)) => {
            match enter(all, room, callee, given, memory, now.sp, counts, left)? {
                Entered::Ends(end) => Ok(Some(end)),
                Entered::Opens(first) => {
                    let caller = replace(now, first);
                    callers.push(caller)?;
                    Ok(None)
                }
            }
        }
        Some(Done::Returns(value)) => match callers.pop() {
            None => Ok(Some(End::Answer(value))),
            Some(caller) => {
                *now = caller;
                answer(all, room, plan, now, value);
                Ok(None)
            }
        },
    }
}

/// Runs on to the end.
pub fn run(
    alloc: Global,
    all: &Module,
    room: u64,
    places: &[u64],
    plan: &Items<Items<Items<u32>>>,
    first: Activation,
    memory: &mut DataMemory,
    counts: &mut Items<u64>,
    left: &mut u64,
) -> Result<End, AllocError>
    requires places { ArePlaces all.now.globals places.now }
    requires usable { IsUsable (program_with all.now room) }
    requires plan { HasPlan (program_with all.now room) plan.now }
    requires typed { IsTyped (program_with all.now room) }
    requires ready { IsReady (program_with all.now room) (record { now = first; callers = []; memory = memory.old; counts = counts.old; left = left.old }) }
    ensures { IfOk result (λ end. (added : List ℕ) × EndsWith (program_with all.now room) (record { now = first; callers = []; memory = memory.old; counts = counts.old; left = left.old }) end counts.new added) }
{
    let mut now = first;
    let mut callers = Items::new(alloc);
    loop {
        let next = advance(
            alloc,
            all,
            room,
            places,
            plan,
            &mut now,
            &mut callers,
            memory,
            counts,
            left,
        )?;
        if let Some(end) = next {
            return Ok(end);
        }
    }
}
