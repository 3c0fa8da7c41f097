// The evaluation of a listed call.
ghost use Rattle.std.specs.Prelude.{◌≡◌, ℕ, ◌+◌, ◌≤◌, List, length, map, replicate, Some, IfOk};
ghost use Rattle.ir_data.specs.Image.{IsFirstImage};
ghost use Rattle.ir_eval.specs.Code.{program_with};
ghost use Rattle.ir_eval.specs.Entries.{IsCall, end_outcome};
ghost use Rattle.ir_eval.specs.Runs.{AreCounts, HasEnd};
ghost use Rattle.ir_meaning.specs.Eval.{eval_call, run as run_of};
ghost use Rattle.ir_meaning.specs.Image.{first_memory as first_memory_of};
ghost use Rattle.ir_meaning.specs.Memory.{data_start};
ghost use Rattle.ir_meaning.specs.Step.{stack_end};
ghost use Rattle.ir_verify.specs.Verdict.{IsChecked};

use crate::ends::{End, Entered};
use crate::entering::{STACK_END, enter};
use crate::first::{first_memory, places_of};
use crate::numbers::plan_of;
use crate::running::run;
use ir_core::program::Module;
use ir_core::types::Ty;
use ir_data::image::Image;
use ir_meaning::calls::{ListedCall, Outcome};
use ir_verify::checked::Checked;
use rj_num::NoMemory;
use sqlite_items::Items;
use std::alloc::{AllocError, Global};

/// How a call ended, and how often it entered each symbol.
#[derive(Drop)]
struct Finished {
    end: End,
    counts: Items<u64>,
}

/// So many counts of 0.
fn zeros(alloc: Global, count: usize) -> Result<Items<u64>, AllocError>
    ensures { IfOk result (λ counts. counts ≡ replicate count 0) }
{
    let mut counts = Items::new(alloc);
    for _ in 0..count {
        counts.push(0)?;
    }
    Ok(counts)
}

/// The arguments of a call as values.
fn given_of(alloc: Global, args: &[u128]) -> Result<Items<Option<u128>>, AllocError>
    ensures { IfOk result (λ given. given ≡ map Some args.now) }
{
    let mut given = Items::new(alloc);
    for n in args {
        given.push(Some(*n))?;
    }
    Ok(given)
}

/// The evaluation of a call from the first memory.
fn evaluated(
    alloc: Global,
    all: &Module,
    room: u64,
    call: &ListedCall,
) -> Result<Finished, AllocError>
    requires checked { IsChecked (program_with all.now room) }
    requires fits { length (first_memory_of all.now.globals) ≤ room }
    requires call { IsCall (program_with all.now room) call.now }
    ensures { IfOk result (λ it. (entered : List ℕ) × (HasEnd it.end entered (run_of (program_with all.now room) call.now.symbol (map Some call.now.args) (first_memory_of all.now.globals) stack_end call.now.turns) × AreCounts (length all.now.functions) entered it.counts)) }
{
    let places = places_of(alloc, all)?;
    let plan = plan_of(alloc, all, room)?;
    let mut memory = first_memory(alloc, all)?;
    memory.keeps_ranges();
    let mut counts = zeros(alloc, all.functions.len())?;
    let mut left = call.turns;
    let given = given_of(alloc, call.args.as_slice())?;
    match enter(
        all,
        room,
        call.symbol,
        given,
        &memory,
        STACK_END,
        &mut counts,
        &mut left,
    )? {
        Entered::Ends(end) => Ok(Finished { end, counts }),
        Entered::Opens(first) => {
            let places = places.as_slice();
            let end = run(
                alloc,
                all,
                room,
                places,
                &plan,
                first,
                &mut memory,
                &mut counts,
                &mut left,
            )?;
            Ok(Finished { end, counts })
        }
    }
}

/// The outcome of a call of a function with this result.
fn outcome_of(ret: Ty, end: End) -> Outcome
    ensures { result ≡ end_outcome ret end }
{
    match end {
        End::Answer(value) => match ret {
            Ty::Void => Outcome::Void,
            Ty::Int(_) | Ty::Ptr => match value {
                None => Outcome::Undefined,
                Some(n) => Outcome::Value(n),
            },
        },
        End::Stack => Outcome::Stack,
        End::NotEnded => Outcome::NotEnded,
        End::Undefined => Outcome::Undefined,
    }
}

/// The outcome of a call within its turns, from the module's image.
pub fn evaluate(
    alloc: Global,
    program: &Checked,
    _image: &Image,
    call: &ListedCall,
) -> Result<Outcome, NoMemory>
    requires image { IsFirstImage program.now.module_.globals _image.now }
    requires fits { _image.now.top ≤ data_start + program.now.room }
    requires call { IsCall program.now call.now }
    ensures { IfOk result (λ outcome. outcome ≡ (eval_call program.now call.now call.now.turns).outcome) }
{
    let all = program.module();
    match evaluated(alloc, all, program.room(), call) {
        Err(_) => Err(NoMemory),
        Ok(it) => Ok(outcome_of(all.functions.as_slice()[call.symbol as usize].ret, it.end)),
    }
}

/// How often a call within its turns enters each symbol, the entry that ends it with them.
pub fn entries(
    alloc: Global,
    program: &Checked,
    _image: &Image,
    call: &ListedCall,
) -> Result<Items<u64>, NoMemory>
    requires image { IsFirstImage program.now.module_.globals _image.now }
    requires fits { _image.now.top ≤ data_start + program.now.room }
    requires call { IsCall program.now call.now }
    ensures { IfOk result (λ counts. AreCounts (length program.now.module_.functions) (eval_call program.now call.now call.now.turns).entered counts) }
{
    let all = program.module();
    match evaluated(alloc, all, program.room(), call) {
        Err(_) => Err(NoMemory),
        Ok(it) => Ok(it.counts),
    }
}
