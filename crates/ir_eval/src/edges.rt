// Edges between blocks: all phis of a block change at once.
ghost use Rattle.std.specs.Prelude.{◌≡◌, ◌-◌, ◌^◌, ◌<◌, ◌≤◌, length, min, sum_by, IfOk, OnOk, true, false};
ghost use Rattle.ir_core.specs.Units.{units};
ghost use Rattle.ir_meaning.specs.Step.{insts_at, jump as jump_of, on_edge as on_edge_of, phis, phi_value as phi_value_of, with_phis};
ghost use Rattle.ir_eval.specs.Beyond.{edge_does, edge_units};
ghost use Rattle.ir_eval.specs.Code.{ArePlaces, program_with};
ghost use Rattle.ir_eval.specs.Fits.{HasNumbers, IsBounded};
ghost use Rattle.ir_eval.specs.Turns.{came, told, turn_beyond};

use crate::done::Done;
use crate::numbers::put;
use crate::operands::operand;
use ir_core::code::{Inst, Op, Operand};
use ir_core::program::{Function, Module};
use ir_core::units::capped_units;
use ir_meaning::activation::Activation;
use ir_ops::memory::DataMemory;
use sqlite_items::Items;
use std::alloc::{AllocError, Global};

/// The operand that a phi has for an edge.
fn on_edge(from: u32, pairs: &[(Operand, u32)]) -> Operand
    ensures { result ≡ on_edge_of from pairs.now }
{
    for (operand, block) in pairs {
        if *block == from {
            return *operand;
        }
    }
    Operand::Poison
}

/// The value of a phi on an edge; poison for any other instruction.
fn phi_value(
    all: &Module,
    room: u64,
    places: &[u64],
    before: &[Option<u128>],
    from: u32,
    op: &Op,
) -> Option<u128>
    requires { ArePlaces all.now.globals places.now }
    ensures { result ≡ phi_value_of (program_with all.now room) before.now from op.now }
{
    match op {
        Op::Phi(pairs) => operand(all, room, places, before, on_edge(from, pairs.as_slice())),
        _ => None,
    }
}

/// How many phis stand at the head of a block.
fn count_phis(insts: &[Inst]) -> usize
    ensures value { result ≡ length (phis insts.now) }
    ensures within { result ≤ length insts.now }
{
    let mut count = 0;
    for inst in insts {
        match inst.op {
            Op::Phi(_) => count += 1,
            _ => return count,
        }
    }
    count
}

/// The phis at the head of a block; none where there is no such block.
fn heads_of<'a>(function: &'a Function, to: u32) -> &'a [Inst]
    ensures { result.now ≡ phis (insts_at function.now to) }
{
    match function.blocks.get(to as usize) {
        None => &[],
        Some(block) => {
            let insts = block.insts.as_slice();
            let count = count_phis(insts);
            &insts[..count]
        }
    }
}

/// The units of these instructions, or the greatest number where there are more.
fn units_in(insts: &[Inst]) -> u64
    ensures { result ≡ min (sum_by units insts.now) (2 ^ 64 - 1) }
{
    let mut total = 0u64;
    for inst in insts {
        total = total.saturating_add(capped_units(inst));
    }
    total
}

/// Pays so many units, unless there are fewer.
pub fn pay(left: &mut u64, units: u64) -> bool
    ensures paid { result ≡ true → (units ≤ left.old) × (left.new ≡ left.old - units) }
    ensures short { result ≡ false → (left.old < units) × (left.new ≡ left.old) }
{
    if *left < units {
        false
    } else {
        *left -= units;
        true
    }
}

/// The values behind the edge to a block with these phis: each has the value that it had on the edge.
fn set_phis(
    alloc: Global,
    all: &Module,
    room: u64,
    places: &[u64],
    function: &Function,
    numbers: &Items<Items<u32>>,
    from: u32,
    to: u32,
    heads: &[Inst],
    values: &mut Items<Option<u128>>,
) -> Result<(), AllocError>
    requires places { ArePlaces all.now.globals places.now }
    requires bounded { IsBounded function.now }
    requires numbers { HasNumbers function.now numbers.now }
    requires heads { heads.now ≡ phis (insts_at function.now to) }
    ensures { OnOk result (values.new ≡ with_phis (program_with all.now room) function.now from values.old to 0 heads.now values.old) }
{
    if heads.is_empty() {
        return Ok(());
    }
    let before = Items::from_slice(alloc, values.as_slice())?;
    for place in 0..heads.len() {
        let inst = &heads[place];
        let value = phi_value(all, room, places, before.as_slice(), from, &inst.op);
        put(function, numbers, values, to, place as u64, inst, value);
    }
    Ok(())
}

/// Takes the edge to a block with these phis.
fn jump(
    alloc: Global,
    all: &Module,
    room: u64,
    places: &[u64],
    function: &Function,
    numbers: &Items<Items<u32>>,
    now: &mut Activation,
    to: u32,
    heads: &[Inst],
) -> Result<(), AllocError>
    requires places { ArePlaces all.now.globals places.now }
    requires bounded { IsBounded function.now }
    requires numbers { HasNumbers function.now numbers.now }
    requires heads { heads.now ≡ phis (insts_at function.now to) }
    ensures { OnOk result (now.new ≡ jump_of (program_with all.now room) function.now now.old to) }
{
    let from = now.block;
    set_phis(
        alloc,
        all,
        room,
        places,
        function,
        numbers,
        from,
        to,
        heads,
        &mut now.values,
    )?;
    now.block = to;
    now.place = heads.len() as u64;
    Ok(())
}

/// Takes an edge, whose phis cost their units; undefined where it leads nowhere.
pub fn edge(
    alloc: Global,
    all: &Module,
    room: u64,
    places: &[u64],
    function: &Function,
    numbers: &Items<Items<u32>>,
    now: &mut Activation,
    memory: &DataMemory,
    left: &mut u64,
    to: Option<u32>,
) -> Result<Option<Done>, AllocError>
    requires places { ArePlaces all.now.globals places.now }
    requires bounded { IsBounded function.now }
    requires numbers { HasNumbers function.now numbers.now }
    requires left { left.old < 2 ^ 63 }
    ensures { IfOk result (λ done. told done left.new now.new memory.now ≡ turn_beyond left.old (edge_units function.now to) (came now.old memory.now (edge_does (program_with all.now room) function.now now.old memory.now to))) }
{
    match to {
        None => Ok(Some(Done::Breaks)),
        Some(to) => {
            let heads = heads_of(function, to);
            if !pay(left, units_in(heads)) {
                return Ok(None);
            }
            jump(alloc, all, room, places, function, numbers, now, to, heads)?;
            Ok(Some(Done::Goes))
        }
    }
}
