// Where the code of each block starts: the number of its first value, and its label.
ghost use Rattle.std.specs.Prelude.{◌≡◌, ◌+◌, ◌<◌, ◌≤◌, ◌∷◌, ◌++◌, [], length, OnOk, IfOk, true};
ghost use Rattle.ir_core.specs.Units.{results};
ghost use Rattle.ir_meaning.specs.Step.{insts_at, number_at};
ghost use Rattle.quick_code.specs.Blocks.{edges_of as edges_of_op, edges_in as edges_in_insts, block_label, edge_label, label_count};
ghost use Rattle.fast_isel.specs.Written.{AreStarts};
ghost use Rattle.fast_isel.specs.Taken.{is_taken};

use ir_core::code::{Inst, Op};
use ir_core::program::Function;
use ir_core::types::Ty;
use rj_num::NoMemory;
use std::alloc::Global;

/// Where a block's code starts: the number of its first value, and its label. The labels of its edges come behind that.
#[derive(Clone, Copy, Drop)]
pub struct Start {
    pub value: u32,
    pub label: u32,
}

/// The instructions of a block.
pub fn insts_in(function: &Function, block: u32) -> &[Inst]
    requires { block < length function.now.blocks }
    ensures { result.now ≡ insts_at function.now block }
{
    function.blocks.as_slice()[block as usize].insts.as_slice()
}

// How many of these instructions have a result.
fn results_in(insts: &[Inst]) -> u32
    requires { results insts.now ≤ 32764 }
    ensures { result ≡ results insts.now }
{
    let mut count = 0;
    for inst in insts {
        if inst.gives != Ty::Void {
            count += 1;
        }
    }
    count
}

// How many labels of its own an instruction puts.
fn edges_of(op: &Op) -> u32
    requires { edges_of_op op.now ≤ 32768 }
    ensures { result ≡ edges_of_op op.now }
{
    match op {
        Op::CondBr(_, _, _) => 1,
        Op::Switch(_, _, _, cases) => cases.len() as u32,
        _ => 0,
    }
}

// How many labels of their own these instructions put.
fn edges_in(insts: &[Inst]) -> u32
    requires { edges_in_insts insts.now ≤ 32768 }
    ensures { result ≡ edges_in_insts insts.now }
{
    let mut count = 0;
    for inst in insts {
        count += edges_of(&inst.op);
    }
    count
}

// Where the next block starts.
fn start_behind(start: Start, insts: &[Inst]) -> Start
    requires values { start.value + results insts.now ≤ 32764 }
    requires labels { start.label + 1 + edges_in_insts insts.now ≤ 32768 }
    ensures value { result.value ≡ start.value + results insts.now }
    ensures label { result.label ≡ start.label + 1 + edges_in_insts insts.now }
{
    Start {
        value: start.value + results_in(insts),
        label: start.label + 1 + edges_in(insts),
    }
}

fn append(starts: &mut Vec<Start>, start: Start) -> Result<(), NoMemory>
    ensures { OnOk result (starts.new.items ≡ starts.old.items ++ start ∷ []) }
{
    starts.push(start).map_err(|_| NoMemory)
}

// Where the first block starts.
#[tactic(auto, using(crate::proofs::Forms::few_params))]
fn first_start(function: &Function) -> Start
    requires { is_taken function.now ≡ true }
    ensures value { result.value ≡ length function.now.params }
    ensures label { result.label ≡ 0 }
{
    Start {
        value: function.params.len() as u32,
        label: 0,
    }
}

/// Where each block starts, and what comes behind the last.
#[tactic(auto, using(crate::proofs::Forms::few_blocks, crate::proofs::Counts::start_zero))]
pub fn starts_of(alloc: Global, function: &Function) -> Result<Vec<Start>, NoMemory>
    requires taken { is_taken function.now ≡ true }
    requires labels { label_count function.now ≤ 32768 }
    ensures { IfOk result (λ starts. AreStarts function.now starts.items) }
{
    let mut starts = Vec::new(alloc);
    let mut next = first_start(function);
    for block in 0..function.blocks.len() as u32 {
        append(&mut starts, next)?;
        next = start_behind(next, insts_in(function, block));
    }
    append(&mut starts, next)?;
    Ok(starts)
}

/// The number of the first value of a block.
pub fn first_in(function: &Function, starts: &[Start], block: u32) -> u32
    requires starts { AreStarts function.now starts.now }
    requires block { block < length function.now.blocks }
    ensures { result ≡ number_at function.now block 0 }
{
    starts[block as usize].value
}

fn label_at(function: &Function, starts: &[Start], block: u32) -> u32
    requires starts { AreStarts function.now starts.now }
    requires block { block ≤ length function.now.blocks }
    ensures { result ≡ block_label function.now block }
{
    starts[block as usize].label
}

/// The label of a block.
pub fn label_in(function: &Function, starts: &[Start], block: u32) -> u32
    requires starts { AreStarts function.now starts.now }
    requires block { block ≤ length function.now.blocks }
    ensures value { result ≡ block_label function.now block }
    ensures small { result ≤ 32768 }
{
    label_at(function, starts, block)
}

/// The label of the first edge of a block that has one.
pub fn edge_in(function: &Function, starts: &[Start], block: u32) -> u32
    requires starts { AreStarts function.now starts.now }
    requires block { block < length function.now.blocks }
    ensures value { result ≡ edge_label function.now block }
    ensures small { result ≤ 32769 }
{
    label_in(function, starts, block) + 1
}
