// The edges between blocks: next values of phis, jumps and labels.
ghost use Rattle.std.specs.Prelude.{◌≡◌, ◌+◌, ◌<◌, ◌≤◌, length, Some, None, slice_get, OnOk, IfOk, true};
ghost use Rattle.ir_core.specs.Units.{values as value_count};
ghost use Rattle.ir_meaning.specs.Step.{insts_at, number_at, on_edge, phis};
ghost use Rattle.quick_code.specs.Blocks.{edge_code, edge_items, last_edge_items, branch_items, phis_code, edge_label};
ghost use Rattle.code_pieces.specs.Assembly.{put};
ghost use Rattle.code_emit.specs.Written.{put_code};
ghost use Rattle.fast_isel.specs.Written.{AreStarts};
ghost use Rattle.fast_isel_emit.specs.Operands.{is_operand};
ghost use Rattle.fast_isel.specs.Taken.{are_edge_operands, are_forms, is_taken};

use crate::starts::{Start, edge_in, first_in, insts_in, label_in};
use code_emit::labels::{put_goto, put_label, put_test};
use fast_isel_emit::pieces::{put_next, put_phi, put_value};
use ir_core::code::{Inst, Op, Operand};
use ir_core::program::Function;
use ir_data::addresses::Places;
use rj_num::NoMemory;
use rv_asm::asm::Asm;
use rv_core::instr::BranchOp;
use rv_core::reg::Reg;
use std::alloc::Global;

// The operand that a phi has for an edge.
fn operand_on(from: u32, pairs: &[(Operand, u32)], values: u32) -> Operand
    requires { are_edge_operands values pairs.now ≡ true }
    ensures value { result ≡ on_edge from pairs.now }
    ensures small { is_operand values result ≡ true }
{
    for (operand, block) in pairs {
        if *block == from {
            return *operand;
        }
    }
    Operand::Poison
}

// The next values of the phis at the head of a block, for the edge from another.
fn put_nexts(
    asm: &mut Asm,
    alloc: Global,
    globals: &Places,
    function: &Function,
    from: u32,
    to: u32,
    insts: &[Inst],
    first: u32,
    values: u32,
) -> Result<(), NoMemory>
    requires insts { insts.now ≡ insts_at function.now to }
    requires first { first ≡ number_at function.now to 0 }
    requires values { values ≡ value_count function.now }
    requires few { values ≤ 32764 }
    requires forms { are_forms values (length function.now.blocks) insts.now ≡ true }
    ensures { OnOk result (asm.new ≡ put_code asm.old (edge_code globals.now function.now from to)) }
{
    let mut value = first;
    for inst in insts {
        match &inst.op {
            Op::Phi(pairs) => {
                let operand = operand_on(from, pairs.as_slice(), values);
                put_next(asm, alloc, globals, value, operand, values)?;
                value += 1;
            }
            _ => return Ok(()),
        }
    }
    Ok(())
}

/// The next values of the phis at the head of a block become their values. How many there are.
pub fn put_phis(
    asm: &mut Asm,
    alloc: Global,
    function: &Function,
    block: u32,
    insts: &[Inst],
    first: u32,
    values: u32,
) -> Result<u32, NoMemory>
    requires insts { insts.now ≡ insts_at function.now block }
    requires first { first ≡ number_at function.now block 0 }
    requires values { values ≡ value_count function.now }
    requires few { values ≤ 32764 }
    requires forms { are_forms values (length function.now.blocks) insts.now ≡ true }
    ensures code { OnOk result (asm.new ≡ put_code asm.old (phis_code function.now block 0 (phis (insts_at function.now block)))) }
    ensures heads { IfOk result (λ heads. heads ≡ length (phis (insts_at function.now block))) }
    ensures number { IfOk result (λ heads. first + heads ≡ number_at function.now block heads) }
{
    let mut heads = 0;
    for inst in insts {
        match &inst.op {
            Op::Phi(_) => {
                put_phi(asm, alloc, first + heads)?;
                heads += 1;
            }
            _ => return Ok(heads),
        }
    }
    Ok(heads)
}

// The next values of the phis of a block, for the edge from another.
#[tactic(auto, using(crate::proofs::Forms::few_values, crate::proofs::Forms::block_forms))]
fn put_edge(
    asm: &mut Asm,
    alloc: Global,
    globals: &Places,
    function: &Function,
    starts: &[Start],
    from: u32,
    to: u32,
    values: u32,
) -> Result<(), NoMemory>
    requires taken { is_taken function.now ≡ true }
    requires starts { AreStarts function.now starts.now }
    requires to { to < length function.now.blocks }
    requires values { values ≡ value_count function.now }
    ensures { OnOk result (asm.new ≡ put_code asm.old (edge_code globals.now function.now from to)) }
{
    let first = first_in(function, starts, to);
    put_nexts(
        asm,
        alloc,
        globals,
        function,
        from,
        to,
        insts_in(function, to),
        first,
        values,
    )
}

/// An edge in the midst of a block's code.
#[tactic(auto, using(crate::proofs::Forms::few_values, crate::proofs::Forms::few_blocks))]
pub fn put_goto_edge(
    asm: &mut Asm,
    alloc: Global,
    globals: &Places,
    function: &Function,
    starts: &[Start],
    from: u32,
    to: u32,
    values: u32,
) -> Result<(), NoMemory>
    requires taken { is_taken function.now ≡ true }
    requires starts { AreStarts function.now starts.now }
    requires to { to < length function.now.blocks }
    requires values { values ≡ value_count function.now }
    ensures { OnOk result (asm.new ≡ put asm.old (edge_items globals.now function.now from to)) }
{
    put_edge(asm, alloc, globals, function, starts, from, to, values)?;
    put_goto(asm, alloc, label_in(function, starts, to))?;
    Ok(())
}

/// The edge at the end of a block: no jump leads to the block that comes next.
#[tactic(auto, using(crate::proofs::Forms::few_values, crate::proofs::Forms::few_blocks))]
pub fn put_last_edge(
    asm: &mut Asm,
    alloc: Global,
    globals: &Places,
    function: &Function,
    starts: &[Start],
    from: u32,
    to: u32,
    values: u32,
) -> Result<(), NoMemory>
    requires taken { is_taken function.now ≡ true }
    requires starts { AreStarts function.now starts.now }
    requires from { from < length function.now.blocks }
    requires to { to < length function.now.blocks }
    requires values { values ≡ value_count function.now }
    ensures { OnOk result (asm.new ≡ put asm.old (last_edge_items globals.now function.now from to)) }
{
    put_edge(asm, alloc, globals, function, starts, from, to, values)?;
    if to == from + 1 {
        return Ok(());
    }
    put_goto(asm, alloc, label_in(function, starts, to))?;
    Ok(())
}

/// A branch, with the edge that is taken where the comparison fails, and the one where it holds.
#[tactic(auto, using(crate::proofs::Forms::few_values, crate::proofs::Forms::few_blocks))]
pub fn put_branch(
    asm: &mut Asm,
    alloc: Global,
    globals: &Places,
    function: &Function,
    starts: &[Start],
    block: u32,
    op: BranchOp,
    condition: Operand,
    fails: u32,
    holds: u32,
    values: u32,
) -> Result<(), NoMemory>
    requires taken { is_taken function.now ≡ true }
    requires starts { AreStarts function.now starts.now }
    requires block { block < length function.now.blocks }
    requires condition { is_operand values condition ≡ true }
    requires fails { fails < length function.now.blocks }
    requires holds { holds < length function.now.blocks }
    requires values { values ≡ value_count function.now }
    requires free { slice_get asm.old.bound (edge_label function.now block) ≡ Some None }
    ensures { OnOk result (asm.new ≡ put asm.old (branch_items globals.now function.now block op condition fails holds)) }
{
    put_value(asm, alloc, globals, Reg::T0, condition, values)?;
    let label = edge_in(function, starts, block);
    put_test(asm, alloc, op, Reg::T0, Reg::X0, label)?;
    put_goto_edge(asm, alloc, globals, function, starts, block, fails, values)?;
    put_label(asm, label);
    put_last_edge(asm, alloc, globals, function, starts, block, holds, values)?;
    Ok(())
}
