// Switches: the tests of cases, and the edges to the blocks of cases where phis stand.
ghost use Rattle.std.specs.Prelude.{◌≡◌, ◌+◌, ◌<◌, ◌≤◌, ◌^◌, [], ◌∷◌, ◌++◌, length, OnOk, true};
ghost use Rattle.rv_core.specs.declared.reg.Reg.TheVariants.{T0, T1};
ghost use Rattle.rv_core.specs.declared.instr.BranchOp.TheVariants.{Beq};
ghost use Rattle.ir_core.specs.declared.code.Operand.TheVariants.{Num};
ghost use Rattle.ir_core.specs.Units.{values as value_count};
ghost use Rattle.ir_meaning.specs.Step.{insts_at, phis};
ghost use Rattle.quick_code.specs.Operations.{value_code};
ghost use Rattle.code_pieces.specs.Items.{Test, plain};
ghost use Rattle.quick_code.specs.Blocks.{edge_label, label_count, is_headless as is_headless_list, are_headless as are_headless_cases, first_to as first_number_to, case_label as case_label_of, cases_items, case_edge, case_edges, switch_edges, switch_items};
ghost use Rattle.code_pieces.specs.Assembly.{put};
ghost use Rattle.fast_isel.specs.Written.{begins_plainly as begins_plainly_list, AreStarts, AreFree};
ghost use Rattle.fast_isel_emit.specs.Operands.{is_operand};
ghost use Rattle.fast_isel.specs.Taken.{are_cases, is_taken};
ghost use Rattle.ir_flow.specs.Code.{is_phi as is_phi_op};

use crate::jumps::{put_goto_edge, put_last_edge};
use crate::starts::{Start, edge_in, insts_in, label_in};
use code_emit::labels::{put_label, put_test};
use fast_isel_emit::pieces::put_value;
use ir_core::code::{Inst, Op, Operand};
use ir_core::program::Function;
use ir_data::addresses::Places;
use rj_num::NoMemory;
use rv_asm::asm::Asm;
use rv_core::instr::BranchOp;
use rv_core::reg::Reg;
use std::alloc::Global;

fn is_phi(op: &Op) -> bool
    ensures { result ≡ is_phi_op op.now }
{
    match op {
        Op::Phi(_) => true,
        _ => false,
    }
}

fn begins_plainly(insts: &[Inst]) -> bool
    ensures { result ≡ begins_plainly_list insts.now }
{
    match insts.get(0) {
        Some(inst) => !is_phi(&inst.op),
        None => true,
    }
}

// Whether no phi stands at the head of a block.
fn is_headless(function: &Function, block: u32) -> bool
    requires { block < length function.now.blocks }
    ensures { result ≡ is_headless_list (phis (insts_at function.now block)) }
{
    begins_plainly(insts_in(function, block))
}

// Whether no case leads to a block with phis.
fn are_headless(function: &Function, cases: &[(u128, u32)]) -> bool
    requires { are_cases (length function.now.blocks) cases.now ≡ true }
    ensures { result ≡ are_headless_cases function.now cases.now }
{
    for case in cases {
        if !is_headless(function, case.1) {
            return false;
        }
    }
    true
}

// The number of the first case that leads to a block, or that of all cases.
fn first_to(to: u32, cases: &[(u128, u32)]) -> u32
    requires { length cases.now ≤ 32768 }
    ensures value { result ≡ first_number_to 0 to cases.now }
    ensures inside { result ≤ length cases.now }
{
    let mut number = 0;
    for case in cases {
        if case.1 == to {
            return number;
        }
        number += 1;
    }
    number
}

// The label to which a case of a block's switch leads.
fn case_label(
    function: &Function,
    starts: &[Start],
    block: u32,
    cases: &[(u128, u32)],
    to: u32,
) -> u32
    requires starts { AreStarts function.now starts.now }
    requires block { block < length function.now.blocks }
    requires few { length cases.now ≤ 32768 }
    requires to { to < length function.now.blocks }
    ensures { result ≡ case_label_of function.now block cases.now to }
{
    if is_headless(function, to) {
        label_in(function, starts, to)
    } else {
        edge_in(function, starts, block) + first_to(to, cases)
    }
}

// The test of a case, for a number in t0.
fn put_case(
    asm: &mut Asm,
    alloc: Global,
    globals: &Places,
    number: u128,
    label: u32,
) -> Result<(), NoMemory>
    requires number { number < 2 ^ 64 }
    ensures { OnOk result (asm.new ≡ put asm.old (plain (value_code globals.now T1 (Num number)) ++ Test Beq T0 T1 label ∷ [])) }
{
    put_value(asm, alloc, globals, Reg::T1, Operand::Num(number), 0)?;
    put_test(asm, alloc, BranchOp::Beq, Reg::T0, Reg::T1, label)?;
    Ok(())
}

// The tests of cases, for a number in t0.
fn put_cases(
    asm: &mut Asm,
    alloc: Global,
    globals: &Places,
    function: &Function,
    starts: &[Start],
    block: u32,
    cases: &[(u128, u32)],
) -> Result<(), NoMemory>
    requires starts { AreStarts function.now starts.now }
    requires block { block < length function.now.blocks }
    requires cases { are_cases (length function.now.blocks) cases.now ≡ true }
    requires few { length cases.now ≤ 32768 }
    ensures { OnOk result (asm.new ≡ put asm.old (cases_items globals.now function.now block cases.now cases.now)) }
{
    for case in cases {
        let label = case_label(function, starts, block, cases, case.1);
        put_case(asm, alloc, globals, case.0, label)?;
    }
    Ok(())
}

// The edge of the case of a number, where it is the first that leads to a block with phis.
fn put_case_edge(
    asm: &mut Asm,
    alloc: Global,
    globals: &Places,
    function: &Function,
    starts: &[Start],
    block: u32,
    cases: &[(u128, u32)],
    number: u32,
    to: u32,
    values: u32,
) -> Result<(), NoMemory>
    requires taken { is_taken function.now ≡ true }
    requires starts { AreStarts function.now starts.now }
    requires block { block < length function.now.blocks }
    requires few { length cases.now ≤ 32768 }
    requires number { number < length cases.now }
    requires to { to < length function.now.blocks }
    requires values { values ≡ value_count function.now }
    requires free { AreFree function.now (edge_label function.now block + number) asm.old }
    requires below { edge_label function.now block + number < label_count function.now }
    ensures { OnOk result (asm.new ≡ put asm.old (case_edge globals.now function.now block cases.now number to)) }
{
    if is_headless(function, to) {
        return Ok(());
    }
    if first_to(to, cases) != number {
        return Ok(());
    }
    put_label(asm, edge_in(function, starts, block) + number);
    put_goto_edge(asm, alloc, globals, function, starts, block, to, values)?;
    Ok(())
}

// The edges of cases.
fn put_case_edges(
    asm: &mut Asm,
    alloc: Global,
    globals: &Places,
    function: &Function,
    starts: &[Start],
    block: u32,
    cases: &[(u128, u32)],
    values: u32,
) -> Result<(), NoMemory>
    requires taken { is_taken function.now ≡ true }
    requires starts { AreStarts function.now starts.now }
    requires block { block < length function.now.blocks }
    requires cases { are_cases (length function.now.blocks) cases.now ≡ true }
    requires few { edge_label function.now block + length cases.now ≤ label_count function.now }
    requires values { values ≡ value_count function.now }
    requires free { AreFree function.now (edge_label function.now block) asm.old }
    ensures { OnOk result (asm.new ≡ put asm.old (case_edges globals.now function.now block cases.now 0 cases.now)) }
{
    let mut number = 0;
    for case in cases {
        put_case_edge(
            asm, alloc, globals, function, starts, block, cases, number, case.1, values,
        )?;
        number += 1;
    }
    Ok(())
}

// The edge to the block where no case holds, and those of the cases behind it.
fn put_switch_edges(
    asm: &mut Asm,
    alloc: Global,
    globals: &Places,
    function: &Function,
    starts: &[Start],
    block: u32,
    otherwise: u32,
    cases: &[(u128, u32)],
    values: u32,
) -> Result<(), NoMemory>
    requires taken { is_taken function.now ≡ true }
    requires starts { AreStarts function.now starts.now }
    requires block { block < length function.now.blocks }
    requires otherwise { otherwise < length function.now.blocks }
    requires cases { are_cases (length function.now.blocks) cases.now ≡ true }
    requires few { edge_label function.now block + length cases.now ≤ label_count function.now }
    requires values { values ≡ value_count function.now }
    requires free { AreFree function.now (edge_label function.now block) asm.old }
    ensures { OnOk result (asm.new ≡ put asm.old (switch_edges globals.now function.now block otherwise cases.now)) }
{
    if are_headless(function, cases) {
        put_last_edge(
            asm, alloc, globals, function, starts, block, otherwise, values,
        )?;
        return Ok(());
    }
    put_goto_edge(
        asm, alloc, globals, function, starts, block, otherwise, values,
    )?;
    put_case_edges(asm, alloc, globals, function, starts, block, cases, values)?;
    Ok(())
}

/// A switch: the tests of its cases, and the edges.
#[tactic(auto, using(crate::proofs::Forms::few_values))]
pub fn put_switch(
    asm: &mut Asm,
    alloc: Global,
    globals: &Places,
    function: &Function,
    starts: &[Start],
    block: u32,
    value: Operand,
    otherwise: u32,
    cases: &[(u128, u32)],
    values: u32,
) -> Result<(), NoMemory>
    requires taken { is_taken function.now ≡ true }
    requires starts { AreStarts function.now starts.now }
    requires block { block < length function.now.blocks }
    requires value { is_operand values value ≡ true }
    requires otherwise { otherwise < length function.now.blocks }
    requires cases { are_cases (length function.now.blocks) cases.now ≡ true }
    requires few { edge_label function.now block + length cases.now ≤ label_count function.now }
    requires values { values ≡ value_count function.now }
    requires free { AreFree function.now (edge_label function.now block) asm.old }
    ensures { OnOk result (asm.new ≡ put asm.old (switch_items globals.now function.now block value otherwise cases.now)) }
{
    put_value(asm, alloc, globals, Reg::T0, value, values)?;
    put_cases(asm, alloc, globals, function, starts, block, cases)?;
    put_switch_edges(
        asm, alloc, globals, function, starts, block, otherwise, cases, values,
    )?;
    Ok(())
}
