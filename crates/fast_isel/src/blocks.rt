// The code of blocks and functions, as items of an assembler.
ghost use Rattle.std.specs.Prelude.{◌≡◌, ◌+◌, ◌<◌, ◌≤◌, Some, None, length, drop, slice_get, OnOk, IfOk, true};
ghost use Rattle.ir_core.specs.Units.{values as value_count, frame};
ghost use Rattle.ir_meaning.specs.Step.{insts_at, number_at};
ghost use Rattle.quick_code.specs.Blocks.{both_items, op_items, insts_items, block_items, blocks_items, edges_of, edges_in, edge_label, block_label, label_count};
ghost use Rattle.quick_code.specs.Data.{takes_data as takes_data_of};
ghost use Rattle.code_pieces.specs.Assembly.{put};
ghost use Rattle.quick_code.specs.Assembly.{code_of as code_of_function};
ghost use Rattle.ir_flow.specs.Limits.{op_limit};
ghost use Rattle.fast_isel.specs.Written.{given_by, AreLimited, AreStarts, AreFree};
ghost use Rattle.fast_isel_emit.specs.Operands.{is_operand};
ghost use Rattle.fast_isel.specs.Taken.{is_form, is_taken};
ghost use Rattle.quick_code.specs.Forms.{IsFlow, IsJump};

use crate::jumps::{put_branch, put_last_edge, put_phis};
use crate::starts::{Start, first_in, insts_in, label_in, starts_of};
use crate::switches::put_switch;
use code_emit::frame::put_prologue;
use code_emit::labels::{put_label, with_labels};
use fast_isel_emit::allocas::{put_alloca, put_save, takes_data};
use fast_isel_emit::built_ins::put_built_in;
use fast_isel_emit::operations::{
    put_binary, put_cast, put_choice, put_compare, put_load, put_same, put_store,
};
use fast_isel_emit::parts::put_part;
use fast_isel_emit::pieces::{put_call, put_parameters, put_return};
use ir_core::code::{Inst, Op, Operand};
use ir_core::program::Function;
use ir_core::types::Ty;
use ir_data::addresses::Places;
use rj_num::NoMemory;
use rv_asm::asm::Asm;
use rv_core::instr::BranchOp;
use std::alloc::Global;

// An instruction of a block, which gives the value of that number where it has a result.
#[tactic(auto, using(crate::proofs::Forms::few_values, code_emit::proofs::Put::put_none))]
fn put_inst(
    asm: &mut Asm,
    alloc: Global,
    globals: &Places,
    function: &Function,
    room: u64,
    takes: bool,
    starts: &[Start],
    block: u32,
    inst: &Inst,
    value: u32,
    values: u32,
) -> Result<(), NoMemory>
    requires room { room ≤ 67108864 }
    requires takes { takes ≡ takes_data_of function.now }
    requires taken { is_taken function.now ≡ true }
    requires starts { AreStarts function.now starts.now }
    requires block { block < length function.now.blocks }
    requires form { is_form values (length function.now.blocks) inst.now.gives inst.now.op ≡ true }
    requires limit { op_limit inst.now.op ≡ None }
    requires value { value ≤ values }
    requires values { values ≡ value_count function.now }
    requires edges { edges_of inst.now.op ≤ edges_in (insts_at function.now block) }
    requires free { IsJump inst.now.op → AreFree function.now (edge_label function.now block) asm.old }
    ensures { OnOk result (asm.new ≡ put asm.old (op_items globals.now function.now room (frame function.now) block value inst.now.gives inst.now.op)) }
{
    match &inst.op {
        Op::Binary(op, flags, a, b) => {
            put_binary(
                asm, alloc, globals, inst.gives, *op, *flags, *a, *b, value, values,
            )?;
            Ok(())
        }
        Op::Icmp(pred, flags, of, a, b) => {
            put_compare(
                asm, alloc, globals, inst.gives, *pred, *flags, *of, *a, *b, value, values,
            )?;
            Ok(())
        }
        Op::Cast(op, flags, from, a) => {
            put_cast(
                asm, alloc, globals, inst.gives, *op, *flags, *from, *a, value, values,
            )?;
            Ok(())
        }
        Op::Select(condition, a, b) => {
            put_choice(
                asm, alloc, globals, inst.gives, *condition, *a, *b, value, values,
            )?;
            Ok(())
        }
        Op::Freeze(a) => {
            put_same(asm, alloc, globals, inst.gives, *a, value, values)?;
            Ok(())
        }
        Op::Load(address) => {
            put_load(asm, alloc, globals, inst.gives, *address, value, values)?;
            Ok(())
        }
        Op::Alloca(of, count) => {
            put_alloca(asm, alloc, room, of, *count, value)?;
            Ok(())
        }
        Op::Store(ty, a, address) => {
            put_store(asm, alloc, globals, *ty, *a, *address, values)?;
            Ok(())
        }
        Op::Gep(of, base, indices) => {
            put_part(
                asm,
                alloc,
                globals,
                inst.gives,
                of,
                *base,
                indices.as_slice(),
                value,
                values,
            )?;
            Ok(())
        }
        Op::BuiltIn(which, arguments) => {
            put_built_in(
                asm,
                alloc,
                globals,
                inst.gives,
                *which,
                arguments.as_slice(),
                value,
                values,
            )?;
            Ok(())
        }
        Op::Call(callee, arguments) => {
            put_call(
                asm, alloc, globals, inst.gives, *callee, arguments, value, values,
            )?;
            Ok(())
        }
        Op::Ret(answer) => {
            put_return(asm, alloc, globals, takes, *answer, values)?;
            Ok(())
        }
        Op::Br(to) => {
            put_last_edge(asm, alloc, globals, function, starts, block, *to, values)?;
            Ok(())
        }
        Op::CondBr(condition, if_true, if_false) => {
            put_both_edges(
                asm, alloc, globals, function, starts, block, *condition, *if_true, *if_false,
                values,
            )?;
            Ok(())
        }
        Op::Switch(_, value, otherwise, cases) => {
            put_switch(
                asm,
                alloc,
                globals,
                function,
                starts,
                block,
                *value,
                *otherwise,
                cases.as_slice(),
                values,
            )?;
            Ok(())
        }
        _ => Ok(()),
    }
}

// A branch: the edge to the block that comes next stands last.
#[tactic(auto, using(crate::proofs::Forms::few_values, crate::proofs::Forms::few_blocks))]
fn put_both_edges(
    asm: &mut Asm,
    alloc: Global,
    globals: &Places,
    function: &Function,
    starts: &[Start],
    block: u32,
    condition: Operand,
    if_true: u32,
    if_false: u32,
    values: u32,
) -> Result<(), NoMemory>
    requires taken { is_taken function.now ≡ true }
    requires starts { AreStarts function.now starts.now }
    requires block { block < length function.now.blocks }
    requires condition { is_operand values condition ≡ true }
    requires if_true { if_true < length function.now.blocks }
    requires if_false { if_false < length function.now.blocks }
    requires values { values ≡ value_count function.now }
    requires free { slice_get asm.old.bound (edge_label function.now block) ≡ Some None }
    ensures { OnOk result (asm.new ≡ put asm.old (both_items globals.now function.now block condition if_true if_false)) }
{
    if if_false == block + 1 {
        put_branch(
            asm,
            alloc,
            globals,
            function,
            starts,
            block,
            BranchOp::Beq,
            condition,
            if_true,
            if_false,
            values,
        )
    } else {
        put_branch(
            asm,
            alloc,
            globals,
            function,
            starts,
            block,
            BranchOp::Bne,
            condition,
            if_false,
            if_true,
            values,
        )
    }
}

// The instructions of a block behind its phis.
#[tactic(auto, using(crate::proofs::Forms::few_values, crate::proofs::Forms::few_blocks))]
fn put_insts(
    asm: &mut Asm,
    alloc: Global,
    globals: &Places,
    function: &Function,
    room: u64,
    takes: bool,
    starts: &[Start],
    block: u32,
    place: u32,
    insts: &[Inst],
    first: u32,
    values: u32,
) -> Result<(), NoMemory>
    requires flow { IsFlow function.now }
    requires room { room ≤ 67108864 }
    requires takes { takes ≡ takes_data_of function.now }
    requires limited { AreLimited function.now }
    requires taken { is_taken function.now ≡ true }
    requires starts { AreStarts function.now starts.now }
    requires block { block < length function.now.blocks }
    requires insts { insts.now ≡ drop place (insts_at function.now block) }
    requires first { first ≡ number_at function.now block place }
    requires values { values ≡ value_count function.now }
    requires free { AreFree function.now (edge_label function.now block) asm.old }
    ensures { OnOk result (asm.new ≡ put asm.old (insts_items globals.now function.now room (frame function.now) block place insts.now)) }
{
    let mut value = first;
    for inst in insts {
        put_inst(
            asm, alloc, globals, function, room, takes, starts, block, inst, value, values,
        )?;
        value = number_behind(inst, value);
    }
    Ok(())
}

// The number of the next value behind an instruction.
fn number_behind(inst: &Inst, value: u32) -> u32
    requires { value ≤ 32764 }
    ensures { result ≡ value + given_by inst.now }
{
    if inst.gives != Ty::Void {
        value + 1
    } else {
        value
    }
}

// A block: its label, its phis, and its instructions.
#[tactic(auto, using(crate::proofs::Forms::few_values, crate::proofs::Forms::few_blocks))]
fn put_block(
    asm: &mut Asm,
    alloc: Global,
    globals: &Places,
    function: &Function,
    room: u64,
    takes: bool,
    starts: &[Start],
    block: u32,
    values: u32,
) -> Result<(), NoMemory>
    requires flow { IsFlow function.now }
    requires room { room ≤ 67108864 }
    requires takes { takes ≡ takes_data_of function.now }
    requires limited { AreLimited function.now }
    requires taken { is_taken function.now ≡ true }
    requires starts { AreStarts function.now starts.now }
    requires block { block < length function.now.blocks }
    requires values { values ≡ value_count function.now }
    requires free { AreFree function.now (block_label function.now block) asm.old }
    ensures { OnOk result (asm.new ≡ put asm.old (block_items globals.now function.now room (frame function.now) block)) }
{
    let insts = insts_in(function, block);
    let first = first_in(function, starts, block);
    put_label(asm, label_in(function, starts, block));
    let heads = put_phis(asm, alloc, function, block, insts, first, values)?;
    put_insts(
        asm,
        alloc,
        globals,
        function,
        room,
        takes,
        starts,
        block,
        heads,
        &insts[heads as usize..],
        first + heads,
        values,
    )?;
    Ok(())
}

// The blocks of a function.
#[tactic(auto, using(crate::proofs::Forms::few_values, crate::proofs::Forms::few_blocks))]
fn put_blocks(
    asm: &mut Asm,
    alloc: Global,
    globals: &Places,
    function: &Function,
    room: u64,
    takes: bool,
    starts: &[Start],
    values: u32,
) -> Result<(), NoMemory>
    requires flow { IsFlow function.now }
    requires room { room ≤ 67108864 }
    requires takes { takes ≡ takes_data_of function.now }
    requires limited { AreLimited function.now }
    requires taken { is_taken function.now ≡ true }
    requires starts { AreStarts function.now starts.now }
    requires values { values ≡ value_count function.now }
    requires free { AreFree function.now 0 asm.old }
    ensures { OnOk result (asm.new ≡ put asm.old (blocks_items globals.now function.now room (frame function.now) 0 (length function.now.blocks))) }
{
    for block in 0..function.blocks.len() as u32 {
        put_block(
            asm, alloc, globals, function, room, takes, starts, block, values,
        )?;
    }
    Ok(())
}

/// The quick code of a function.
#[tactic(auto, using(crate::proofs::Forms::few_values, crate::proofs::Forms::few_blocks, crate::proofs::Forms::few_params, crate::proofs::Forms::param_widths))]
pub fn code_of(
    alloc: Global,
    globals: &Places,
    function: &Function,
    room: u64,
    symbol: u32,
    values: u32,
) -> Result<Asm, NoMemory>
    requires flow { IsFlow function.now }
    requires limited { AreLimited function.now }
    requires taken { is_taken function.now ≡ true }
    requires room { room ≤ 67108864 }
    requires labels { label_count function.now ≤ 32768 }
    requires symbol { symbol < 1024 }
    requires values { values ≡ value_count function.now }
    ensures { IfOk result (λ asm. asm ≡ code_of_function globals.now symbol function.now room) }
{
    let starts = starts_of(alloc, function)?;
    let mut asm = with_labels(
        alloc,
        label_in(function, starts.as_slice(), function.blocks.len() as u32),
    )?;
    let takes = takes_data(function);
    put_prologue(&mut asm, alloc, symbol, 128 + 32 * values)?;
    put_save(&mut asm, alloc, takes, 128 + 32 * values)?;
    put_parameters(&mut asm, alloc, function.params.as_slice())?;
    put_blocks(
        &mut asm,
        alloc,
        globals,
        function,
        room,
        takes,
        starts.as_slice(),
        values,
    )?;
    Ok(asm)
}
