// The uses of values, and the graph of blocks.
ghost use Rattle.std.specs.Prelude.{◌≡◌, ℕ, ◌+◌, ◌*◌, ◌^◌, ◌<◌, ◌≤◌, [], ◌∷◌, ◌++◌, length, map, slice_get, slice_index, IfOk, OnOk, Option, Some, None};
ghost use Rattle.ir_core.specs.declared.code.Block.{Block};
ghost use Rattle.ir_core.specs.Units.{results, values};
ghost use Rattle.ir_flow.specs.Code.{edges, edges_of, targets as targets_of_op, case_blocks, targets_of_last, places};
ghost use Rattle.ir_flow.specs.Assigned.{firsts_of, use_of, uses_of_places, uses_of_pairs, uses_of, uses_in_block, uses_in_blocks};

use crate::lists::{number_at, push};
use ir_core::code::{Block, Inst, Op, Operand};
use ir_core::program::Function;
use ir_core::types::Ty;
use rj_num::NoMemory;
use sqlite_items::Items;
use std::alloc::Global;

/// A use of a value in a block where the values below `before` are defined.
#[derive(Clone, Copy, PartialEq, Eq, Drop)]
pub struct Use {
    pub block: u32,
    pub before: u32,
    pub value: u32,
}

fn add_cases(into: &mut Vec<u32>, cases: &[(u128, u32)]) -> Result<(), NoMemory>
    ensures { OnOk result (into.new.items ≡ into.old.items ++ case_blocks cases.now) }
{
    for (_, block) in cases {
        push(into, *block)?;
    }
    Ok(())
}

/// The blocks that an instruction jumps to, one for each edge.
fn targets(alloc: Global, op: &Op) -> Result<Vec<u32>, NoMemory>
    ensures { IfOk result (λ blocks. blocks.items ≡ targets_of_op op.now) }
{
    let mut blocks = Vec::new(alloc);
    match op {
        Op::Br(to) => push(&mut blocks, *to)?,
        Op::CondBr(_, if_true, if_false) => {
            push(&mut blocks, *if_true)?;
            push(&mut blocks, *if_false)?;
        }
        Op::Switch(_, _, otherwise, cases) => {
            push(&mut blocks, *otherwise)?;
            add_cases(&mut blocks, cases.as_slice())?;
        }
        _ => {}
    }
    Ok(blocks)
}

/// The edges of a block: those of its last instruction.
fn block_edges(alloc: Global, block: &Block) -> Result<Vec<u32>, NoMemory>
    ensures { IfOk result (λ blocks. blocks.items ≡ edges block.now) }
{
    match block.insts.as_slice().last() {
        Some(inst) => targets(alloc, &inst.op),
        None => Ok(Vec::new(alloc)),
    }
}

/// The edges of each block.
pub fn function_edges(alloc: Global, function: &Function) -> Result<Vec<Items<u32>>, NoMemory>
    ensures { IfOk result (λ graph. graph.items ≡ edges_of function.now) }
{
    let mut graph = Vec::new(alloc);
    for block in function.blocks.as_slice() {
        let edges = Items::from_vec(block_edges(alloc, block)?);
        if graph.push(edges).is_err() {
            return Err(NoMemory);
        }
    }
    Ok(graph)
}

fn count_results(block: &Block) -> u32
    requires { results block.now.insts < 2 ^ 32 }
    ensures { result ≡ results block.now.insts }
{
    let mut count = 0;
    for inst in block.insts.as_slice() {
        if inst.gives != Ty::Void {
            count += 1;
        }
    }
    count
}

fn add_use(uses: &mut Vec<Use>, block: u32, before: u32, operand: &Operand) -> Result<(), NoMemory>
    ensures { OnOk result (uses.new.items ≡ uses.old.items ++ use_of block before operand.now) }
{
    if let Operand::Value(value) = operand {
        let one = Use {
            block,
            before,
            value: *value,
        };
        if uses.push(one).is_err() {
            return Err(NoMemory);
        }
    }
    Ok(())
}

fn add_arguments(
    uses: &mut Vec<Use>,
    block: u32,
    before: u32,
    arguments: &[(Ty, Operand)],
) -> Result<(), NoMemory>
    ensures { OnOk result (uses.new.items ≡ uses.old.items ++ uses_of_places block before arguments.now) }
{
    for (_, operand) in arguments {
        add_use(uses, block, before, operand)?;
    }
    Ok(())
}

/// A phi's uses stand at the ends of the blocks that they come from.
fn add_pairs(uses: &mut Vec<Use>, firsts: &[u32], pairs: &[(Operand, u32)]) -> Result<(), NoMemory>
    ensures { OnOk result (uses.new.items ≡ uses.old.items ++ uses_of_pairs firsts.now pairs.now) }
{
    for (operand, block) in pairs {
        add_use(
            uses,
            *block,
            number_at(firsts, *block as usize + 1),
            operand,
        )?;
    }
    Ok(())
}

/// The uses of an instruction.
fn add_inst(
    uses: &mut Vec<Use>,
    firsts: &[u32],
    ret: Ty,
    block: u32,
    before: u32,
    inst: &Inst,
) -> Result<(), NoMemory>
    ensures { OnOk result (uses.new.items ≡ uses.old.items ++ uses_of firsts.now ret block before inst.now) }
{
    match &inst.op {
        Op::Phi(pairs) => add_pairs(uses, firsts, pairs.as_slice()),
        Op::Binary(_, _, a, b) | Op::Icmp(_, _, _, a, b) | Op::Store(_, a, b) => {
            add_use(uses, block, before, a)?;
            add_use(uses, block, before, b)
        }
        Op::Cast(_, _, _, a)
        | Op::Freeze(a)
        | Op::Load(a)
        | Op::CondBr(a, _, _)
        | Op::Switch(_, a, _, _) => { add_use(uses, block, before, a) }
        Op::Select(condition, a, b) => {
            add_use(uses, block, before, condition)?;
            add_use(uses, block, before, a)?;
            add_use(uses, block, before, b)
        }
        Op::Gep(_, base, indices) => {
            add_use(uses, block, before, base)?;
            add_arguments(uses, block, before, indices.as_slice())
        }
        Op::Call(_, arguments) => add_arguments(uses, block, before, arguments.as_slice()),
        Op::BuiltIn(_, arguments) => add_arguments(uses, block, before, arguments.as_slice()),
        Op::Ret(Some(a)) => add_use(uses, block, before, a),
        Op::Ret(None) | Op::Alloca(_, _) | Op::Br(_) | Op::Unreachable => Ok(()),
    }
}

/// The uses of a block.
fn add_block(
    uses: &mut Vec<Use>,
    firsts: &[u32],
    ret: Ty,
    block: u32,
    insts: &[Inst],
) -> Result<(), NoMemory>
    requires { slice_index firsts.now block + length insts.now < 2 ^ 32 }
    ensures { OnOk result (uses.new.items ≡ uses.old.items ++ uses_in_block firsts.now ret block (slice_index firsts.now block) insts.now) }
{
    let mut before = number_at(firsts, block as usize);
    for inst in insts {
        add_inst(uses, firsts, ret, block, before, inst)?;
        if inst.gives != Ty::Void {
            before += 1;
        }
    }
    Ok(())
}

/// The uses of a function in order of text.
pub fn function_uses(
    alloc: Global,
    firsts: &[u32],
    function: &Function,
) -> Result<Vec<Use>, NoMemory>
    requires count { length function.now.blocks < 2 ^ 32 }
    requires small { (k : ℕ) (block : Block) → slice_get function.now.blocks k ≡ Some block → slice_index firsts.now k + length block.insts < 2 ^ 32 }
    ensures { IfOk result (λ uses. uses.items ≡ uses_in_blocks firsts.now function.now.ret 0 function.now.blocks) }
{
    let mut uses = Vec::new(alloc);
    let blocks = function.blocks.as_slice();
    for i in 0..blocks.len() {
        add_block(
            &mut uses,
            firsts,
            function.ret,
            i as u32,
            blocks[i].insts.as_slice(),
        )?;
    }
    Ok(uses)
}

/// The numbers of the first values of each block, and the number behind the last.
pub fn function_firsts(alloc: Global, function: &Function) -> Result<Vec<u32>, NoMemory>
    requires { values function.now < 2 ^ 32 }
    ensures { IfOk result (λ firsts. firsts.items ≡ firsts_of function.now) }
{
    let mut firsts = Vec::new(alloc);
    let mut next = function.params.len() as u32;
    for block in function.blocks.as_slice() {
        push(&mut firsts, next)?;
        next += count_results(block);
    }
    push(&mut firsts, next)?;
    Ok(firsts)
}
