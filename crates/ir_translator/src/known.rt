// What is known of a function before its code is written: its phis and the types of its values.
ghost use Rattle.std.specs.Prelude.{◌≡◌, ◌+◌, ◌≤◌, ◌<◌, ◌^◌, ◌++◌, length, map, IfOk, OnOk};
ghost use Rattle.ir_core.specs.Units.{is_result, results, instructions};
ghost use Rattle.ir_core.specs.declared.code.Block.{Block as BlockOf};
ghost use Rattle.ir_meaning.specs.Step.{phis};
ghost use Rattle.ir_meaning.specs.Typed.{types, result_types};
ghost use Rattle.generic_code.specs.Literals.{type_of as type_of_ty};
ghost use Rattle.ir_translator_emit.specs.Written.{head_of};

use gmir::code::GType;
use ir_core::code::{Block, Inst, Op};
use ir_core::program::Function;
use ir_core::types::Ty;
use ir_translator_emit::lists::push;
use ir_translator_emit::operands::PhiOperands;
use ir_translator_emit::translator::type_of;
use rj_num::NoMemory;
use sqlite_items::Items;
use std::alloc::Global;

/// The phis at the head of a block.
fn heads_in<'a>(alloc: Global, insts: &'a [Inst]) -> Result<Items<PhiOperands<'a>>, NoMemory>
    ensures { IfOk result (λ heads. heads ≡ map head_of (phis insts.now)) }
{
    let mut heads = Items::new(alloc);
    for inst in insts {
        match &inst.op {
            Op::Phi(pairs) => {
                let head = PhiOperands::new(alloc, inst.gives, pairs.as_slice())?;
                push(&mut heads, head)?;
            }
            _ => return Ok(heads),
        }
    }
    Ok(heads)
}

/// The phis at the head of each block.
pub fn heads_of<'a>(
    alloc: Global,
    blocks: &'a [Block],
) -> Result<Items<Items<PhiOperands<'a>>>, NoMemory>
    ensures { IfOk result (λ all. all ≡ map (λ (block : BlockOf). map head_of (phis block.insts)) blocks.now) }
{
    let mut all = Items::new(alloc);
    for block in blocks {
        let heads = heads_in(alloc, block.insts.as_slice())?;
        push(&mut all, heads)?;
    }
    Ok(all)
}

/// Whether a type is that of a result.
pub fn is_some(ty: Ty) -> bool
    ensures { result ≡ is_result ty }
{
    match ty {
        Ty::Void => false,
        Ty::Int(_) | Ty::Ptr => true,
    }
}

/// Adds the types of the registers of the results of instructions.
fn add_results(types: &mut Items<GType>, insts: &[Inst]) -> Result<(), NoMemory>
    ensures { OnOk result (types.new ≡ types.old ++ map type_of_ty (result_types insts.now)) }
{
    for inst in insts {
        if is_some(inst.gives) {
            push(types, type_of(inst.gives))?;
        }
    }
    Ok(())
}

/// The types of the registers of a function's values.
pub fn types_of(alloc: Global, function: &Function) -> Result<Items<GType>, NoMemory>
    ensures { IfOk result (λ all. all ≡ map type_of_ty (types function.now)) }
{
    let mut all = Items::new(alloc);
    for ty in function.params.as_slice() {
        push(&mut all, type_of(*ty))?;
    }
    for block in function.blocks.as_slice() {
        add_results(&mut all, block.insts.as_slice())?;
    }
    Ok(all)
}
