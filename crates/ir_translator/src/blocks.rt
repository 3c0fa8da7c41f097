// The code of blocks behind their phis.
ghost use Rattle.std.specs.Prelude.{◌≡◌, ◌+◌, ◌*◌, ◌^◌, ◌<◌, ◌≤◌, ◌++◌, ◌∷◌, [], length, OnOk, IfOk, if◌then◌else◌};
ghost use Rattle.ir_core.specs.Units.{has_result, results};
ghost use Rattle.generic_code.specs.Literals.{empty_pool};
ghost use Rattle.generic_code.specs.Edges.{no_ending};
ghost use Rattle.generic_code.specs.Whole.{is_jump as is_jump_op, insts_ending, body_of, bodies_from};
ghost use Rattle.ir_translator_emit.specs.Written.{HasFewPhis};
ghost use Rattle.ir_translator_emit.specs.Jumps.{whole};
ghost use Rattle.ir_translator.specs.Fit.{AreFit, AreFitBlocks, weight, weight_of};
ghost use Rattle.ir_translator.specs.Laid.{laid, all_laid, codes_of};

use crate::heads::{behind_phis, phis_in, results_in};
use gmir::code::GInst;
use ir_core::code::{Block, Inst, Op};
use ir_core::types::Ty;
use ir_translator_emit::translator::Translator;
use rj_num::NoMemory;
use sqlite_items::Items;
use std::alloc::Global;

// Whether an instruction takes an edge.
fn is_jump(op: &Op) -> bool
    ensures { result ≡ is_jump_op op.now }
{
    match op {
        Op::Br(_) => true,
        Op::CondBr(_, _, _) => true,
        Op::Switch(_, _, _, _) => true,
        _ => false,
    }
}

// The number of the next value behind an instruction.
fn number_behind(inst: &Inst, value: u32) -> u32
    requires { value + 1 < 2 ^ 32 }
    ensures { result ≡ (if has_result inst.now then value + 1 else value) }
{
    if inst.gives != Ty::Void {
        value + 1
    } else {
        value
    }
}

// The code of instructions behind the phis of the block of this number, in a function with this result.
fn translate_insts(
    translator: &mut Translator,
    from: u32,
    ret: Ty,
    first: u32,
    insts: &[Inst],
) -> Result<(), NoMemory>
    requires ret { ret ≡ translator.old.function.ret }
    requires fit { AreFit (length translator.old.function.blocks) insts.now }
    requires few { HasFewPhis translator.old.function }
    requires values { first + weight insts.now < 2 ^ 32 }
    requires room { translator.old.pool.next + 32771 * weight insts.now < 2 ^ 32 }
    requires own { translator.old.own + 2 * weight insts.now < 2 ^ 32 }
    ensures written { OnOk result (whole translator.new no_ending ≡ whole translator.old (insts_ending translator.old.globals translator.old.function from first translator.old.pool translator.old.own insts.now)) }
    ensures most { OnOk result (translator.new.pool.next ≤ translator.old.pool.next + 32771 * weight insts.now) }
    ensures own { OnOk result (translator.new.own ≤ translator.old.own + 2 * weight insts.now) }
{
    let mut value = first;
    for inst in insts {
        if is_jump(&inst.op) {
            return translator.translate_end(from, &inst.op);
        }
        translator.translate_inst(ret, value, inst)?;
        value = number_behind(inst, value);
    }
    Ok(())
}

// The code of the block of this number behind its phis, whose first value has this number, in a function with this result.
fn translate_block(
    translator: &mut Translator,
    from: u32,
    ret: Ty,
    first: u32,
    insts: &[Inst],
) -> Result<Items<GInst>, NoMemory>
    requires ret { ret ≡ translator.old.function.ret }
    requires fit { AreFit (length translator.old.function.blocks) insts.now }
    requires few { HasFewPhis translator.old.function }
    requires values { first + weight insts.now < 2 ^ 32 }
    requires room { translator.old.pool.next + 32771 * weight insts.now < 2 ^ 32 }
    requires own { translator.old.own + 2 * weight insts.now < 2 ^ 32 }
    requires begins { translator.old.code ≡ [] }
    requires fresh { translator.old.pool ≡ empty_pool (length translator.old.types) }
    ensures code { IfOk result (λ code. code ≡ (body_of translator.old.globals translator.old.function from first translator.old.pool.next translator.old.own insts.now).ending.code) }
    ensures written { OnOk result (translator.new ≡ laid translator.old (body_of translator.old.globals translator.old.function from first translator.old.pool.next translator.old.own insts.now).ending) }
    ensures most { OnOk result (translator.new.pool.next ≤ translator.old.pool.next + 32771 * weight insts.now) }
    ensures own { OnOk result (translator.new.own ≤ translator.old.own + 2 * weight insts.now) }
{
    let heads = phis_in(insts).len() as u32;
    let at = translator.finished();
    translate_insts(translator, from, ret, first + heads, behind_phis(insts))?;
    translator.finish(at)
}

// Adds the code of a block.
fn add_code(codes: &mut Vec<Items<GInst>>, code: Items<GInst>) -> Result<(), NoMemory>
    ensures { OnOk result (codes.new.items ≡ codes.old.items ++ code ∷ []) }
{
    match codes.push(code) {
        Ok(()) => Ok(()),
        Err(_) => Err(NoMemory),
    }
}

/// The code of blocks behind their phis, of a function with this result, from its first block on, whose first value has this number.
pub fn translate_blocks(
    alloc: Global,
    translator: &mut Translator,
    ret: Ty,
    first: u32,
    blocks: &[Block],
) -> Result<Vec<Items<GInst>>, NoMemory>
    requires ret { ret ≡ translator.old.function.ret }
    requires fit { AreFitBlocks (length translator.old.function.blocks) blocks.now }
    requires few { HasFewPhis translator.old.function }
    requires count { length blocks.now < 2 ^ 32 }
    requires values { first + weight_of blocks.now < 2 ^ 32 }
    requires room { translator.old.pool.next + 32771 * weight_of blocks.now < 2 ^ 32 }
    requires own { translator.old.own + 2 * weight_of blocks.now < 2 ^ 32 }
    requires begins { translator.old.code ≡ [] }
    requires fresh { translator.old.pool ≡ empty_pool (length translator.old.types) }
    ensures codes { IfOk result (λ codes. codes.items ≡ codes_of (bodies_from translator.old.globals translator.old.function 0 first translator.old.pool.next translator.old.own blocks.now)) }
    ensures written { OnOk result (translator.new ≡ all_laid translator.old (bodies_from translator.old.globals translator.old.function 0 first translator.old.pool.next translator.old.own blocks.now)) }
{
    let mut codes = Vec::new(alloc);
    let mut value = first;
    let mut from: u32 = 0;
    for block in blocks {
        let insts = block.insts.as_slice();
        let code = translate_block(translator, from, ret, value, insts)?;
        add_code(&mut codes, code)?;
        value += results_in(insts);
        from += 1;
    }
    Ok(codes)
}
