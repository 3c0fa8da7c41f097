ghost use Rattle.std.specs.Prelude.{◌≡◌, ◌++◌, ◌+◌, IfOk, OnOk, codes, decimal, length};
ghost use Rattle.ir_core.specs.Units.{results};
ghost use Rattle.ir_print.specs.Modules.{next_value, insts_text, blocks_text};

use crate::instructions::{has_result, inst};
use ir_core::code::{Block, Inst};
use ir_core::program::Module;
use ir_core::types::Ty;
use ir_print_names::Page;
use rj_num::NoMemory;

/// The number behind a value's. A function of 2^64 values doesn't fit in memory.
fn after(value: u64) -> Result<u64, NoMemory>
    ensures { IfOk result (λ next. next ≡ value + 1) }
{
    match value.checked_add(1) {
        Some(next) => Ok(next),
        None => Err(NoMemory),
    }
}

/// The number of the value behind an instruction.
fn next_value(value: u64, inst: &Inst) -> Result<u64, NoMemory>
    ensures { IfOk result (λ next. next ≡ next_value value inst.now) }
{
    if has_result(inst) {
        return after(value);
    }
    Ok(value)
}

/// Instructions, whose first result has this number: the number of the value behind them.
fn insts(
    page: &mut Page,
    program: &Module,
    result_ty: Ty,
    first: u64,
    insts: &[Inst],
) -> Result<u64, NoMemory>
    ensures text { OnOk result (page.new ≡ page.old ++ insts_text program.now result_ty first insts.now) }
    ensures next { IfOk result (λ next. next ≡ first + results insts.now) }
{
    let mut value = first;
    for one in insts {
        inst(page, program, result_ty, value, one)?;
        value = next_value(value, one)?;
    }
    Ok(value)
}

/// The label of a block.
fn label(page: &mut Page, number: u64) -> Result<(), NoMemory>
    ensures { OnOk result (page.new ≡ page.old ++ (codes "b" ++ decimal number ++ codes ":\n")) }
{
    page.write(b"b")?;
    page.number(number as u128)?;
    page.write(b":\n")
}

/// The blocks of a function with so many parameters.
pub fn blocks(
    page: &mut Page,
    program: &Module,
    result_ty: Ty,
    params: usize,
    blocks: &[Block],
) -> Result<(), NoMemory>
    ensures { OnOk result (page.new ≡ page.old ++ blocks_text program.now result_ty 0 params blocks.now) }
{
    let mut value = params as u64;
    for (number, block) in blocks.iter().enumerate() {
        label(page, number as u64)?;
        value = insts(page, program, result_ty, value, block.insts.as_slice())?;
    }
    Ok(())
}
