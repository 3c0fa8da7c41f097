// The target code of a function.
ghost use Rattle.std.specs.Prelude.{◌≡◌, ◌+◌, ◌<◌, ◌^◌, length, IfOk};
ghost use Rattle.gmir.specs.Formed.{IsFormed};
ghost use Rattle.gmir.specs.Legal.{IsLegal, constants};
ghost use Rattle.gmir.specs.Refines.{face as generic_face};
ghost use Rattle.mir.specs.WellFormed.{IsWellFormed};
ghost use Rattle.mir_play.specs.Refines.{RefinesFrom};
ghost use Rattle.selected_code.specs.Selected.{fresh_in, fresh_of, code_from, selected};

use crate::code::Code;
use crate::patterns::put_inst;
use gmir::code::{GFunction, GInst};
use mir::code::{MFunction, MInst};
use rj_num::NoMemory;
use sqlite_items::Items;
use std::alloc::Global;

/// The code of a block, with new registers from this one on, and the first register that isn't taken then.
fn block_code(alloc: Global, insts: &[GInst], next: u32) -> Result<Code, NoMemory>
    requires room { next + fresh_in insts.now < 2 ^ 32 }
    ensures insts { IfOk result (λ code. code.insts.items ≡ code_from next insts.now) }
    ensures next { IfOk result (λ code. code.next ≡ next + fresh_in insts.now) }
{
    let mut code = Code::new(alloc, next);
    for inst in insts {
        put_inst(alloc, &mut code, inst)?;
    }
    Ok(code)
}

/// The address at which data memory ends.
fn end_of(function: &GFunction) -> u64
    ensures is { result ≡ function.now.end }
    ensures low { result < 2 ^ 64 }
{
    function.end
}

/// The code of a function, each constant in a register.
fn code_of(alloc: Global, function: &GFunction) -> Result<MFunction, NoMemory>
    requires room { length function.now.types + fresh_of function.now.blocks < 2 ^ 32 }
    ensures is { IfOk result (λ code. code ≡ selected function.now) }
    ensures low { IfOk result (λ code. code.end < 2 ^ 64) }
{
    let mut next = function.types.len() as u32;
    let mut blocks: Vec<Items<MInst>> = Vec::new(alloc);
    for insts in function.blocks.as_slice() {
        let Code {
            insts,
            next: behind,
        } = block_code(alloc, insts.as_slice(), next)?;
        if blocks.push(Items::from_vec(insts)).is_err() {
            return Err(NoMemory);
        }
        next = behind;
    }
    Ok(MFunction {
        symbol: function.symbol,
        values: function.values,
        end: end_of(function),
        regs: next,
        blocks: Items::from_vec(blocks),
    })
}

/// Selects target code for a function whose registers are pointers or have 64 bits: its code refines it. `kept` says for each constant,
/// in order of text, whether it is kept in a register; here each is kept.
///
/// # Errors
/// `NoMemory` where memory is refused.
pub fn select(alloc: Global, function: &GFunction, kept: &[bool]) -> Result<MFunction, NoMemory>
    requires formed { IsFormed function.now }
    requires legal { IsLegal function.now }
    requires room { length function.now.types + fresh_of function.now.blocks < 2 ^ 32 }
    requires kept { length kept.now ≡ constants function.now }
    ensures exact { IfOk result (λ code. code ≡ selected function.now) }
    ensures refines { IfOk result (λ code. RefinesFrom (generic_face function.now) code) }
    ensures well_formed { IfOk result (λ code. IsWellFormed code) }
{
    code_of(alloc, function)
}
