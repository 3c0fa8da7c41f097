// Blocks with their heads: parameters and phis, and the code behind them.
ghost use Rattle.std.specs.Prelude.{◌≡◌, ◌+◌, ◌++◌, ◌==◌, ◌^◌, ◌<◌, List, [], length, slice_set, slice_index_or, if◌then◌else◌, OnOk, IfOk};
ghost use Rattle.ir_core.specs.declared.program.Global.{Global as GlobalOf};
ghost use Rattle.generic_code.specs.Whole.{params_code};
ghost use Rattle.ir_translator.specs.Fit.{weight_of};
ghost use Rattle.ir_translator.specs.Groups.{AreGroups};
ghost use Rattle.ir_translator.specs.Joined.{joined};

use crate::assembled::{put_params, put_phis};
use crate::heads::{phis_in, results_in};
use gmir::code::GInst;
use ir_core::program::Function;
use ir_core::types::Ty;
use ir_translator_emit::edge::Edge;
use ir_translator_emit::lists::push;
use rj_num::NoMemory;
use sqlite_items::Items;
use std::alloc::Global;
use std::mem::replace;

// Takes the code of a block out.
fn take_code(alloc: Global, codes: &mut Vec<Items<GInst>>, at: usize) -> Items<GInst>
    requires { at < length codes.old.items }
    ensures value { result ≡ slice_index_or codes.old.items at [] }
    ensures rest { codes.new.items ≡ slice_set codes.old.items at [] }
{
    replace(&mut codes[at], Items::new(alloc))
}

// What stands before the phis of the block of this number: parameters, where it is the first.
fn before_phis(alloc: Global, number: usize, params: &[Ty]) -> Result<Items<GInst>, NoMemory>
    requires { length params.now < 2 ^ 32 }
    ensures { IfOk result (λ insts. insts ≡ (if number == 0 then params_code 0 params.now else [])) }
{
    let mut insts = Items::new(alloc);
    if number == 0 {
        put_params(alloc, &mut insts, params)?;
    }
    Ok(insts)
}

// Adds code behind code.
fn append(insts: &mut Items<GInst>, more: Items<GInst>) -> Result<(), NoMemory>
    ensures { OnOk result (insts.new ≡ insts.old ++ more) }
{
    match insts.append(more) {
        Ok(()) => Ok(()),
        Err(_) => Err(NoMemory),
    }
}

/// The blocks of a function with their heads, where the places of the edges to each block and its code behind its phis are given.
pub fn join_blocks(
    alloc: Global,
    function: &Function,
    edges: &[Edge],
    groups: &[Items<u32>],
    codes: Vec<Items<GInst>>,
) -> Result<Items<Items<GInst>>, NoMemory>
    requires count { length codes.items ≡ length function.now.blocks }
    requires many { length groups.now ≡ length function.now.blocks }
    requires groups { (globals : List GlobalOf) → AreGroups globals function.now edges.now groups.now }
    requires values { length function.now.params + weight_of function.now.blocks < 2 ^ 32 }
    ensures { IfOk result (λ all. (globals : List GlobalOf) → all ≡ joined globals function.now edges.now 0 (length function.now.params) function.now.blocks codes.items) }
{
    let mut left = codes;
    let mut all = Items::new(alloc);
    let mut value = function.params.len() as u32;
    let blocks = function.blocks.as_slice();
    for number in 0..blocks.len() {
        let insts = blocks[number].insts.as_slice();
        let mut block = before_phis(alloc, number, function.params.as_slice())?;
        put_phis(
            alloc,
            &mut block,
            value,
            phis_in(insts),
            edges,
            groups[number].as_slice(),
        )?;
        append(&mut block, take_code(alloc, &mut left, number))?;
        push(&mut all, block)?;
        value += results_in(insts);
    }
    Ok(all)
}
