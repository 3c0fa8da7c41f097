// The limits of a module, in their order.
ghost use Rattle.std.specs.Prelude.{◌≡◌, ◌*◌, ◌^◌, ◌<◌, length, map, Option, Some, None, IfOk, sum_by};
ghost use Rattle.ir_core.specs.Units.{instructions, units};
ghost use Rattle.ir_flow.specs.Limits.{capped, above as above_of, shown_size as shown_size_of, capped_passing, measured as measured_type, type_limit as type_limit_of, op_limit as op_limit_of, insts_limit as insts_limit_of, function_limit as function_limit_of, functions_limit as functions_limit_of, globals_limit as globals_limit_of, limit_passed as limit_passed_of};

use crate::nodes::count_nodes;
use crate::sizes::measure_of;
use ir_core::code::{Inst, Op};
use ir_core::program::{Function, Global as GlobalItem, Module, What};
use ir_core::types::MemTy;
use ir_core::units::capped_units;
use rj_num::NoMemory;
use std::alloc::Global;

fn above(what: What, most: u64, count: u64) -> Option<(What, u64)>
    ensures { result ≡ above_of what most count }
{
    if count > most {
        Some((what, count))
    } else {
        None
    }
}

/// What is passed where a type in it is too large.
fn shown_size(passing: Option<u64>) -> Option<(What, u64)>
    ensures { result ≡ shown_size_of passing }
{
    match passing {
        Some(size) => Some((What::Size, size)),
        None => None,
    }
}

/// The limit that a type of memory passes.
fn type_limit(alloc: Global, ty: &MemTy) -> Result<Option<(What, u64)>, NoMemory>
    ensures { IfOk result (λ found. found ≡ type_limit_of ty.now) }
{
    let nodes = count_nodes(alloc, ty)?;
    if nodes > 4096 {
        return Ok(Some((What::Nodes, nodes)));
    }
    Ok(shown_size(measure_of(ty).passing))
}

fn op_limit(alloc: Global, op: &Op) -> Result<Option<(What, u64)>, NoMemory>
    ensures { IfOk result (λ found. found ≡ op_limit_of op.now) }
{
    match op {
        Op::Alloca(of, _) => type_limit(alloc, of),
        Op::Gep(of, _, _) => type_limit(alloc, of),
        _ => Ok(None),
    }
}

fn block_limit(alloc: Global, insts: &[Inst]) -> Result<Option<(What, u64)>, NoMemory>
    ensures { IfOk result (λ found. found ≡ insts_limit_of insts.now) }
{
    for inst in insts {
        let found = op_limit(alloc, &inst.op)?;
        if found.is_some() {
            return Ok(found);
        }
    }
    Ok(None)
}

/// The limit that a function's types pass.
fn insts_limit(alloc: Global, function: &Function) -> Result<Option<(What, u64)>, NoMemory>
    ensures { IfOk result (λ found. found ≡ insts_limit_of (instructions function.now.blocks)) }
{
    for block in function.blocks.as_slice() {
        let found = block_limit(alloc, block.insts.as_slice())?;
        if found.is_some() {
            return Ok(found);
        }
    }
    Ok(None)
}

/// The units of a function's instructions, up to the greatest number.
fn units_in(function: &Function) -> u64
    ensures { result ≡ capped (sum_by units (instructions function.now.blocks)) }
{
    let mut count = 0u64;
    for block in function.blocks.as_slice() {
        for inst in block.insts.as_slice() {
            count = count.saturating_add(capped_units(inst));
        }
    }
    count
}

fn function_limit(alloc: Global, function: &Function) -> Result<Option<(What, u64)>, NoMemory>
    ensures { IfOk result (λ found. found ≡ function_limit_of function.now) }
{
    let parameters = function.params.len() as u64;
    if parameters > 8 {
        return Ok(above(What::Parameters, 8, parameters));
    }
    let units = units_in(function);
    if units > 16384 {
        return Ok(above(What::Units, 16384, units));
    }
    insts_limit(alloc, function)
}

fn functions_limit(alloc: Global, functions: &[Function]) -> Result<Option<(What, u64)>, NoMemory>
    ensures { IfOk result (λ found. found ≡ functions_limit_of functions.now) }
{
    for function in functions {
        let found = function_limit(alloc, function)?;
        if found.is_some() {
            return Ok(found);
        }
    }
    Ok(None)
}

fn globals_limit(alloc: Global, globals: &[GlobalItem]) -> Result<Option<(What, u64)>, NoMemory>
    ensures { IfOk result (λ found. found ≡ globals_limit_of globals.now) }
{
    for global in globals {
        let found = type_limit(alloc, &global.ty)?;
        if found.is_some() {
            return Ok(found);
        }
    }
    Ok(None)
}

/// The first limit that a module passes, and the count that passes it.
pub fn limit_passed(alloc: Global, all: &Module) -> Result<Option<(What, u64)>, NoMemory>
    ensures { IfOk result (λ found. found ≡ limit_passed_of all.now) }
{
    let functions = all.functions.len() as u64;
    if functions > 1024 {
        return Ok(above(What::Functions, 1024, functions));
    }
    let globals = all.globals.len() as u64;
    if globals > 4096 {
        return Ok(above(What::Globals, 4096, globals));
    }
    let found = globals_limit(alloc, all.globals.as_slice())?;
    if found.is_some() {
        return Ok(found);
    }
    functions_limit(alloc, all.functions.as_slice())
}
