// The rows of the verifier's table in their order, over the whole module.
ghost use Rattle.std.specs.Prelude.{◌≡◌, ◌%◌, ◌+◌, ◌^◌, ◌<◌, ◌≤◌, All, length, Option, Some, None, IfOk, IfErr, MatchOption};
ghost use Rattle.ir_core.specs.Units.{instructions, values};
ghost use Rattle.ir_flow.specs.First.{or_then};
ghost use Rattle.ir_flow.specs.Limits.{limit_passed as limit_passed_of};
ghost use Rattle.ir_flow.specs.Assigned.{IsUsable, IsUnassigned};
ghost use Rattle.ir_verify.specs.Small.{IsSmall, HasFewBlocks};
ghost use Rattle.ir_verify.specs.Verdict.{of_passed, shape_refusal, range_refusal, entry_refusal, type_refusal, call_refusal, phi_refusal, refusal as refusal_of, AllUsesAssigned, Passes, Refuses, program_of};

use crate::calls::wrong_call;
use crate::checked::{Checked, seal};
use crate::inits::all_globals;
use crate::phis::{jumps_to_entry, wrong_phis};
use crate::ranges::out_of_range;
use crate::refusal::VerifyRefusal;
use crate::shapes::misshapen;
use crate::types::{mistyped, value_types};
use ir_core::program::Module;
use ir_flow::assigned::find_unassigned;
use ir_flow::limits::limit_passed;
use rj_num::NoMemory;
use sqlite_items::Items;
use std::alloc::Global;

fn limit_row(alloc: Global, all: &Module) -> Result<Option<VerifyRefusal>, NoMemory>
    ensures { IfOk result (λ found. found ≡ of_passed (limit_passed_of all.now)) }
{
    match limit_passed(alloc, all)? {
        Some((what, count)) => Ok(Some(VerifyRefusal::Limit { what, count })),
        None => Ok(None),
    }
}

fn shape_row(alloc: Global, all: &Module) -> Result<Option<VerifyRefusal>, NoMemory>
    requires count { length all.now.functions ≤ 1024 }
    requires small { All IsSmall all.now.functions }
    ensures { IfOk result (λ found. found ≡ shape_refusal all.now) }
{
    let functions = all.functions.as_slice();
    for i in 0..functions.len() {
        if let Some(block) = misshapen(alloc, &functions[i])? {
            return Ok(Some(VerifyRefusal::Shape {
                function: i as u32,
                block,
            }));
        }
    }
    Ok(None)
}

fn range_row(all: &Module) -> Option<VerifyRefusal>
    requires count { length all.now.functions ≤ 1024 }
    requires small { All IsSmall all.now.functions }
    ensures { result ≡ range_refusal all.now }
{
    if !all_globals(all) {
        return Some(VerifyRefusal::Range {
            function: 0,
            inst: 0,
        });
    }
    let functions = all.functions.as_slice();
    for i in 0..functions.len() {
        if let Some(inst) = out_of_range(all, &functions[i]) {
            return Some(VerifyRefusal::Range {
                function: i as u32,
                inst,
            });
        }
    }
    None
}

fn entry_row(all: &Module) -> Option<VerifyRefusal>
    requires count { length all.now.functions ≤ 1024 }
    requires blocks { All HasFewBlocks all.now.functions }
    ensures { result ≡ entry_refusal all.now }
{
    let functions = all.functions.as_slice();
    for i in 0..functions.len() {
        if let Some(block) = jumps_to_entry(&functions[i]) {
            return Some(VerifyRefusal::EntryEdge {
                function: i as u32,
                block,
            });
        }
    }
    None
}

fn type_row(alloc: Global, all: &Module) -> Result<Option<VerifyRefusal>, NoMemory>
    requires count { length all.now.functions ≤ 1024 }
    requires small { All IsSmall all.now.functions }
    ensures { IfOk result (λ found. found ≡ type_refusal all.now) }
{
    let functions = all.functions.as_slice();
    for i in 0..functions.len() {
        let types = value_types(alloc, &functions[i])?;
        if let Some(inst) = mistyped(types.as_slice(), &functions[i]) {
            return Ok(Some(VerifyRefusal::BadType {
                function: i as u32,
                inst,
            }));
        }
    }
    Ok(None)
}

fn call_row(all: &Module) -> Option<VerifyRefusal>
    requires count { length all.now.functions ≤ 1024 }
    requires small { All IsSmall all.now.functions }
    ensures { result ≡ call_refusal all.now }
{
    let functions = all.functions.as_slice();
    for i in 0..functions.len() {
        if let Some((inst, callee)) = wrong_call(all, &functions[i]) {
            return Some(VerifyRefusal::CallShape {
                function: i as u32,
                inst,
                callee,
            });
        }
    }
    None
}

fn phi_row(all: &Module) -> Option<VerifyRefusal>
    requires count { length all.now.functions ≤ 1024 }
    requires blocks { All HasFewBlocks all.now.functions }
    ensures { result ≡ phi_refusal all.now }
{
    let functions = all.functions.as_slice();
    for i in 0..functions.len() {
        if let Some(block) = wrong_phis(&functions[i]) {
            return Some(VerifyRefusal::PhiEdges {
                function: i as u32,
                block,
            });
        }
    }
    None
}

/// The rows from the types to the phis.
fn later_rows(alloc: Global, all: &Module) -> Result<Option<VerifyRefusal>, NoMemory>
    requires count { length all.now.functions ≤ 1024 }
    requires small { All IsSmall all.now.functions }
    requires blocks { All HasFewBlocks all.now.functions }
    ensures { IfOk result (λ found. found ≡ or_then (type_refusal all.now) (or_then (call_refusal all.now) (phi_refusal all.now))) }
{
    let types = type_row(alloc, all)?;
    if types.is_some() {
        return Ok(types);
    }
    let calls = call_row(all);
    if calls.is_some() {
        return Ok(calls);
    }
    Ok(phi_row(all))
}

/// The rows from the ranges to the phis.
fn rows_after_shapes(alloc: Global, all: &Module) -> Result<Option<VerifyRefusal>, NoMemory>
    requires count { length all.now.functions ≤ 1024 }
    requires small { All IsSmall all.now.functions }
    requires blocks { All HasFewBlocks all.now.functions }
    ensures { IfOk result (λ found. found ≡ or_then (range_refusal all.now) (or_then (entry_refusal all.now)
        (or_then (type_refusal all.now) (or_then (call_refusal all.now) (phi_refusal all.now))))) }
{
    let ranges = range_row(all);
    if ranges.is_some() {
        return Ok(ranges);
    }
    let entries = entry_row(all);
    if entries.is_some() {
        return Ok(entries);
    }
    later_rows(alloc, all)
}

/// The first of the rows before the last that refuses the module.
fn rows(alloc: Global, all: &Module) -> Result<Option<VerifyRefusal>, NoMemory>
    ensures { IfOk result (λ found. found ≡ refusal_of all.now) }
{
    let limits = limit_row(alloc, all)?;
    if limits.is_some() {
        return Ok(limits);
    }
    let shapes = shape_row(alloc, all)?;
    if shapes.is_some() {
        return Ok(shapes);
    }
    rows_after_shapes(alloc, all)
}

/// The first use that a walk reaches without a definition, with its function and the walk.
fn first_unassigned(alloc: Global, all: &Module) -> Result<Option<(u32, u32, Vec<u32>)>, NoMemory>
    requires count { length all.now.functions ≤ 1024 }
    requires usable { All IsUsable all.now.functions }
    ensures { IfOk result (λ found. MatchOption found (AllUsesAssigned all.now) (λ shown. IsUnassigned all.now shown.0 shown.1 shown.2.items)) }
{
    let functions = all.functions.as_slice();
    for i in 0..functions.len() {
        if let Some((value, walk)) = find_unassigned(alloc, &functions[i])? {
            return Ok(Some((i as u32, value, walk)));
        }
    }
    Ok(None)
}

/// What refuses the module, if anything does.
fn what_refuses(alloc: Global, all: &Module) -> Result<Option<VerifyRefusal>, NoMemory>
    ensures { IfOk result (λ found. MatchOption found (Passes all.now) (λ shown. Refuses all.now shown)) }
{
    let found = rows(alloc, all)?;
    if found.is_some() {
        return Ok(found);
    }
    match first_unassigned(alloc, all)? {
        Some((function, value, walk)) => Ok(Some(VerifyRefusal::NotAssigned {
            function,
            value,
            walk: Items::from_vec(walk),
        })),
        None => Ok(None),
    }
}

/// The module as a checked one where every row passes, or the module as it was with the first row that doesn't.
/// `room` is the size of data memory in bytes: a multiple of 16 from 4,096 to 67,108,864.
pub fn verify(alloc: Global, all: Module, room: u64) -> Result<Checked, (Module, VerifyRefusal)>
    requires { (4096 ≤ room) × (room ≤ 67108864) × (room % 16 ≡ 0) }
    ensures checked { IfOk result (λ checked. (checked ≡ program_of all room) × Passes all) }
    ensures refused { IfErr result (λ refused. (refused.0 ≡ all) × Refuses all refused.1) }
{
    match what_refuses(alloc, &all) {
        Ok(None) => Ok(seal(all, room)),
        Ok(Some(refusal)) => Err((all, refusal)),
        Err(NoMemory) => Err((all, VerifyRefusal::NoMemory)),
    }
}
