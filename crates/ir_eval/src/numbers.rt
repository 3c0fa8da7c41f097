// The numbers of values: parameters first, then instructions with a result in order of text.
ghost use Rattle.std.specs.Prelude.{◌≡◌, ◌+◌, ◌^◌, ◌<◌, ◌∷◌, [], length, IfOk};
ghost use Rattle.ir_core.specs.Units.{results};
ghost use Rattle.ir_eval.specs.Code.{program_with};
ghost use Rattle.ir_eval.specs.Fits.{HasNumbers, HasPlan, IsBounded, IsUsable, number_in, numbers_from};
ghost use Rattle.ir_meaning.specs.Step.{insts_at, with_result};

use ir_core::code::Inst;
use ir_core::program::{Function, Module};
use ir_core::types::Ty;
use sqlite_items::Items;
use std::alloc::{AllocError, Global};

/// 1 where the instruction has a result.
fn one_if_result(inst: &Inst) -> u32
    ensures { result ≡ results (inst.now ∷ []) }
{
    if inst.gives != Ty::Void { 1 } else { 0 }
}

/// How many of these instructions have a result.
fn results_in(insts: &[Inst]) -> u32
    requires { results insts.now < 2 ^ 32 }
    ensures { result ≡ results insts.now }
{
    let mut count = 0;
    for inst in insts {
        count += one_if_result(inst);
    }
    count
}

/// The numbers of the values that instructions give, the first of them this; the next one where an instruction has no result.
fn block_numbers(alloc: Global, insts: &[Inst], first: u32) -> Result<Items<u32>, AllocError>
    requires { first + results insts.now < 2 ^ 32 }
    ensures { IfOk result (λ row. row ≡ numbers_from first insts.now) }
{
    let mut row = Items::new(alloc);
    let mut next = first;
    for inst in insts {
        row.push(next)?;
        next += one_if_result(inst);
    }
    Ok(row)
}

/// The numbers of a function's values, by block and place.
fn function_numbers(alloc: Global, function: &Function) -> Result<Items<Items<u32>>, AllocError>
    requires { IsBounded function.now }
    ensures { IfOk result (λ rows. HasNumbers function.now rows) }
{
    let mut rows = Items::new(alloc);
    let mut next = function.params.len() as u32;
    for block in function.blocks.as_slice() {
        let insts = block.insts.as_slice();
        rows.push(block_numbers(alloc, insts, next)?)?;
        next += results_in(insts);
    }
    Ok(rows)
}

/// The numbers of the values of each function.
pub fn plan_of(
    alloc: Global,
    all: &Module,
    room: u64,
) -> Result<Items<Items<Items<u32>>>, AllocError>
    requires { IsUsable (program_with all.now room) }
    ensures { IfOk result (λ plan. HasPlan (program_with all.now room) plan) }
{
    let functions = all.functions.as_slice();
    let mut plan = Items::new(alloc);
    for function in functions {
        plan.push(function_numbers(alloc, function)?)?;
    }
    Ok(plan)
}

/// The number of the value that the instruction at a place of a block gives.
fn number_of(numbers: &Items<Items<u32>>, block: u32, place: u64) -> usize
    ensures { result ≡ number_in numbers.now block place }
{
    match numbers.get(block as usize) {
        None => 0,
        Some(row) => match row.get(place as usize) {
            None => 0,
            Some(number) => *number as usize,
        },
    }
}

/// The values after the instruction at a place of a block gave this value, where it has a result.
pub fn put(
    function: &Function,
    numbers: &Items<Items<u32>>,
    values: &mut Items<Option<u128>>,
    block: u32,
    place: u64,
    inst: &Inst,
    value: Option<u128>,
)
    requires numbers { HasNumbers function.now numbers.now }
    requires place { place < length (insts_at function.now block) }
    ensures { values.new ≡ with_result function.now block place inst.now value values.old }
{
    if inst.gives != Ty::Void {
        let number = number_of(numbers, block, place);
        if number < values.len() {
            values.set(number, value);
        }
    }
}
