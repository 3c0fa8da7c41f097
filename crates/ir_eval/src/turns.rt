// One turn of an activation: an instruction, and what it costs.
ghost use Rattle.std.specs.Prelude.{◌≡◌, ◌^◌, ◌<◌, Some, slice_get, true, length, IfOk};
ghost use Rattle.std.specs.Option.{option_copied};
ghost use Rattle.ir_eval.specs.Beyond.{beyond, is_plain};
ghost use Rattle.ir_eval.specs.Code.{ArePlaces, program_with};
ghost use Rattle.ir_eval.specs.Fits.{HasFitting, HasNumbers, HasPlan, IsBounded, IsUsable, OpFits, rows_at};
ghost use Rattle.ir_eval.specs.Turns.{came, shown, told, turn_beyond, turn_of};
ghost use Rattle.ir_meaning.specs.Step.{act as act_of, branch_target as branch_target_of, case_block as case_block_of, insts_at, nothing_there, step, switch_target as switch_target_of};

use crate::done::Done;
use crate::edges::{edge, pay};
use crate::moves::built_in_step;
use crate::operands::operand;
use crate::parts::part_step;
use crate::scalars::scalar;
use crate::steps::{alloca_step, arguments_of, load_step, return_step, store_step};
use ir_core::code::{Inst, Op};
use ir_core::program::{Function, Module};
use ir_core::units::capped_units;
use ir_meaning::activation::Activation;
use ir_ops::memory::DataMemory;
use sqlite_items::Items;
use std::alloc::{AllocError, Global};

/// The block that a branch goes to; none where the value is poison.
fn branch_target(value: Option<u128>, if_true: u32, if_false: u32) -> Option<u32>
    ensures { result ≡ branch_target_of value if_true if_false }
{
    match value {
        None => None,
        Some(n) => Some(if n == 0 { if_false } else { if_true }),
    }
}

/// The block of the first case with this number.
fn case_block(n: u128, cases: &[(u128, u32)], otherwise: u32) -> u32
    ensures { result ≡ case_block_of n cases.now otherwise }
{
    for (number, block) in cases {
        if *number == n {
            return *block;
        }
    }
    otherwise
}

/// The block that a switch goes to; none where the value is poison.
fn switch_target(value: Option<u128>, cases: &[(u128, u32)], otherwise: u32) -> Option<u32>
    ensures { result ≡ switch_target_of value cases.now otherwise }
{
    match value {
        None => None,
        Some(n) => Some(case_block(n, cases, otherwise)),
    }
}

/// An instruction whose units are its own, which are paid for.
fn plain(
    alloc: Global,
    all: &Module,
    room: u64,
    places: &[u64],
    function: &Function,
    numbers: &Items<Items<u32>>,
    now: &mut Activation,
    memory: &mut DataMemory,
    inst: &Inst,
) -> Result<Done, AllocError>
    requires places { ArePlaces all.now.globals places.now }
    requires room { room < 2 ^ 32 }
    requires bounded { IsBounded function.now }
    requires numbers { HasNumbers function.now numbers.now }
    requires at { slice_get (insts_at function.now now.old.block) now.old.place ≡ Some inst.now }
    requires kind { is_plain inst.now.op ≡ true }
    requires fits { OpFits (program_with all.now room) now.old.values inst.now.gives inst.now.op }
    ensures { IfOk result (λ done. shown done now.new memory.new ≡ came now.old memory.old (act_of (program_with all.now room) function.now now.old memory.old inst.now inst.now.op).does) }
{
    match &inst.op {
        Op::Alloca(of, count) => alloca_step(
            all, room, function, numbers, now, memory, inst, of, *count,
        ),
        Op::Load(address) => Ok(load_step(
            all, room, places, function, numbers, now, memory, inst, *address,
        )),
        Op::Store(ty, value, address) => {
            Ok(store_step(
                all, room, places, function, numbers, now, memory, inst, *ty, *value, *address,
            ))
        }
        Op::Gep(of, base, indices) => {
            let indices = indices.as_slice();
            Ok(part_step(
                all, room, places, function, numbers, now, memory, inst, of, *base, indices,
            ))
        }
        Op::Call(callee, arguments) => {
            let values = now.values.as_slice();
            let given = arguments_of(alloc, all, room, places, values, arguments.as_slice())?;
            Ok(Done::Calls(*callee, given))
        }
        Op::Ret(value) => Ok(return_step(all, room, places, function, now, memory, inst, *value)),
        _ => Ok(scalar(all, room, places, function, numbers, now, memory, inst)),
    }
}

/// One instruction, whose own units are paid for.
#[tactic(auto, using(crate::proofs::Turning::edge_same))]
fn perform(
    alloc: Global,
    all: &Module,
    room: u64,
    places: &[u64],
    function: &Function,
    numbers: &Items<Items<u32>>,
    now: &mut Activation,
    memory: &mut DataMemory,
    left: &mut u64,
    inst: &Inst,
) -> Result<Option<Done>, AllocError>
    requires places { ArePlaces all.now.globals places.now }
    requires room { room < 2 ^ 32 }
    requires bounded { IsBounded function.now }
    requires numbers { HasNumbers function.now numbers.now }
    requires at { slice_get (insts_at function.now now.old.block) now.old.place ≡ Some inst.now }
    requires fits { OpFits (program_with all.now room) now.old.values inst.now.gives inst.now.op }
    requires left { left.old < 2 ^ 63 }
    ensures { IfOk result (λ done. told done left.new now.new memory.new ≡ turn_beyond left.old (beyond (program_with all.now room) function.now now.old memory.old inst.now.op) (came now.old memory.old (act_of (program_with all.now room) function.now now.old memory.old inst.now inst.now.op).does)) }
{
    match &inst.op {
        Op::Br(to) => edge(
            alloc,
            all,
            room,
            places,
            function,
            numbers,
            now,
            memory,
            left,
            Some(*to),
        ),
        Op::CondBr(condition, if_true, if_false) => {
            let condition = operand(all, room, places, now.values.as_slice(), *condition);
            let to = branch_target(condition, *if_true, *if_false);
            edge(
                alloc, all, room, places, function, numbers, now, memory, left, to,
            )
        }
        Op::Switch(_, x, otherwise, cases) => {
            let x = operand(all, room, places, now.values.as_slice(), *x);
            let to = switch_target(x, cases.as_slice(), *otherwise);
            edge(
                alloc, all, room, places, function, numbers, now, memory, left, to,
            )
        }
        Op::BuiltIn(which, arguments) => {
            let arguments = arguments.as_slice();
            Ok(built_in_step(
                all, room, places, function, numbers, now, memory, left, inst, *which, arguments,
            ))
        }
        _ => Ok(Some(plain(
            alloc, all, room, places, function, numbers, now, memory, inst,
        )?)),
    }
}

/// One instruction.
fn act(
    alloc: Global,
    all: &Module,
    room: u64,
    places: &[u64],
    function: &Function,
    numbers: &Items<Items<u32>>,
    now: &mut Activation,
    memory: &mut DataMemory,
    left: &mut u64,
    inst: &Inst,
) -> Result<Option<Done>, AllocError>
    requires places { ArePlaces all.now.globals places.now }
    requires room { room < 2 ^ 32 }
    requires bounded { IsBounded function.now }
    requires numbers { HasNumbers function.now numbers.now }
    requires at { slice_get (insts_at function.now now.old.block) now.old.place ≡ Some inst.now }
    requires fits { OpFits (program_with all.now room) now.old.values inst.now.gives inst.now.op }
    requires left { left.old < 2 ^ 63 }
    ensures { IfOk result (λ done. told done left.new now.new memory.new ≡ turn_of left.old now.old memory.old (act_of (program_with all.now room) function.now now.old memory.old inst.now inst.now.op)) }
{
    if pay(left, capped_units(inst)) {
        perform(
            alloc, all, room, places, function, numbers, now, memory, left, inst,
        )
    } else {
        Ok(None)
    }
}

/// Where no instruction stands, a turn costs a unit, and nothing says what comes.
fn nowhere(now: &Activation, memory: &DataMemory, left: &mut u64) -> Option<Done>
    ensures { told result left.new now.now memory.now ≡ turn_of left.old now.now memory.now nothing_there }
{
    if pay(left, 1) {
        Some(Done::Breaks)
    } else {
        None
    }
}

/// The instruction at a place of a block.
pub fn inst_at<'a>(function: &'a Function, block: u32, place: u64) -> Option<&'a Inst>
    ensures { option_copied result ≡ slice_get (insts_at function.now block) place }
{
    match function.blocks.get(block as usize) {
        None => None,
        Some(block) => block.insts.get(place as usize),
    }
}

/// The numbers of a function's values, where they are known.
pub fn numbers_at<'a>(plan: &'a Items<Items<Items<u32>>>, symbol: u32) -> &'a Items<Items<u32>>
    requires { symbol < length plan.now }
    ensures { result.now ≡ rows_at plan.now symbol }
{
    &plan.as_slice()[symbol as usize]
}

/// The next turn of an activation. None where there are too few units for it.
pub fn turn(
    alloc: Global,
    all: &Module,
    room: u64,
    places: &[u64],
    plan: &Items<Items<Items<u32>>>,
    now: &mut Activation,
    memory: &mut DataMemory,
    left: &mut u64,
) -> Result<Option<Done>, AllocError>
    requires places { ArePlaces all.now.globals places.now }
    requires usable { IsUsable (program_with all.now room) }
    requires plan { HasPlan (program_with all.now room) plan.now }
    requires fitting { HasFitting (program_with all.now room) now.old }
    requires left { left.old < 2 ^ 63 }
    ensures { IfOk result (λ done. told done left.new now.new memory.new ≡ turn_of left.old now.old memory.old (step (program_with all.now room) now.old memory.old)) }
{
    let function = match all.functions.get(now.symbol as usize) {
        None => return Ok(nowhere(now, memory, left)),
        Some(function) => function,
    };
    let numbers = numbers_at(plan, now.symbol);
    match inst_at(function, now.block, now.place) {
        None => Ok(nowhere(now, memory, left)),
        Some(inst) => act(
            alloc, all, room, places, function, numbers, now, memory, left, inst,
        ),
    }
}
