// The shape of blocks, and edges to the entry.
ghost use Rattle.std.specs.Prelude.{◌≡◌, ℕ, ◌+◌, ◌<◌, ◌≤◌, ◌^◌, length, map, slice_get, drop, IfOk};
ghost use Rattle.ir_core.specs.Units.{instructions};
ghost use Rattle.ir_flow.specs.Code.{is_terminator as is_terminator_op, is_phi as is_phi_op, is_alloca as is_alloca_op};
ghost use Rattle.ir_verify.specs.Shapes.{ends_once as ends_once_in, has_no_phi as has_no_phi_in, has_phis_first as has_phis_first_in, has_no_alloca as has_no_alloca_in, has_distinct_cases as has_distinct_cases_in, all_cases_distinct as all_cases_distinct_in, are_distinct, is_below_first as is_below_first_of, is_rising as is_rising_list, fits_number as fits_number_in, is_shaped as is_shaped_block, first_misshapen, misshapen as misshapen_block};

use ir_core::code::{Block, Inst, Op};
use ir_core::program::Function;
use rj_num::NoMemory;
use std::alloc::Global;

fn is_terminator(op: &Op) -> bool
    ensures { result ≡ is_terminator_op op.now }
{
    match op {
        Op::Ret(_) | Op::Br(_) | Op::CondBr(_, _, _) | Op::Switch(_, _, _, _) | Op::Unreachable =>
            true,
        _ => false,
    }
}

fn is_phi(op: &Op) -> bool
    ensures { result ≡ is_phi_op op.now }
{
    match op {
        Op::Phi(_) => true,
        _ => false,
    }
}

fn is_alloca(op: &Op) -> bool
    ensures { result ≡ is_alloca_op op.now }
{
    match op {
        Op::Alloca(_, _) => true,
        _ => false,
    }
}

/// The last instruction is a terminator, and no other.
fn ends_once(insts: &[Inst]) -> bool
    ensures { result ≡ ends_once_in insts.now }
{
    for i in 0..insts.len() {
        if is_terminator(&insts[i].op) {
            return insts[i + 1..].is_empty();
        }
    }
    false
}

fn has_no_phi(insts: &[Inst]) -> bool
    ensures { result ≡ has_no_phi_in insts.now }
{
    for inst in insts {
        if is_phi(&inst.op) {
            return false;
        }
    }
    true
}

fn has_no_alloca(insts: &[Inst]) -> bool
    ensures { result ≡ has_no_alloca_in insts.now }
{
    for inst in insts {
        if is_alloca(&inst.op) {
            return false;
        }
    }
    true
}

/// Phis stand before all else.
fn has_phis_first(insts: &[Inst]) -> bool
    ensures { result ≡ has_phis_first_in insts.now }
{
    for i in 0..insts.len() {
        if !is_phi(&insts[i].op) {
            return has_no_phi(&insts[i + 1..]);
        }
    }
    true
}

/// The numbers of the cases.
fn case_numbers(alloc: Global, cases: &[(u128, u32)]) -> Result<Vec<u128>, NoMemory>
    ensures { IfOk result (λ numbers. numbers.items ≡ map (λ one. one.0) cases.now) }
{
    let mut numbers = Vec::new(alloc);
    for (number, _) in cases {
        if numbers.push(*number).is_err() {
            return Err(NoMemory);
        }
    }
    Ok(numbers)
}

/// A number is below the next one, if there is one.
fn is_below_first(number: u128, rest: &[u128]) -> bool
    ensures { result ≡ is_below_first_of number rest.now }
{
    match rest.first() {
        Some(next) => number < *next,
        None => true,
    }
}

/// Each number is below the next.
fn is_rising(numbers: &[u128]) -> bool
    ensures { result ≡ is_rising_list numbers.now }
{
    for i in 0..numbers.len() {
        if !is_below_first(numbers[i], &numbers[i + 1..]) {
            return false;
        }
    }
    true
}

/// No two cases have the same number: in order, each is below the next.
fn are_cases_distinct(alloc: Global, cases: &[(u128, u32)]) -> Result<bool, NoMemory>
    ensures { IfOk result (λ distinct. distinct ≡ are_distinct (map (λ one. one.0) cases.now)) }
{
    let mut numbers = case_numbers(alloc, cases)?;
    numbers.sort_unstable();
    Ok(is_rising(numbers.as_slice()))
}

fn has_distinct_cases(alloc: Global, op: &Op) -> Result<bool, NoMemory>
    ensures { IfOk result (λ distinct. distinct ≡ has_distinct_cases_in op.now) }
{
    match op {
        Op::Switch(_, _, _, cases) => are_cases_distinct(alloc, cases.as_slice()),
        _ => Ok(true),
    }
}

fn all_cases_distinct(alloc: Global, insts: &[Inst]) -> Result<bool, NoMemory>
    ensures { IfOk result (λ distinct. distinct ≡ all_cases_distinct_in insts.now) }
{
    for inst in insts {
        if !has_distinct_cases(alloc, &inst.op)? {
            return Ok(false);
        }
    }
    Ok(true)
}

fn fits_number(number: u32, insts: &[Inst]) -> bool
    ensures { result ≡ fits_number_in number insts.now }
{
    if number == 0 {
        has_no_phi(insts)
    } else {
        has_phis_first(insts) && has_no_alloca(insts)
    }
}

/// The block of this number has its shape.
fn is_shaped(alloc: Global, number: u32, block: &Block) -> Result<bool, NoMemory>
    ensures { IfOk result (λ shaped. shaped ≡ is_shaped_block number block.now) }
{
    let insts = block.insts.as_slice();
    if !ends_once(insts) || !fits_number(number, insts) {
        return Ok(false);
    }
    all_cases_distinct(alloc, insts)
}

/// The first block that is misshapen.
pub fn misshapen(alloc: Global, function: &Function) -> Result<Option<u32>, NoMemory>
    requires { length (instructions function.now.blocks) < 2 ^ 32 }
    ensures { IfOk result (λ found. found ≡ misshapen_block function.now) }
{
    let blocks = function.blocks.as_slice();
    if blocks.is_empty() {
        return Ok(Some(0));
    }
    for i in 0..blocks.len() {
        if !is_shaped(alloc, i as u32, &blocks[i])? {
            return Ok(Some(i as u32));
        }
    }
    Ok(None)
}
